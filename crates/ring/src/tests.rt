// Rings and queues on examples.
use crate::queue::Queue;
use crate::slots::{Ring, put, take};

#[test]
fn no_slots(rt: HostRuntime) {
    let mut none: [u8; 0] = [];
    let mut ring = Ring { head: 0, len: 0 };
    assert!(rt; !put(&mut none, &mut ring, 7));
    assert_eq!(rt; take(&none, &mut ring), None);
    assert_eq!(rt; ring, Ring { head: 0, len: 0 });
}

#[test]
fn round_the_end(rt: HostRuntime) {
    let mut slots = [0u8; 3];
    let mut ring = Ring { head: 2, len: 0 };
    assert!(rt; put(&mut slots, &mut ring, 5));
    assert!(rt; put(&mut slots, &mut ring, 6));
    assert_eq!(rt; slots, [6, 0, 5]);
    assert_eq!(rt; take(&slots, &mut ring), Some(5));
    assert_eq!(rt; ring, Ring { head: 0, len: 1 });
    assert_eq!(rt; take(&slots, &mut ring), Some(6));
    assert_eq!(rt; take(&slots, &mut ring), None);
}

#[test]
fn every_slot_taken(rt: HostRuntime) {
    let mut slots = [1u32, 2];
    let mut ring = Ring { head: 1, len: 2 };
    assert!(rt; !put(&mut slots, &mut ring, 9));
    assert_eq!(rt; slots, [1, 2]);
    assert_eq!(rt; ring, Ring { head: 1, len: 2 });
}

#[test]
fn marks_outside(rt: HostRuntime) {
    for (head, len) in [(2, 0), (usize::MAX, 1), (0, 3), (1, usize::MAX)] {
        let mut slots = [1u8, 2];
        let mut ring = Ring { head, len };
        assert!(rt; !put(&mut slots, &mut ring, 9));
        assert_eq!(rt; take(&slots, &mut ring), None);
        assert_eq!(rt; (slots, ring), ([1, 2], Ring { head, len }));
    }
}

#[test]
fn first_in_first_out(rt: HostRuntime) {
    let mut queue: Queue<char, 2> = Queue::new(' ');
    assert!(rt; queue.push('a') && queue.push('b') && !queue.push('c'));
    assert_eq!(rt; queue.pop(), Some('a'));
    assert!(rt; queue.push('d'));
    assert_eq!(rt; queue.room(), 0);
    let (older, newer) = queue.as_slices();
    assert!(rt; older.iter().chain(newer).eq(&['b', 'd']));
    queue.clear();
    assert_eq!(rt; queue.room(), 2);
    assert_eq!(rt; queue.pop(), None);
}
