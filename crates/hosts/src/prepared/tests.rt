// The prepared host on examples.
use super::*;

const PLAIN: SpawnOptions = SpawnOptions {
    grouped: false,
    session: false,
    reset_sigmask: false,
    grant_foreground: false,
};

// The sheet is a slice.
#[test]
fn a_sheet_of_four_answers(rt: HostRuntime) {
    let mut host = PreparedHost::new([100, 0, 16, -3].as_slice());
    assert_eq!(rt; host.spawn(1, PLAIN, 0, 10), Ok(100));
    assert_eq!(rt; host.poll(7), Err(Fault { code: 10 }));
    assert_eq!(rt; host.poll(100), Ok(None));
    assert_eq!(rt;
        host.hook(5, CommandState::Pending, None),
        Err(Fault { code: 22 })
    );
    assert_eq!(rt; host.kill(100), Err(Fault { code: 3 }));
    assert_eq!(rt; host.kill(100), Err(Fault { code: 61 }));
    assert!(rt; host.is_full());
    host.let_go(100);
    assert!(rt; !host.is_full());
    assert_eq!(rt; host.place(), 4);
    assert_eq!(rt; (host.served.0, host.spawns.0), (7, 1));
}

// The sheet is an array.
#[test]
fn one_child_at_a_time(rt: HostRuntime) {
    let mut host = PreparedHost::new([100, 1003, 100]);
    assert_eq!(rt; host.spawn(1, PLAIN, 0, 10), Ok(100));
    assert_eq!(rt; host.spawn(1, PLAIN, 0, 10), Err(Fault { code: 11 }));
    assert_eq!(rt; host.wait(100), Ok(ProcessEnd::Exited(3)));
    assert_eq!(rt; host.wait(100), Err(Fault { code: 10 }));
    assert_eq!(rt; host.spawn(1, PLAIN, 0, 10), Ok(100));
    assert_eq!(rt; host.place(), 3);
}
