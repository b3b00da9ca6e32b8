// A ring whose items lie in a slice beside its marks.
ghost use Rattle.std.specs.Prelude.{◌≡◌, ◌+◌, ◌%◌, ◌<◌, ◌≤◌, [], ◌∷◌, ◌++◌, length, if◌then◌else◌, slice_set, IsTrue};
ghost use Rattle.ring.specs.Ring.{fits, has_item, has_room, items, without_oldest, oldest, one_less, one_more, next_slot};

// The slot of the oldest item, and how many items there are. The marks lie beside the slots, since put and take are for any slice.
#[derive(Clone, Copy, Debug, PartialEq, Eq)]
pub struct Ring {
    pub head: usize,
    pub len: usize,
}

impl Ring {
    // No item yet.
    pub const EMPTY: Ring = Ring { head: 0, len: 0 };
}

// Of `size` slots, the one that is `n` after `head`. It subtracts first, since the sum may pass 2^64.
fn slot_after(size: usize, head: usize, n: usize) -> usize
    requires head { head < size }
    requires n { n ≤ size }
    ensures { result ≡ (head + n) % size }
{
    let behind = size - head;
    if n < behind { head + n } else { n - behind }
}

// Puts an item at the end, or answers false where no slot is free or the marks lie outside the slots.
#[tactic(auto, using(crate::proofs::Items::items_after_put))]
pub fn put<T: Copy>(slots: &mut [T], ring: &mut Ring, x: T) -> bool
    ensures answer { result ≡ has_room (length slots.old) ring.old }
    ensures slots { slots.new
        ≡ (if result then slice_set slots.old (next_slot (length slots.old) ring.old) x
        else slots.old) }
    ensures marks { ring.new ≡ (if result then one_more ring.old else ring.old) }
    ensures items { items slots.new ring.new ≡ items slots.old ring.old ++
        (if result then x ∷ [] else []) }
    ensures within { IsTrue (fits (length slots.old) ring.old)
        → IsTrue (fits (length slots.new) ring.new) }
{
    if ring.head >= slots.len() || ring.len >= slots.len() {
        return false;
    }
    let at = slot_after(slots.len(), ring.head, ring.len);
    slots[at] = x;
    ring.len += 1;
    true
}

// The oldest item, which leaves the ring, or none where it is empty or its marks lie outside the slots.
#[tactic(auto, using(crate::proofs::Items::items_before_take))]
pub fn take<T: Copy>(slots: &[T], ring: &mut Ring) -> Option<T>
    ensures answer { result ≡ oldest slots.now ring.old }
    ensures marks { ring.new
        ≡ (if has_item (length slots.now) ring.old then one_less (length slots.now) ring.old
        else ring.old) }
    ensures items { items slots.now ring.new ≡ without_oldest slots.now ring.old }
    ensures within { IsTrue (fits (length slots.now) ring.old)
        → IsTrue (fits (length slots.now) ring.new) }
{
    if ring.head >= slots.len() || ring.len > slots.len() || ring.len == 0 {
        return None;
    }
    let x = slots[ring.head];
    ring.head = slot_after(slots.len(), ring.head, 1);
    ring.len -= 1;
    Some(x)
}

// The items, oldest first: those from the head to the last slot, then those from the first slot on.
#[tactic(auto, using(crate::proofs::Items::take_in_two))]
pub(crate) fn as_slices<'a, T>(slots: &'a [T], ring: &Ring) -> (&'a [T], &'a [T])
    requires { IsTrue (fits (length slots.now) ring.now) }
    ensures { result.0.now ++ result.1.now ≡ items slots.now ring.now }
{
    let (before, from_head) = slots.split_at(ring.head);
    let count = ring.len.min(from_head.len());
    (&from_head[..count], &before[..ring.len - count])
}
