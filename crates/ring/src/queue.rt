// A bounded queue that owns its slots.
ghost use Rattle.std.specs.Prelude.{◌≡◌, ◌≤◌, ◌-◌, [], ◌∷◌, ◌++◌, length, if◌then◌else◌, nat_lt, IsTrue};
ghost use Rattle.ring.specs.Ring.{first, fits, rest};

use crate::slots;
use crate::slots::Ring;
use std::alloc::AllocError;

// At most N items, first in, first out. They lie in an array, since the memory of a job is fixed.
// It has no `impl Model`: that would forget the slots, so `self.new ≡ self.old` of what holds a queue would say less.
#[derive(Copy)]
pub struct Queue<T, const N: usize> {
    slots: [T; N],
    marks: Ring,

    // The array's type says this of each queue in code; here it is said to lemmas too.
    ghost full: { length slots ≡ N },
    ghost within: { IsTrue (fits N marks) },
}

// By hand, since `Clone` can't be derived for a struct with ghost fields.
impl<T: Copy, const N: usize> Clone for Queue<T, N> {
    ghost is_clone = { λ x y. y ≡ x };

    ghost is_infallible = { λ _. Unit {0} };

    fn clone(&self) -> Result<Queue<T, N>, AllocError> {
        Ok(*self)
    }
}

// An empty queue.
impl<T: Copy + Default, const N: usize> Default for Queue<T, N> {
    ghost use Rattle.ring.specs.Queue.{items_of};

    ghost is_default = { λ queue. items_of queue ≡ [] };

    fn default() -> Self {
        Queue::new(T::default())
    }
}

impl<T: Copy, const N: usize> Queue<T, N> {
    ghost use Rattle.ring.specs.Queue.{items_of};

    // An empty queue; `blank` fills its slots.
    pub fn new(blank: T) -> Self
        ensures { items_of result ≡ [] }
    {
        Queue {
            slots: [blank; N],
            marks: Ring::EMPTY,
        }
    }

    // How many items more it can take.
    pub fn room(&self) -> usize
        ensures { result ≡ N - length (items_of self.now) }
    {
        N - self.marks.len
    }

    // One item more at the end, or false where every slot is taken.
    pub fn push(&mut self, x: T) -> bool
        ensures answer { result ≡ nat_lt (length (items_of self.old)) N }
        ensures after { items_of self.new ≡ items_of self.old ++ (if result then x ∷ [] else []) }
    {
        slots::put(&mut self.slots, &mut self.marks, x)
    }

    // The oldest item, which leaves the queue, or none where it is empty.
    pub fn pop(&mut self) -> Option<T>
        ensures answer { result ≡ first (items_of self.old) }
        ensures after { items_of self.new ≡ rest (items_of self.old) }
    {
        slots::take(&self.slots, &mut self.marks)
    }

    // Lets every item go.
    pub fn clear(&mut self)
        ensures { items_of self.new ≡ [] }
    {
        self.marks = Ring::EMPTY;
    }

    // The items, oldest first: those of the first slice, then those of the second. There are at most N.
    pub fn as_slices(&self) -> (&[T], &[T])
        ensures items { result.0.now ++ result.1.now ≡ items_of self.now }
        ensures few { length (items_of self.now) ≤ N }
    {
        slots::as_slices(&self.slots, &self.marks)
    }
}
