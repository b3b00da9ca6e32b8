// The children of the simulated host.
ghost use Rattle.std.specs.Prelude.{◌≢◌, ◌^◌, ◌<◌, ◌≤◌, length, All, AllPairs};

use crate::child::{Child, Life};
use arrayvec::ArrayVec;

// The most children that there may be.
pub const MOST: usize = 16;

// Every child's number is below it.
const LIMIT: u32 = 1 << 31;

// The children in the order of their spawns, and the number of the next one.
#[derive(Drop)]
pub struct Children {
    list: ArrayVec<Child, MOST>,
    next: u32,
    ghost few: { length list.items ≤ 16 },
    ghost begun: { 100 ≤ next },
    ghost within: { next ≤ 2 ^ 31 },
    ghost below: { All (λ c. c.number < next) list.items },
    ghost distinct: { AllPairs (λ c d. c.number ≢ d.number) list.items },
}

impl Children {
    ghost use Rattle.std.specs.Prelude.{◌≡◌, ◌+◌, [], ◌∷◌, ◌++◌, ◌==◌, find, option_copied, position, if◌then◌else◌, Some, None, nat_le};
    ghost use Rattle.std.specs.FinSet as set;
    ghost use Rattle.hosts.specs.Children.{after_report, child, children_without, contents_of, has_room, is_living, items, life_of, roster_of, with_life, with_living};

    pub(crate) fn new() -> Self
        ensures { contents_of result ≡ ([], 100) }
    {
        Children {
            list: ArrayVec::new(),
            next: 100,
        }
    }

    #[tactic(auto, using(crate::specs::Rosters::len_of_roster))]
    pub(crate) fn is_full(&self) -> bool
        ensures { result ≡ nat_le 16 (set.len (roster_of (items self.now))) }
    {
        self.list.is_full()
    }

    fn place(&self, number: u32) -> Option<usize>
        ensures { result ≡ position (λ c. number == c.number) (items self.now) }
    {
        self.list.iter().position(|child| child.number == number)
    }

    // The life of a child; none where there is no such child.
    pub(crate) fn life(&self, number: u32) -> Option<Life>
        ensures { result ≡ life_of number (items self.now) }
    {
        self.list
            .iter()
            .find(|child| child.number == number)
            .map(|child| child.life)
    }

    // Adds a going child with the next number; none where there is no room or no number left.
    pub(crate) fn add(&mut self) -> Option<u32>
        ensures answer { result ≡
            (if has_room self.old.next (items self.old) then Some self.old.next else None) }
        ensures after { contents_of self.new ≡
            (if has_room self.old.next (items self.old)
            then (items self.old ++ child self.old.next Life.Going ∷ [], self.old.next + 1)
            else contents_of self.old) }
    {
        let number = self.next;
        if self.list.is_full() || number >= LIMIT {
            return None;
        }
        self.list.push(Child {
            number,
            life: Life::Going,
        });
        self.next = number + 1;
        Some(number)
    }

    // Gives a child a life; nothing changes where there is no such child.
    pub(crate) fn put(&mut self, number: u32, life: Life)
        ensures { contents_of self.new ≡ (with_life number life (items self.old), self.old.next) }
    {
        if let Some(at) = self.place(number) {
            self.list[at] = Child { number, life };
        }
    }

    // Takes a child off; nothing changes where there is no such child.
    pub(crate) fn remove(&mut self, number: u32)
        ensures { contents_of self.new ≡ (children_without number (items self.old), self.old.next) }
    {
        self.list.retain(|child| child.number != number);
    }

    // Gives a living child a life, and answers whether it was living; else nothing changes.
    pub(crate) fn put_living(&mut self, number: u32, life: Life) -> bool
        ensures answer { result ≡ is_living (life_of number (items self.old)) }
        ensures after { contents_of self.new ≡
            (with_living number life (items self.old), self.old.next) }
    {
        let is_living = matches!(self.life(number), Some(Life::Going | Life::Stopped));
        if is_living {
            self.put(number, life);
        }
        is_living
    }

    // The life of a child; one that has ended is taken off, since its end is reported once.
    pub(crate) fn report(&mut self, number: u32) -> Option<Life>
        ensures life { result ≡ life_of number (items self.old) }
        ensures after { contents_of self.new ≡
            (after_report number result (items self.old), self.old.next) }
    {
        let life = self.life(number);
        if let Some(Life::Ended(_)) = life {
            self.remove(number);
        }
        life
    }
}
