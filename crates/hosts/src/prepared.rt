// The host that answers from a sheet of prepared answers.
ghost use Rattle.std.specs.Prelude.{◌≡◌, if◌then◌else◌};
ghost use Rattle.hosts.specs.Prepared.{Did, answer_about, book_of, fresh_host, is_child, next_answer, take_answer, view};
ghost use Rattle.hosts.specs.PreparedBook.{bounded, keeps_so};

use crate::numbers::FromNumber;
use host::command::SpawnOptions;
use host::fault::Fault;
use host::process::Host;
use host::state::{CommandState, ProcessEnd};
use std::convert::AsSlice;
use std::num::Wrapping;

// The most children that there may be.
const MOST: usize = 1;

// The sheet of answers, which are written as in the journal, and the place of the next one. The sheet is a `&[i64]`, or another
// type that lends such a slice.
#[derive(Drop)]
pub struct PreparedHost<A> {
    answers: A,
    place: usize,
    child: Option<u32>,
    served: Wrapping<u64>,
    spawns: Wrapping<u64>,
}

impl<A: AsSlice<i64> + Drop> PreparedHost<A> {
    pub fn new(answers: A) -> Self
        ensures { view A.items result ≡ fresh_host (A.items answers) }
    {
        PreparedHost {
            answers,
            place: 0,
            child: None,
            served: Wrapping(0),
            spawns: Wrapping(0),
        }
    }

    // How many answers were taken.
    pub fn place(&self) -> usize
        ensures { result ≡ (view A.items self.now).place }
    {
        self.place
    }

    // Takes the next answer; one that doesn't fit is used up.
    fn take<T: FromNumber>(&mut self) -> Result<T, Fault>
        ensures answer { result ≡ next_answer T.value_of (view A.items self.old) }
        ensures after { view A.items self.new ≡ take_answer (view A.items self.old) }
    {
        let Some(&number) = self.answers.as_slice().get(self.place) else {
            return Err(Fault::NO_ANSWER);
        };
        self.place += 1;
        match number {
            0.. => T::from_number(number as u64).ok_or(Fault::INVALID),
            -4095..=-1 => Err(Fault {
                code: number.unsigned_abs() as u16,
            }),
            _ => Err(Fault::INVALID),
        }
    }

    // Takes the answer to a call that names a child, which has to be on the roster.
    fn take_for<T: FromNumber>(&mut self, child: u32) -> Result<T, Fault>
        ensures answer { result ≡ answer_about child T.value_of (view A.items self.old) }
        ensures after { let s = view A.items self.old in
            view A.items self.new ≡ (if is_child child s.child then take_answer s else s) }
    {
        if self.child != Some(child) {
            return Err(Fault::NO_CHILD);
        }
        self.take()
    }
}

impl<A: AsSlice<i64> + Drop> Host for PreparedHost<A> {
    const MOST: usize = MOST;

    ghost most = { 1 };

    ghost book = { λ h. book_of (view A.items h) };

    ghost did = { Did A.items };

    ghost keeps = { λ h c a k did. keeps_so (view A.items h) c a (view A.items k) did };

    ghost bounded = { λ h. bounded h.child };

    fn capacity() -> usize {
        MOST
    }

    #[tactic(auto, using(crate::specs::PreparedBook::len_of_roster))]
    fn is_full(&self) -> bool {
        self.child.is_some()
    }

    fn spawn(
        &mut self,
        _program: u8,
        _options: SpawnOptions,
        _way: u8,
        _time: u64,
    ) -> Result<u32, Fault> {
        self.served += 1;
        self.spawns += 1;
        if self.child.is_some() {
            return Err(Fault::NO_ROOM);
        }
        let child = self.take()?;
        self.child = Some(child);
        Ok(child)
    }

    fn poll(&mut self, child: u32) -> Result<Option<ProcessEnd>, Fault> {
        self.served += 1;
        let end: Option<ProcessEnd> = self.take_for(child)?;
        if end.is_some() {
            self.child = None;
        }
        Ok(end)
    }

    fn wait(&mut self, child: u32) -> Result<ProcessEnd, Fault> {
        self.served += 1;
        let end = self.take_for(child)?;
        self.child = None;
        Ok(end)
    }

    fn kill(&mut self, child: u32) -> Result<(), Fault> {
        self.served += 1;
        self.take_for(child)
    }

    fn signal(&mut self, child: u32, _signal: u8) -> Result<(), Fault> {
        self.served += 1;
        self.take_for(child)
    }

    fn cont(&mut self, child: u32) -> Result<(), Fault> {
        self.served += 1;
        self.take_for(child)
    }

    fn let_go(&mut self, child: u32) {
        self.served += 1;
        if self.child == Some(child) {
            self.child = None;
        }
    }

    fn hook(
        &mut self,
        _number: u8,
        _state: CommandState,
        _previous: Option<CommandState>,
    ) -> Result<SpawnOptions, Fault> {
        self.served += 1;
        self.take()
    }

    fn routine(
        &mut self,
        _number: u8,
        _state: CommandState,
        _previous: Option<CommandState>,
    ) -> Result<(), Fault> {
        self.served += 1;
        self.take()
    }

    fn tell(&mut self, _handler: u8, _fault: Fault) -> Result<(), Fault> {
        self.served += 1;
        self.take()
    }
}

#[cfg(test)]
mod tests;
