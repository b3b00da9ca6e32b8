// The simulated terminal: a terminal's values, on which POSIX's calls are made.
ghost use Rattle.std.specs.Prelude.{◌≡◌, ◌≢◌, true, is_some, unwrap_or};
ghost use Rattle.std.specs.Option.{option_map};
ghost use Rattle.host.specs.Calls as Calls;
ghost use Rattle.host.specs.Fault.{fault};
ghost use Rattle.foreground.specs.Moves.{TakesBack};
ghost use Rattle.foreground.specs.Session.{put};
ghost use Rattle.foreground.specs.View.{number};
ghost use Rattle.foreground.specs.Simulated.{Did, book_of, count_call, fresh_terminal, view};
ghost use Rattle.foreground.specs.SimulatedBook;

use crate::console::Console;
use crate::device::{Device, NOT_PERMITTED};
use crate::disposition::{Disposition, Handling};
use crate::group::Group;
use crate::session::{Member, NoPlace, Session};
use host::fault::Fault;
use host::terminal::Terminal;
use std::num::Wrapping;

// A grant is open (EBUSY).
const BUSY: Fault = Fault { code: 16 };

// The saved settings are those that the open grant will restore; without a grant there are none.
#[derive(Drop)]
pub struct SimulatedTerminal {
    console: Console,
    saved: Option<u32>,
    served: Wrapping<u64>,
}

impl SimulatedTerminal {
    // The terminal of a supervisor whose process is in this group.
    pub fn new(own: Group) -> Self
        ensures { view result ≡ fresh_terminal own.number }
    {
        SimulatedTerminal {
            console: Console {
                own,
                disposition: Disposition {
                    handling: Handling::Default,
                },
                device: Device {
                    foreground: None,
                    settings: 0,
                    session: Session::new(),
                },
            },
            saved: None,
            served: Wrapping(0),
        }
    }

    pub fn set_foreground(&mut self, group: Option<Group>)
        ensures { let s = view self.old in
            let tty = record s.tty { foreground = option_map number group } in
            view self.new ≡ record s { tty = tty } }
    {
        self.console.device.foreground = group;
    }

    pub fn set_settings(&mut self, settings: u32)
        ensures { let s = view self.old in
            view self.new ≡ record s { tty = record s.tty { settings = settings } } }
    {
        self.console.device.settings = settings;
    }

    // Puts a group into a place of the session, or none; there are sixteen places, from 0 on.
    pub fn set_place(&mut self, place: usize, member: Option<Member>) -> Result<(), NoPlace>
        ensures answer { result ≡ (put place member (view self.old).tty.groups).0 }
        ensures after { let s = view self.old in
            let tty = record s.tty { groups = (put place member s.tty.groups).1 } in
            view self.new ≡ record s { tty = tty } }
    {
        self.console.device.session.put(place, member)
    }

    // What the supervisor's process does with signal 22.
    pub fn set_handling(&mut self, handling: Handling)
        ensures { let s = view self.old in
            view self.new ≡ record s { tty = record s.tty { handling = handling } } }
    {
        self.console.disposition.handling = handling;
    }
}

impl Terminal for SimulatedTerminal {
    ghost book = { λ t. book_of (view t) };

    ghost did = { Did };

    ghost keeps = { SimulatedBook.keeps_book };

    ghost sound = { SimulatedBook.sound };

    fn own_group(&self) -> u32 {
        self.console.own.number
    }

    fn owner(&mut self) -> Option<u32> {
        self.served += 1;
        self.console.device.tcgetpgrp().map(|group| group.number)
    }

    // Beside what the call does, its clauses say what that keeps, that no write is stopped (EINTR, 4), that a group outside the
    // session changes nothing, and that the foreground is taken back from an empty group.
    fn acquire(&mut self, group: u32) -> Result<(), Fault>
        ensures did { Did self.old (Calls.acquire group) result self.new }
        ensures same_handling { (view self.new).tty.handling ≡ (view self.old).tty.handling }
        ensures same_settings { (view self.new).tty.settings ≡ (view self.old).tty.settings }
        ensures never_stopped { result ≢ Err (fault 4) }
        ensures outside { result ≡ Err (fault 1) → view self.new ≡ count_call (view self.old) }
        ensures empty { result ≡ Err (fault 3) → TakesBack (view self.old).tty (view self.new).tty }
    {
        self.served += 1;
        if self.saved.is_some() {
            return Err(BUSY);
        }
        // A number that no group has is in no session.
        let Ok(group) = Group::try_from(group) else {
            return Err(NOT_PERMITTED);
        };
        let settings = self.console.device.tcgetattr();
        self.console.give(group)?;
        self.saved = Some(settings);
        Ok(())
    }

    // Beside what the call does, its clauses say what that keeps, and that saved settings are restored whatever fails.
    fn release(&mut self)
        ensures did { Did self.old Calls.release result self.new }
        ensures same_handling { (view self.new).tty.handling ≡ (view self.old).tty.handling }
        ensures settings { let s = view self.old in
            (view self.new).tty.settings ≡ unwrap_or s.saved s.tty.settings }
        ensures closed { (view self.new).saved ≡ None }
        ensures foreground { let s = view self.old in
            is_some s.saved ≡ true → TakesBack s.tty (view self.new).tty }
    {
        self.served += 1;
        if let Some(settings) = self.saved.take() {
            self.console.take_back();
            self.console.restore(settings);
        }
    }
}

#[cfg(test)]
mod tests;
