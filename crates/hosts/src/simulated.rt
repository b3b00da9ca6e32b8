// The simulated host: its children are entries in a list, and do what they are told.
ghost use Rattle.std.specs.Prelude.{◌≡◌};
ghost use Rattle.host.specs.Calls as Calls;
ghost use Rattle.hosts.specs.Children.{is_living, life_of};
ghost use Rattle.hosts.specs.Simulated.{Did, state_after, answer, book_of, fresh_host, make_happen, view};
ghost use Rattle.hosts.specs.Book;

use crate::child::{End, Life};
use crate::children::{Children, MOST};
use crate::signals::{CONT, KILL, NoSignal, Signal};
use host::command::SpawnOptions;
use host::fault::Fault;
use host::process::Host;
use host::state::{CommandState, ProcessEnd};
use std::num::Wrapping;

// Bit s of the mask says that the children ignore signal s, if it can be ignored; the options are the command's.
#[derive(Drop)]
pub struct SimulatedHost {
    children: Children,
    mask: u32,
    options: SpawnOptions,
    served: Wrapping<u64>,
    spawns: Wrapping<u64>,
}

impl SimulatedHost {
    pub fn new(mask: u32, options: SpawnOptions) -> Self
        ensures { view result ≡ fresh_host mask options }
    {
        SimulatedHost {
            children: Children::new(),
            mask,
            options,
            served: Wrapping(0),
            spawns: Wrapping(0),
        }
    }

    fn send(&mut self, child: u32, signal: u8) -> Result<(), Fault>
        ensures answer { result ≡ answer (view self.old) (Calls.signal child signal) }
        ensures after { view self.new ≡ state_after (view self.old) (Calls.signal child signal) }
    {
        self.served += 1;
        // Not `ok_or(..)?`: with it, the checker makes a proof about borrows that it then refuses.
        let Some(life) = self.children.life(child) else {
            return Err(Fault::NO_CHILD);
        };
        match Signal::try_from(signal) {
            Ok(signal) => self.children.put(child, life.delivered(self.mask, signal)),
            Err(NoSignal::Null) => {}
            Err(NoSignal::Unknown) => return Err(Fault::INVALID),
        }
        Ok(())
    }

    // A living child ends by itself, and true is answered; else nothing changes. Not counted as a call.
    pub fn exit(&mut self, child: u32, code: u8) -> bool
        ensures answer { result ≡ is_living (life_of child (view self.old).children) }
        ensures after { view self.new ≡
            make_happen child (Life.Ended (End.Exited code)) (view self.old) }
    {
        self.children
            .put_living(child, Life::Ended(End::Exited(code)))
    }

    // A living child stops by itself, and true is answered; else nothing changes. Not counted as a call.
    pub fn stop(&mut self, child: u32) -> bool
        ensures answer { result ≡ is_living (life_of child (view self.old).children) }
        ensures after { view self.new ≡ make_happen child Life.Stopped (view self.old) }
    {
        self.children.put_living(child, Life::Stopped)
    }
}

impl Host for SimulatedHost {
    const MOST: usize = MOST;

    ghost most = { 16 };

    ghost book = { λ h. book_of (view h) };

    ghost did = { Did };

    ghost keeps = { λ h c a k did. Book.keeps_so h c a (view k) did };

    ghost bounded = { Book.bounded };

    fn capacity() -> usize {
        Self::MOST
    }

    fn is_full(&self) -> bool {
        self.children.is_full()
    }

    fn spawn(
        &mut self,
        _program: u8,
        _options: SpawnOptions,
        _way: u8,
        _time: u64,
    ) -> Result<u32, Fault> {
        self.served += 1;
        self.spawns += 1;
        self.children.add().ok_or(Fault::NO_ROOM)
    }

    fn poll(&mut self, child: u32) -> Result<Option<ProcessEnd>, Fault> {
        self.served += 1;
        match self.children.report(child) {
            None => Err(Fault::NO_CHILD),
            Some(Life::Going | Life::Stopped) => Ok(None),
            Some(Life::Ended(end)) => Ok(Some(end.into())),
        }
    }

    fn wait(&mut self, child: u32) -> Result<ProcessEnd, Fault> {
        self.poll(child)?.ok_or(Fault::INTERRUPTED)
    }

    fn kill(&mut self, child: u32) -> Result<(), Fault> {
        self.send(child, KILL)
    }

    fn signal(&mut self, child: u32, signal: u8) -> Result<(), Fault> {
        self.send(child, signal)
    }

    fn cont(&mut self, child: u32) -> Result<(), Fault> {
        self.send(child, CONT)
    }

    fn let_go(&mut self, child: u32) {
        self.served += 1;
        self.children.remove(child);
    }

    fn hook(
        &mut self,
        _number: u8,
        _state: CommandState,
        _previous: Option<CommandState>,
    ) -> Result<SpawnOptions, Fault> {
        self.served += 1;
        Ok(self.options)
    }

    fn routine(
        &mut self,
        _number: u8,
        _state: CommandState,
        _previous: Option<CommandState>,
    ) -> Result<(), Fault> {
        self.served += 1;
        Ok(())
    }

    fn tell(&mut self, _handler: u8, _fault: Fault) -> Result<(), Fault> {
        self.served += 1;
        Ok(())
    }
}

#[cfg(test)]
mod tests;
