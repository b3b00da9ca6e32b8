// The host of a job's child processes.
ghost use Rattle.std.specs.Prelude.{◌≡◌, ℕ, ◌≤◌, nat_le};
ghost use Rattle.std.specs.FinSet as set;
ghost use Rattle.host.specs.Calls.{HostCall, HostReply};
ghost use Rattle.host.specs.Calls as Calls;
ghost use Rattle.host.specs.Books.{HostBook, HostKeeps};

use crate::command::SpawnOptions;
use crate::fault::Fault;
use crate::state::{CommandState, ProcessEnd};

// Each call may fault, but for `let_go`.
pub trait Host {
    // The most children that the roster can hold.
    const MOST: usize;

    ghost most: { ℕ };

    ghost book: { Self → HostBook };

    // Holds of the host before a call, the call with its arguments, its answer, and the host after it.
    ghost did: { Self → (c : HostCall) → HostReply c → Self → Type 0 };

    // The number that clauses call `most`. They don't name the constant itself, since an impl with
    // a lifetime of its own couldn't give it then.
    fn capacity() -> usize
        ensures { result ≡ most };

    // Whether the roster is full; not counted as a call.
    fn is_full(&self) -> bool
        ensures { result ≡ nat_le most (set.len (book self.now).roster) };

    // The options may be a hook's, so they come beside the program: a `Command` is what a job manages.
    fn spawn(
        &mut self,
        program: u8,
        options: SpawnOptions,
        way: u8,
        time: u64,
    ) -> Result<u32, Fault>
        ensures { did self.old (Calls.spawn program options way time) result self.new };

    fn poll(&mut self, child: u32) -> Result<Option<ProcessEnd>, Fault>
        ensures { did self.old (Calls.poll child) result self.new };

    fn wait(&mut self, child: u32) -> Result<ProcessEnd, Fault>
        ensures { did self.old (Calls.wait child) result self.new };

    fn kill(&mut self, child: u32) -> Result<(), Fault>
        ensures { did self.old (Calls.kill child) result self.new };

    fn signal(&mut self, child: u32, signal: u8) -> Result<(), Fault>
        ensures { did self.old (Calls.signal child signal) result self.new };

    fn cont(&mut self, child: u32) -> Result<(), Fault>
        ensures { did self.old (Calls.cont child) result self.new };

    fn let_go(&mut self, child: u32)
        ensures { did self.old (Calls.let_go child) tt self.new };

    // A hook and a routine are told the state and the previous one, as two arguments: a struct of them would be
    // made in one place and taken apart in each host.
    fn hook(
        &mut self,
        number: u8,
        state: CommandState,
        previous: Option<CommandState>,
    ) -> Result<SpawnOptions, Fault>
        ensures { did self.old (Calls.hook number state previous) result self.new };

    fn routine(
        &mut self,
        number: u8,
        state: CommandState,
        previous: Option<CommandState>,
    ) -> Result<(), Fault>
        ensures { did self.old (Calls.routine number state previous) result self.new };

    fn tell(&mut self, handler: u8, fault: Fault) -> Result<(), Fault>
        ensures { did self.old (Calls.tell handler fault) result self.new };

    ghost keeps: { (h : Self) (c : HostCall) (a : HostReply c) (k : Self)
        → did h c a k → HostKeeps most (book h) c a (book k) };

    ghost bounded: { (h : Self) → set.len (book h).roster ≤ most };
}
