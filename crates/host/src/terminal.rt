// The terminal whose foreground a job may grant to its child.
ghost use Rattle.std.specs.Prelude.{◌≡◌};
ghost use Rattle.host.specs.Calls.{TerminalCall, TerminalReply};
ghost use Rattle.host.specs.Calls as Calls;
ghost use Rattle.host.specs.Books.{TerminalBook, TerminalKeeps, IsTerminal};

use crate::fault::Fault;

pub trait Terminal {
    ghost book: { Self → TerminalBook };

    // Holds of the terminal before a call, the call with its arguments, its answer, and the terminal after it.
    ghost did: { Self → (c : TerminalCall) → TerminalReply c → Self → Type 0 };

    // The process group of the supervisor itself; not counted as a call.
    fn own_group(&self) -> u32
        ensures { result ≡ (book self.now).own };

    // The group that has the foreground; none where there is no terminal.
    fn owner(&mut self) -> Option<u32>
        ensures { did self.old Calls.owner result self.new };

    // Gives the foreground to a group.
    fn acquire(&mut self, group: u32) -> Result<(), Fault>
        ensures { did self.old (Calls.acquire group) result self.new };

    // Takes the foreground back.
    fn release(&mut self)
        ensures { did self.old Calls.release tt self.new };

    ghost keeps: { (t : Self) (c : TerminalCall) (a : TerminalReply c) (u : Self)
        → did t c a u → TerminalKeeps (book t) c a (book u) };

    ghost sound: { (t : Self) → IsTerminal (book t) };
}
