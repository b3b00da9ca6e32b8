// The absent terminal: nobody has its foreground, and nobody gets it.
ghost use Rattle.std.specs.Prelude.{◌≡◌};
ghost use Rattle.std.proofs.Common.{rules};
ghost use Rattle.foreground.specs.Absent.{Did, answer, book_of, fresh_book};
ghost use Rattle.foreground.specs.AbsentBook.{keeps_book};

use host::fault::Fault;
use host::terminal::Terminal;
use std::num::Wrapping;

// How many calls were served.
#[derive(Drop)]
pub struct AbsentTerminal {
    served: Wrapping<u64>,
}

impl AbsentTerminal {
    pub fn new() -> Self
        ensures { book_of result ≡ fresh_book }
    {
        AbsentTerminal {
            served: Wrapping(0),
        }
    }
}

impl Terminal for AbsentTerminal {
    ghost book = { book_of };

    ghost did = { Did };

    ghost keeps = { λ t c a u d. rw (d.0, d.1) (keeps_book t c) };

    ghost sound = { Prim.search rules };

    fn own_group(&self) -> u32 {
        1
    }

    fn owner(&mut self) -> Option<u32> {
        self.served += 1;
        None
    }

    fn acquire(&mut self, _group: u32) -> Result<(), Fault> {
        self.served += 1;
        Err(Fault::NO_TERMINAL)
    }

    fn release(&mut self) {
        self.served += 1;
    }
}

#[cfg(test)]
mod tests {
    use super::*;

    #[test]
    fn nobody_gets_the_foreground(rt: HostRuntime) {
        let mut terminal = AbsentTerminal::new();
        assert_eq!(rt; terminal.own_group(), 1);
        assert_eq!(rt; terminal.owner(), None);
        assert_eq!(rt; terminal.acquire(100), Err(Fault { code: 6 }));
        terminal.release();
        assert_eq!(rt; terminal.served, Wrapping(3));
    }
}
