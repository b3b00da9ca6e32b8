// A child of the simulated host, and how it ends.
ghost use Rattle.std.specs.Prelude.{◌≡◌};
ghost use Rattle.host.specs.Books.{IsEnd};
ghost use Rattle.hosts.specs.Children.{process_end};

use crate::signals::Signal;
use host::state::ProcessEnd;

// How a child ended: by an exit code, or by a signal.
#[derive(Clone, Copy)]
pub enum End {
    Exited(u8),
    Signalled(Signal),
}

// An end is one that a process may have, so it is never `Continued`.
impl From<End> for ProcessEnd {
    ghost from_gives = { λ end e. (e ≡ process_end end) × IsEnd e };

    fn from(end: End) -> ProcessEnd {
        match end {
            End::Exited(code) => ProcessEnd::Exited(code),
            End::Signalled(signal) => ProcessEnd::Signalled(signal.number()),
        }
    }
}

// A child goes on, is stopped, or has ended.
#[derive(Clone, Copy, Default)]
pub enum Life {
    #[default]
    Going,
    Stopped,
    Ended(End),
}

// A default one fills each place of a list that no child has.
#[derive(Clone, Copy, Default)]
pub struct Child {
    pub number: u32,
    pub life: Life,
}
