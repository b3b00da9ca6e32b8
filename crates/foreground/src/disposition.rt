// What the supervisor's process does with signal 22 (SIGTTOU), which a terminal sends for a write from the background.
ghost use Rattle.std.specs.Prelude.{◌≡◌};

use std::mem;

// What is done with a signal.
#[derive(Clone, Copy, Debug, PartialEq, Eq)]
pub enum Handling {
    // Signal 22 stops the process.
    Default,
    Ignored,
    // A function of the process's own is called.
    Caught,
}

// The disposition of signal 22, as `sigaction` sets and saves it.
#[derive(Clone, Copy)]
pub(crate) struct Disposition {
    pub(crate) handling: Handling,
}

// While it lives, signal 22 is ignored. Its end puts the former disposition back, on every way out of the function that made it.
pub(crate) struct Ignoring<'a> {
    pub(crate) disposition: &'a mut Disposition,
    former: Disposition,
}

impl<'a> Ignoring<'a> {
    pub(crate) fn new(disposition: &'a mut Disposition) -> Self
        ensures same_reference { result.disposition.ghost_name ≡ disposition.entry.ghost_name }
        ensures ignored { result.disposition.now ≡ record { handling = Handling.Ignored } }
        ensures former { result.former ≡ disposition.old }
    {
        let ignored = Disposition {
            handling: Handling::Ignored,
        };
        let former = mem::replace(disposition, ignored);
        Ignoring {
            disposition,
            former,
        }
    }
}

impl Drop for Ignoring<'_> {
    fn drop(self)
        ensures { self.exit.0.now ≡ self.entry.former }
    {
        let Ignoring {
            disposition,
            former,
        } = self;
        *disposition = former;
    }
}
