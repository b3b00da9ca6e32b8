// The supervisor's process at its terminal: what it writes there, it writes with signal 22 ignored.
ghost use Rattle.std.specs.Prelude.{◌≡◌};
ghost use Rattle.foreground.specs.View.{tty};
ghost use Rattle.foreground.specs.Moves.{give, with_ignored, restore, take_back};
ghost use Rattle.foreground.specs.Posix as Posix;

use crate::device::Device;
use crate::disposition::{Disposition, Ignoring};
use crate::group::Group;
use host::fault::Fault;

// The group and the disposition are the process's.
#[derive(Drop)]
pub(crate) struct Console {
    pub(crate) own: Group,
    pub(crate) disposition: Disposition,
    pub(crate) device: Device,
}

impl Console {
    fn move_to(&mut self, group: Group) -> Result<(), Fault>
        ensures { (result, tty self.new)
            ≡ with_ignored (Posix.tcsetpgrp group.number) (tty self.old) }
    {
        let ignoring = Ignoring::new(&mut self.disposition);
        self.device
            .tcsetpgrp(self.own, *ignoring.disposition, group)
    }

    // Moves the foreground to the own group; where that fails it stays, since nothing can be done about it.
    pub(crate) fn take_back(&mut self)
        ensures { tty self.new ≡ take_back (tty self.old) }
    {
        let _ = self.move_to(self.own);
    }

    pub(crate) fn restore(&mut self, settings: u32)
        ensures { tty self.new ≡ restore settings (tty self.old) }
    {
        let ignoring = Ignoring::new(&mut self.disposition);
        let _ = self
            .device
            .tcsetattr(self.own, *ignoring.disposition, settings);
    }

    // Gives a group the foreground and continues it; where it has no process, the foreground is taken back.
    pub(crate) fn give(&mut self, group: Group) -> Result<(), Fault>
        ensures { (result, tty self.new) ≡ give group.number (tty self.old) }
    {
        self.move_to(group)?;
        if let Err(fault) = self.device.continue_group(group) {
            self.take_back();
            return Err(fault);
        }
        Ok(())
    }
}
