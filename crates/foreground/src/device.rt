// The terminal's device, and POSIX's calls on it.
ghost use Rattle.std.specs.Prelude.{◌≡◌};
ghost use Rattle.foreground.specs.View.{tty_of};
ghost use Rattle.foreground.specs.Posix as Posix;

use crate::disposition::{Disposition, Handling};
use crate::group::Group;
use crate::session::Session;
use host::fault::Fault;

// The group is not in the session (EPERM).
pub(crate) const NOT_PERMITTED: Fault = Fault { code: 1 };

// The group has no process (ESRCH).
const NO_PROCESS: Fault = Fault { code: 3 };

#[derive(Drop)]
pub(crate) struct Device {
    pub(crate) foreground: Option<Group>,
    pub(crate) settings: u32,
    pub(crate) session: Session,
}

impl Device {
    // Whether a write stops the caller, which is in this group: whether it is sent signal 22, since it is in the background and
    // doesn't ignore that.
    fn stops(&self, own: Group, disposition: Disposition) -> bool
        ensures { result ≡ Posix.is_stopped (tty_of own disposition self.now) }
    {
        disposition.handling != Handling::Ignored
            && !self
                .foreground
                .is_some_and(|group| group.number == own.number)
    }

    pub(crate) fn tcgetpgrp(&self) -> Option<Group>
        ensures { result ≡ self.now.foreground }
    {
        self.foreground
    }

    pub(crate) fn tcgetattr(&self) -> u32
        ensures { result ≡ self.now.settings }
    {
        self.settings
    }

    pub(crate) fn tcsetpgrp(
        &mut self,
        own: Group,
        disposition: Disposition,
        group: Group,
    ) -> Result<(), Fault>
        ensures { let tty = tty_of own disposition in
            (result, tty self.new) ≡ Posix.tcsetpgrp group.number (tty self.old) }
    {
        if self.stops(own, disposition) {
            return Err(Fault::INTERRUPTED);
        }
        if !self.session.has(group) {
            return Err(NOT_PERMITTED);
        }
        self.foreground = Some(group);
        Ok(())
    }

    pub(crate) fn tcsetattr(
        &mut self,
        own: Group,
        disposition: Disposition,
        settings: u32,
    ) -> Result<(), Fault>
        ensures { let tty = tty_of own disposition in
            (result, tty self.new) ≡ Posix.tcsetattr settings (tty self.old) }
    {
        if self.stops(own, disposition) {
            return Err(Fault::INTERRUPTED);
        }
        self.settings = settings;
        Ok(())
    }

    // Sends signal 18 to a group (`killpg` with SIGCONT).
    pub(crate) fn continue_group(&self, group: Group) -> Result<(), Fault>
        ensures { result ≡ Posix.continue_group group.number self.now.session.places }
    {
        if !self.session.has_process(group) {
            return Err(NO_PROCESS);
        }
        Ok(())
    }
}
