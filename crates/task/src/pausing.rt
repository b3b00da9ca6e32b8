// Pauses: what is done when a signal has stopped or continued the child.
ghost use Rattle.std.specs.Prelude.{◌≡◌};
ghost use Rattle.task.specs.Performs.{PerformsPart, PerformsChange, HasRoom};
ghost use Rattle.task.specs.Task as Tree;

use crate::step::Step;
use host::process::Host;
use host::state::CommandState;
use host::terminal::Terminal;

// The signal that continues a child.
const CONT: u8 = 18;

// The signals that stop a child that reads or writes the terminal from the background.
const TTIN: u8 = 21;

const TTOU: u8 = 22;

// Whether the foreground is the terminal's own group's or the child's, and so may be granted to the child.
fn is_ours(own: u32, child: u32, group: Option<u32>) -> bool
    ensures { result ≡ Tree.is_ours own child group }
{
    group.is_some_and(|group| group == own || group == child)
}

impl<H: Host, T: Terminal> Step<'_, H, T> {
    // Tries to get a grant for the child's group, which has the child's number; `own` is the terminal's own group.
    fn try_grant(&mut self, own: u32, child: u32)
        requires { HasRoom 2 self.old }
        ensures { PerformsChange H.Host T.Terminal 2 (Tree.try_grant own child) self.old self.new }
    {
        let group = self.owner();
        if !is_ours(own, child, group) {
            return;
        }
        if self.acquire(child).is_ok() {
            self.task.foreground.grant = true;
        }
    }

    // Continues the child that a signal has stopped; it stays paused by it where that faults.
    fn continue_child(&mut self, child: u32, signal: u8)
        requires { HasRoom 1 self.old }
        ensures { PerformsChange H.Host T.Terminal 1 (Tree.continue_child child signal)
            self.old self.new }
    {
        match self.cont(child) {
            Ok(()) => self.task.foreground.paused = None,
            Err(_) => self.task.foreground.paused = Some(signal),
        }
    }

    // Takes a signal that has stopped or continued the child.
    fn take_pause(&mut self, own: u32, child: u32, signal: u8)
        requires { HasRoom 3 self.old }
        ensures { PerformsChange H.Host T.Terminal 3 (Tree.take_pause own child signal)
            self.old self.new }
    {
        let wanted = self.task.command.wants_grant();
        let held = self.task.foreground.grant;
        match signal {
            CONT if wanted && !held => {
                self.task.foreground.paused = None;
                self.try_grant(own, child);
            }
            CONT => self.task.foreground.paused = None,
            TTIN | TTOU if wanted && !held => {
                self.try_grant(own, child);
                self.continue_child(child, signal);
            }
            TTIN | TTOU if wanted => self.continue_child(child, signal),
            TTIN | TTOU => self.task.foreground.paused = Some(signal),
            _ if held => {
                self.release();
                self.task.foreground.grant = false;
                self.task.foreground.paused = Some(signal);
            }
            _ => self.task.foreground.paused = Some(signal),
        }
    }

    // Takes the oldest pause, while a child runs; answers its signal.
    pub(crate) fn pause(&mut self, own: u32) -> Option<u8>
        requires { HasRoom 3 self.old }
        ensures { PerformsPart H.Host T.Terminal 3 (Tree.pause own) self.old result self.new }
    {
        let CommandState::Running { child, .. } = self.task.state else {
            return None;
        };
        let signal = self.task.foreground.pauses.pop()?;
        self.take_pause(own, child, signal);
        Some(signal)
    }
}
