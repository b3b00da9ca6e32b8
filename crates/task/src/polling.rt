// The poll of the child: what it finds, and the restart that follows an end.
ghost use Rattle.std.specs.Prelude.{◌≡◌, Some, Ok};
ghost use Rattle.task.specs.Performs.{Performs, PerformsPart, HasRoom, task_of};
ghost use Rattle.task.specs.Task as Tree;

use crate::step::Step;
use crate::task::PollOutcome;
use host::process::Host;
use host::state::{CommandState, ProcessEnd};
use host::terminal::Terminal;

impl<H: Host, T: Terminal> Step<'_, H, T> {
    // Once the child has ended: starts another one, if a restart is remembered.
    fn follow(&mut self, restart: bool) -> PollOutcome
        requires { HasRoom 3 self.old }
        ensures { PerformsPart H.Host T.Terminal 3 (Tree.follow restart self.old.time)
            self.old result self.new }
    {
        if !restart {
            return PollOutcome::Over;
        }
        let launched = self.launch();
        self.report(launched);
        if launched.is_ok() {
            PollOutcome::Renewed
        } else {
            PollOutcome::Over
        }
    }

    // What a poll of the running child found: it goes on, or it has ended, which is then its state.
    fn after_poll(&mut self, restart: bool, started: u64, end: Option<ProcessEnd>) -> PollOutcome
        requires { HasRoom 4 self.old }
        ensures { Performs H.Host T.Terminal 4 (Tree.after_poll restart started self.old.time
            (task_of self.old) (Ok end)) self.old (task_of self.new, result) self.new }
    {
        let Some(end) = end else {
            return PollOutcome::Idle;
        };
        self.task.finish(end, started, self.time);
        self.yield_foreground();
        self.follow(restart)
    }

    // Polls the child, if one runs; `restart` says whether a restart is remembered.
    pub(crate) fn poll_child(&mut self, restart: bool) -> PollOutcome
        requires { HasRoom 5 self.old }
        ensures { PerformsPart H.Host T.Terminal 5 (Tree.poll_child restart self.old.time)
            self.old result self.new }
    {
        let CommandState::Running { child, started } = self.task.state else {
            return PollOutcome::Idle;
        };
        match self.poll(child) {
            Ok(end) => self.after_poll(restart, started, end),
            Err(fault) => {
                self.report(Err(fault));
                PollOutcome::Faulted
            }
        }
    }
}
