// The parts that controls and the poll of the child are made of.
ghost use Rattle.std.specs.Prelude.{◌≡◌, Some};
ghost use Rattle.task.specs.Performs.{Performs, PerformsPart, PerformsChange, HasRoom, task_of};
ghost use Rattle.task.specs.Task as Tree;
ghost use Rattle.task.specs.View.{task_view};

use crate::messages::Control;
use crate::step::Step;
use crate::task::{Outcome, PollOutcome, Task};
use host::command::SpawnOptions;
use host::fault::Fault;
use host::process::Host;
use host::state::{CommandState, ProcessEnd};
use host::terminal::Terminal;

impl Task {
    // Makes the state Pending, as a launch begins, and keeps the run that was.
    fn reset(&mut self, time: u64)
        ensures { task_view self.new ≡ Tree.reset time (task_view self.old) }
    {
        self.previous = Some(self.state.reset(time));
    }

    // Takes the end of the child that ran since `started`.
    pub(crate) fn finish(&mut self, end: ProcessEnd, started: u64, finished: u64)
        ensures { task_view self.new ≡ Tree.in_state (CommandState.Finished end started finished)
            (task_view self.old) }
    {
        self.state = CommandState::Finished {
            end,
            started,
            finished,
        };
    }

    // Takes a spawned child as the one that runs.
    fn run_child(&mut self, child: u32, time: u64)
        ensures { task_view self.new ≡ Tree.run_child child time (task_view self.old) }
    {
        self.state = CommandState::Running {
            child,
            started: time,
        };
        self.foreground.paused = None;
        self.foreground.pauses.clear();
        self.foreground.watch = self.command.options.grant_foreground;
    }
}

// `HasRoom n` is no invariant of `Step`: each part needs room for a number of records of its own.
impl<H: Host, T: Terminal> Step<'_, H, T> {
    // Forgets a pause, and continues the child.
    pub(crate) fn resume(&mut self)
        requires { HasRoom 1 self.old }
        ensures { PerformsChange H.Host T.Terminal 1 Tree.resume self.old self.new }
    {
        let Some(_) = self.task.foreground.paused else {
            return;
        };
        self.task.foreground.paused = None;
        if let CommandState::Running { child, .. } = self.task.state {
            let _ = self.cont(child);
        }
    }

    // Ends the watch, and releases a held grant.
    pub(crate) fn yield_foreground(&mut self)
        requires { HasRoom 1 self.old }
        ensures { PerformsChange H.Host T.Terminal 1 Tree.yield self.old self.new }
    {
        self.task.foreground.watch = false;
        if self.task.foreground.grant {
            self.release();
            self.task.foreground.grant = false;
        }
    }

    // Kills the child and waits for its end, which is then the state.
    pub(crate) fn end_by_force(&mut self, child: u32, started: u64) -> Result<(), Fault>
        requires { HasRoom 2 self.old }
        ensures { PerformsPart H.Host T.Terminal 2 (Tree.end_by_force child started self.old.time)
            self.old result self.new }
    {
        self.kill(child)?;
        let end = self.wait(child)?;
        self.task.finish(end, started, self.time);
        Ok(())
    }

    // The options of a spawn: the hook's answer, or the command's.
    fn spawn_options(&mut self) -> SpawnOptions
        requires { HasRoom 1 self.old }
        ensures asked { Performs H.Host T.Terminal 1 (Tree.spawn_options (task_of self.old))
            self.old result self.new }
        ensures task { self.new.task.now ≡ self.old.task.now }
    {
        let options = self.task.command.options;
        match self.task.settings.hook {
            Some(hook) => self
                .hook(hook, self.task.state, self.task.previous)
                .unwrap_or(options),
            None => options,
        }
    }

    // Spawns the command anew.
    pub(crate) fn launch(&mut self) -> Result<(), Fault>
        requires { HasRoom 2 self.old }
        ensures { PerformsPart H.Host T.Terminal 2 (Tree.launch self.old.time)
            self.old result self.new }
    {
        let time = self.time;
        self.task.reset(time);
        let Task {
            command,
            settings,
            ..
        } = *self.task;
        let options = self.spawn_options();
        let child = self.spawn(command.program, options, settings.way, time)?;
        self.task.run_child(child, time);
        Ok(())
    }

    // Tells a fault to the error handler, if one is set.
    pub(crate) fn report(&mut self, outcome: Result<(), Fault>)
        requires { HasRoom 1 self.old }
        ensures told { Performs H.Host T.Terminal 1
            (Tree.tell_fault (task_of self.old).settings.handler outcome) self.old tt self.new }
        ensures task { self.new.task.now ≡ self.old.task.now }
    {
        if let (Some(handler), Err(fault)) = (self.task.settings.handler, outcome) {
            let _ = self.tell(handler, fault);
        }
    }
}
