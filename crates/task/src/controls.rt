// The controls: what each does to the task, on a host and a terminal, and what becomes of its ticket.
ghost use Rattle.std.specs.Prelude.{◌≡◌};
ghost use Rattle.task.specs.Performs.{HasRoom, PerformsChange, PerformsPart, task_of};
ghost use Rattle.task.specs.Task as Tree;

use crate::messages::{Control, GraceEnd};
use crate::step::Step;
use crate::task::{Outcome, Settings};
use host::fault::Fault;
use host::process::Host;
use host::state::CommandState;
use host::terminal::Terminal;

impl Outcome {
    // The outcome of a part: this one where it was done; one that faulted settles the ticket.
    fn unless_faulted(self, part: Result<(), Fault>) -> Outcome
        ensures { result ≡ Tree.unless_faulted self part }
    {
        match part {
            Ok(()) => self,
            Err(_) => Outcome::Settled,
        }
    }
}

// A signal of 0 is sent as 15.
fn sent_as(signal: u8) -> u8
    ensures { result ≡ Tree.number_sent signal }
{
    if signal == 0 { 15 } else { signal }
}

impl<H: Host, T: Terminal> Step<'_, H, T> {
    // Starts a child; the outcome is the same where that faults.
    fn begin(&mut self, outcome: Outcome) -> Outcome
        requires { HasRoom 3 self.old }
        ensures { PerformsPart H.Host T.Terminal 3 (Tree.begin self.old.time outcome)
            self.old result self.new }
    {
        let launched = self.launch();
        self.report(launched);
        outcome
    }

    // Sees to the pause and the terminal before the child is ended.
    fn make_way(&mut self)
        requires { HasRoom 2 self.old }
        ensures { PerformsChange H.Host T.Terminal 2 Tree.make_way self.old self.new }
    {
        self.resume();
        self.yield_foreground();
    }

    // Ends the child by force and starts another one.
    fn replace(&mut self, child: u32, started: u64) -> Outcome
        requires { HasRoom 5 self.old }
        ensures { PerformsPart H.Host T.Terminal 5 (Tree.replace child started self.old.time)
            self.old result self.new }
    {
        let forced = self.end_by_force(child, started);
        self.report(forced);
        match forced {
            Ok(()) => self.begin(Outcome::Ended),
            Err(_) => Outcome::Settled,
        }
    }

    // Starts the command if no child runs.
    fn start(&mut self) -> Outcome
        requires { HasRoom 3 self.old }
        ensures { PerformsPart H.Host T.Terminal 3 (Tree.control Control.Start self.old.time)
            self.old result self.new }
    {
        if self.task.state.is_running() {
            return Outcome::Settled;
        }
        self.begin(Outcome::Settled)
    }

    // Ends the child by force, if one runs; the pause and the terminal were seen to.
    fn stop_child(&mut self) -> Outcome
        requires { HasRoom 3 self.old }
        ensures { PerformsPart H.Host T.Terminal 3
            (Tree.stop_in (task_of self.old).state self.old.time) self.old result self.new }
    {
        let CommandState::Running { child, started } = self.task.state else {
            return Outcome::Settled;
        };
        let forced = self.end_by_force(child, started);
        self.report(forced);
        Outcome::Ended.unless_faulted(forced)
    }

    // Ends the child by force, if one runs.
    fn stop(&mut self) -> Outcome
        requires { HasRoom 5 self.old }
        ensures { PerformsPart H.Host T.Terminal 5 (Tree.control Control.Stop self.old.time)
            self.old result self.new }
    {
        self.make_way();
        self.stop_child()
    }

    // Replaces the child, if one runs.
    fn try_restart(&mut self) -> Outcome
        requires { HasRoom 7 self.old }
        ensures { PerformsPart H.Host T.Terminal 7 (Tree.control Control.TryRestart self.old.time)
            self.old result self.new }
    {
        self.make_way();
        let CommandState::Running { child, started } = self.task.state else {
            return Outcome::Settled;
        };
        self.replace(child, started)
    }

    // Replaces the child, if one runs, and starts one otherwise.
    fn continue_restart(&mut self) -> Outcome
        requires { HasRoom 7 self.old }
        ensures { PerformsPart H.Host T.Terminal 7 (Tree.control Control.ContinueTryGracefulRestart
            self.old.time) self.old result self.new }
    {
        self.make_way();
        let CommandState::Running { child, started } = self.task.state else {
            return self.begin(Outcome::Settled);
        };
        self.replace(child, started)
    }

    // Sends the child a signal, if one runs; `sent` is the outcome where the host takes it.
    fn signal_child(&mut self, signal: u8, sent: Outcome) -> Outcome
        requires { HasRoom 2 self.old }
        ensures { PerformsPart H.Host T.Terminal 2
            (Tree.signal_in (task_of self.old).state signal sent) self.old result self.new }
    {
        let CommandState::Running { child, .. } = self.task.state else {
            return Outcome::Settled;
        };
        let signalled = self.signal(child, sent_as(signal));
        self.report(signalled);
        sent.unless_faulted(signalled)
    }

    // Asks the child to end, and leaves it a grace.
    fn end_gracefully(&mut self, signal: u8, grace: u32, end: GraceEnd) -> Outcome
        requires { HasRoom 3 self.old }
        ensures { PerformsPart H.Host T.Terminal 3 (Tree.end_gracefully signal grace end)
            self.old result self.new }
    {
        self.resume();
        self.signal_child(signal, Outcome::Graced { grace, end })
    }

    // Yields the terminal, and lets the child go, if one runs.
    fn delete(&mut self) -> Outcome
        requires { HasRoom 2 self.old }
        ensures { PerformsPart H.Host T.Terminal 2 (Tree.control Control.Delete self.old.time)
            self.old result self.new }
    {
        self.yield_foreground();
        if let CommandState::Running { child, .. } = self.task.state {
            self.let_go(child);
        }
        Outcome::Closes
    }

    // Waits for the child's end, if one runs.
    fn next_ending(&self) -> Outcome
        ensures { result ≡ Tree.joins (task_of self.now).state }
    {
        if self.task.state.is_running() {
            Outcome::Joined
        } else {
            Outcome::Settled
        }
    }

    // Runs a routine of the host; a fault is ignored.
    fn run_routine(&mut self, routine: u8) -> Outcome
        requires { HasRoom 1 self.old }
        ensures { PerformsPart H.Host T.Terminal 1
            (Tree.control (Control.Func routine) self.old.time) self.old result self.new }
    {
        let _ = self.routine(routine, self.task.state, self.task.previous);
        Outcome::Settled
    }

    // Changes the settings.
    fn set(&mut self, settings: Settings) -> Outcome
        ensures { PerformsPart H.Host T.Terminal 0 (Tree.with_settings settings)
            self.old result self.new }
    {
        self.task.settings = settings;
        Outcome::Settled
    }

    // Carries a control out. It is a message from a queue, and so no closure.
    pub(crate) fn carry_out(&mut self, control: Control) -> Outcome
        requires { HasRoom 7 self.old }
        ensures { PerformsPart H.Host T.Terminal 7 (Tree.control control self.old.time)
            self.old result self.new }
    {
        let settings = self.task.settings;
        match control {
            Control::Start => self.start(),
            Control::Stop => self.stop(),
            Control::GracefulStop { signal, grace } => {
                self.end_gracefully(signal, grace, GraceEnd::Stop)
            }
            Control::TryRestart => self.try_restart(),
            Control::TryGracefulRestart { signal, grace } => {
                self.end_gracefully(signal, grace, GraceEnd::Restart)
            }
            Control::ContinueTryGracefulRestart => self.continue_restart(),
            Control::Signal(signal) => self.signal_child(signal, Outcome::Settled),
            Control::Delete => self.delete(),
            Control::NextEnding => self.next_ending(),
            Control::Func(routine) => self.run_routine(routine),
            Control::SetErrorHandler(handler) => self.set(Settings {
                handler: Some(handler),
                ..settings
            }),
            Control::UnsetErrorHandler => self.set(Settings {
                handler: None,
                ..settings
            }),
            Control::SetSpawnHook(hook) => self.set(Settings {
                hook: Some(hook),
                ..settings
            }),
            Control::UnsetSpawnHook => self.set(Settings {
                hook: None,
                ..settings
            }),
            Control::SetSpawnFn(way) => self.set(Settings { way, ..settings }),
            Control::ClearSpawnFn => self.set(Settings { way: 0, ..settings }),
        }
    }
}
