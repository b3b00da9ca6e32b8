// A control, a poll and a pause, with the host, the terminal and the sheet that their calls are recorded on.
ghost use Rattle.std.specs.Prelude.{ℕ};
ghost use Rattle.host.specs.Interaction.{Interaction, world};
ghost use Rattle.task.specs.Conducts.{Conducts};
ghost use Rattle.task.specs.Performs.{Performs, HasRoom, task_of};
ghost use Rattle.task.specs.Task as Tree;
ghost use Rattle.task.specs.Task.{TaskView};
ghost use Rattle.task.specs.View.{task_view};

use crate::messages::Control;
use crate::step::Step;
use crate::task::{Outcome, PollOutcome, Task};
use host::journal::Record;
use host::process::Host;
use host::terminal::Terminal;

/// The places of a step's sheet: no control, no poll and no pause writes more records.
pub const LEAST_PLACES: usize = 8;

/// The places that a step may write, of a sheet that has so many.
pub type Places = [Record; LEAST_PLACES];

// What a task does in one step.
trait Work {
    type Found;

    ghost tree: { Self → ℕ → TaskView → Interaction (TaskView × Self.Found) };

    fn run<H: Host, T: Terminal>(self, step: &mut Step<'_, H, T>) -> Self::Found
        requires { HasRoom 8 step.old }
        ensures { Performs H.Host T.Terminal 8 (tree self step.old.time (task_of step.old))
            step.old (task_of step.new, result) step.new };
}

impl Work for Control {
    type Found = Outcome;

    ghost tree = { λ c. Tree.control c };

    fn run<H: Host, T: Terminal>(self, step: &mut Step<'_, H, T>) -> Outcome {
        step.carry_out(self)
    }
}

// A poll of the child, which a restart may follow.
#[derive(Drop)]
struct Polling {
    restart: bool,
}

impl Work for Polling {
    type Found = PollOutcome;

    ghost tree = { λ polling. Tree.poll_child polling.restart };

    fn run<H: Host, T: Terminal>(self, step: &mut Step<'_, H, T>) -> PollOutcome {
        step.poll_child(self.restart)
    }
}

// A pause; the terminal's own group is asked for before the step, since that is no call.
#[derive(Drop)]
struct Pausing {
    own: u32,
}

impl Work for Pausing {
    type Found = Option<u8>;

    ghost tree = { λ pausing time. Tree.pause pausing.own };

    fn run<H: Host, T: Terminal>(self, step: &mut Step<'_, H, T>) -> Option<u8> {
        step.pause(self.own)
    }
}

// Task, host, terminal and sheet come one by one here and in the three below, since a caller may own them apart: a struct of loans
// would be made for each call, and each contract would have to say that the same ones are lent after it.

// Does the work; what it ends with, and how many records were written.
fn conduct<W: Work + Drop, H: Host, T: Terminal>(
    task: &mut Task,
    host: &mut H,
    terminal: &mut T,
    sheet: &mut Places,
    work: W,
    time: u64,
) -> (W::Found, usize)
    ensures { Conducts H.Host T.Terminal (W.tree work time (task_view task.old))
        (world host.old terminal.old) sheet.old (task_view task.new, result.0) result.1
        (world host.new terminal.new) sheet.new }
{
    let mut step = Step {
        task,
        host,
        terminal,
        sheet,
        used: 0,
        time,
    };
    let found = work.run(&mut step);
    (found, step.used)
}

// A control, a poll and a pause are a public function each: `Work`, whose `run` needs room on the sheet, stays private, since no public call
// has conditions.

/// Carries a control out; its outcome, and how many records were written.
pub fn control<H: Host, T: Terminal>(
    task: &mut Task,
    host: &mut H,
    terminal: &mut T,
    sheet: &mut Places,
    control: Control,
    time: u64,
) -> (Outcome, usize)
    ensures { Conducts H.Host T.Terminal (Tree.control control time (task_view task.old))
        (world host.old terminal.old) sheet.old (task_view task.new, result.0) result.1
        (world host.new terminal.new) sheet.new }
{
    conduct(task, host, terminal, sheet, control, time)
}

/// Polls the child, and starts another one at its end if a restart is remembered; what was found, and how many records were
/// written.
pub fn poll<H: Host, T: Terminal>(
    task: &mut Task,
    host: &mut H,
    terminal: &mut T,
    sheet: &mut Places,
    restart: bool,
    time: u64,
) -> (PollOutcome, usize)
    ensures { Conducts H.Host T.Terminal (Tree.poll_child restart time (task_view task.old))
        (world host.old terminal.old) sheet.old (task_view task.new, result.0) result.1
        (world host.new terminal.new) sheet.new }
{
    conduct(task, host, terminal, sheet, Polling { restart }, time)
}

/// Takes the oldest pause, while a child runs; its signal, and how many records were written.
pub fn pause<H: Host, T: Terminal>(
    task: &mut Task,
    host: &mut H,
    terminal: &mut T,
    sheet: &mut Places,
    time: u64,
) -> (Option<u8>, usize)
    ensures { Conducts H.Host T.Terminal
        (Tree.pause (T.Terminal.book terminal.old).own (task_view task.old))
        (world host.old terminal.old) sheet.old (task_view task.new, result.0) result.1
        (world host.new terminal.new) sheet.new }
{
    let own = terminal.own_group();
    conduct(task, host, terminal, sheet, Pausing { own }, time)
}
