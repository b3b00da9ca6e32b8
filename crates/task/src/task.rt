// The task of a job: what it holds, and what becomes of a control and of a poll.
ghost use Rattle.std.specs.Prelude.{◌≡◌};
ghost use Rattle.task.specs.Task.{closes};

use crate::messages::GraceEnd;
use host::command::Command;
use host::state::CommandState;
use ring::queue::Queue;

// The numbers that are set and cleared: of the error handler, of the spawn hook, and of the way of spawning. The way is no Option:
// hosts are given 0 for the default, and the journal writes it.
#[derive(Clone, Copy, Default)]
pub struct Settings {
    pub handler: Option<u8>,
    pub hook: Option<u8>,
    pub way: u8,
}

// What the task knows of the terminal: the signal that paused the child, the pauses that wait, whether pauses are watched for,
// and whether a grant of the foreground is held.
#[derive(Clone, Copy, Default)]
pub struct Foreground {
    pub paused: Option<u8>,
    pub pauses: Queue<u8, 32>,
    pub watch: bool,
    pub grant: bool,
}

#[derive(Clone, Copy)]
pub struct Task {
    pub command: Command,
    pub settings: Settings,
    pub state: CommandState,
    pub previous: Option<CommandState>,
    pub foreground: Foreground,
}

// What becomes of a control's ticket.
#[derive(Clone, Copy)]
pub enum Outcome {
    // It is raised.
    Settled,
    // The child was ended: the ending list is raised, and then the ticket.
    Ended,
    // It waits in the timer while a grace runs.
    Graced { grace: u32, end: GraceEnd },
    // It joins the ending list.
    Joined,
    // It is raised, and the job is closed.
    Closes,
}

impl Outcome {
    // Whether the job is closed with it.
    pub fn closes(self) -> bool
        ensures { result ≡ closes self }
    {
        matches!(self, Outcome::Closes)
    }
}

// What a poll of the child found.
#[derive(Clone, Copy)]
pub enum PollOutcome {
    // Nothing to do.
    Idle,
    // The host faulted.
    Faulted,
    // The child has ended.
    Over,
    // The child has ended, and the restart that was remembered started another one.
    Renewed,
}
