// The three kinds of step, and what a step answers.
ghost use Rattle.std.specs.Prelude.{◌≡◌};
ghost use Rattle.supervisor.specs.Answers.{control_progress, pause_progress, poll_progress, progress_number};

use task::task::{Outcome, PollOutcome};

// A control step carries out one control, a child step polls the child, a pause step takes one pause. Which one is made is data, and
// no closure: lists of calls and scripts name it.
#[derive(Clone, Copy, Debug, PartialEq, Eq)]
pub enum StepKind {
    Control,
    Child,
    Pause,
}

// What a step did: nothing, something, or it closed the job.
#[derive(Clone, Copy, Debug, PartialEq, Eq)]
pub enum Progress {
    Idle = 0,
    Handled = 1,
    Closed = 2,
}

impl Progress {
    // What a pause step comes to, by the signal that it took.
    pub(crate) fn of_pause(taken: Option<u8>) -> Progress
        ensures { result ≡ pause_progress taken }
    {
        match taken {
            Some(_) => Progress::Handled,
            None => Progress::Idle,
        }
    }
}

// The number that it is written with; `as` casts no type parameter, so each enum has its own impl.
impl From<Progress> for u8 {
    ghost from_gives = { λ progress number. number ≡ progress_number progress };

    fn from(progress: Progress) -> u8 {
        progress as u8
    }
}

// What carrying a control out comes to.
impl From<Outcome> for Progress {
    ghost from_gives = { λ outcome progress. progress ≡ control_progress outcome };

    fn from(outcome: Outcome) -> Progress {
        if outcome.closes() {
            Progress::Closed
        } else {
            Progress::Handled
        }
    }
}

// What a poll of the child comes to.
impl From<PollOutcome> for Progress {
    ghost from_gives = { λ outcome progress. progress ≡ poll_progress outcome };

    fn from(outcome: PollOutcome) -> Progress {
        match outcome {
            PollOutcome::Idle => Progress::Idle,
            PollOutcome::Faulted | PollOutcome::Over | PollOutcome::Renewed => Progress::Handled,
        }
    }
}

// The answer of a step that was accepted.
#[derive(Clone, Copy, Debug, PartialEq, Eq)]
pub struct Stepped {
    pub progress: Progress,
    // How many records it wrote, from the first place of the sheet on: a slice of them would keep the sheet lent.
    pub records: usize,
    // Whether it took a control that orders a start from a queue.
    pub ordered: bool,
}
