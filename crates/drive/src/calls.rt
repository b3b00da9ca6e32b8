// The calls that a run is made of, and what each of them did.
ghost use Rattle.std.specs.Prelude.{◌≡◌};
ghost use Rattle.drive.specs.Answers.{done_without};
ghost use Rattle.drive.specs.Values.{value_number};

use supervisor::answers::{Progress, StepKind};
use supervisor::errors::Refusal;
use supervisor::sends::Send;
use tickets::ticket::Ticket;

/// A call on a job. A step has its time, a pause its signal, a look and a collect the number of their
/// ticket, which may be any.
#[derive(Clone, Copy, Debug, PartialEq, Eq)]
pub enum Call {
    Send(Send),
    Step { kind: StepKind, time: u64 },
    Pause { signal: u8 },
    Look { ticket: u64 },
    Collect { ticket: u64 },
}

/// What a granted call answers: a send its ticket, a step its progress, a look whether the ticket is
/// done, and any other nothing.
#[derive(Clone, Copy, Debug, PartialEq, Eq)]
pub enum Value {
    Ticket(Ticket),
    Progress(Progress),
    IsDone(bool),
    Nothing,
}

/// The number that it is written with.
impl From<Value> for u32 {
    ghost from_gives = { λ value number. number ≡ value_number value };

    fn from(value: Value) -> u32 {
        match value {
            Value::Ticket(ticket) => ticket.into(),
            Value::Progress(progress) => u32::from(u8::from(progress)),
            Value::IsDone(done) => u32::from(done),
            Value::Nothing => 0,
        }
    }
}

/// The starts that were tried, and the controls that order a start that were taken from queues.
#[derive(Clone, Copy, Debug, Default, PartialEq, Eq)]
pub struct Tally {
    pub tried: usize,
    pub ordered: usize,
}

/// What a call did: its answer, how many records it wrote, from the first place of the sheet on, and
/// its share of the tally.
#[derive(Clone, Copy, Debug, PartialEq, Eq)]
pub struct Done {
    pub answer: Result<Value, Refusal>,
    pub records: usize,
    pub tally: Tally,
}

/// What is done by a call that makes no step, or by a step that is refused: its answer is all.
impl From<Result<Value, Refusal>> for Done {
    ghost from_gives = { λ answer it. it ≡ done_without answer };

    fn from(answer: Result<Value, Refusal>) -> Done {
        Done {
            answer,
            records: 0,
            tally: Tally::default(),
        }
    }
}
