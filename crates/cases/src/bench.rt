// Calls on a job, and what is expected of each. Nothing is promised of the two functions that make them: so a test's proof has none of
// what `make` and `drive` promise.
use drive::calls::{Call, Tally, Value};
use drive::runs;
use host::journal::Record;
use host::process::Host;
use host::state::CommandState;
use host::terminal::Terminal;
use std::process::Abort;
use supervisor::answers::{Progress, StepKind};
use supervisor::errors::Refusal;
use supervisor::job::Job;
use supervisor::sends::Send;
use tickets::ticket::Ticket;

// What a call is answered.
pub type Given = Result<Value, Refusal>;

pub const NOTHING: Given = Ok(Value::Nothing);

pub(crate) fn ticket(serial: u32) -> Given {
    Ok(Value::Ticket(Ticket { serial }))
}

pub(crate) fn looked(is_done: bool) -> Given {
    Ok(Value::IsDone(is_done))
}

fn progress(progress: Progress) -> Given {
    Ok(Value::Progress(progress))
}

pub(crate) fn idle() -> Given {
    progress(Progress::Idle)
}

pub(crate) fn handled() -> Given {
    progress(Progress::Handled)
}

pub(crate) fn closed() -> Given {
    progress(Progress::Closed)
}

pub(crate) fn send(send: Send) -> Call {
    Call::Send(send)
}

pub(crate) fn control(time: u64) -> Call {
    Call::Step {
        kind: StepKind::Control,
        time,
    }
}

pub(crate) fn child(time: u64) -> Call {
    Call::Step {
        kind: StepKind::Child,
        time,
    }
}

pub(crate) fn pausing(time: u64) -> Call {
    Call::Step {
        kind: StepKind::Pause,
        time,
    }
}

// A call that neither tries a start nor takes an order of one.
pub const NEITHER: Tally = Tally {
    tried: 0,
    ordered: 0,
};

// One that tries a start and takes no order: it carries one out that was taken before.
pub const TRIED: Tally = Tally {
    tried: 1,
    ordered: 0,
};

pub const ORDERED: Tally = Tally {
    tried: 0,
    ordered: 1,
};

pub const BOTH: Tally = Tally {
    tried: 1,
    ordered: 1,
};

// A call, its answer, what it counts, and the job's state after it.
pub type Row = (Call, Given, Tally, CommandState);

// Makes the calls one by one.
pub(crate) fn check(
    rt: &impl Abort,
    job: &mut Job,
    host: &mut impl Host,
    terminal: &mut impl Terminal,
    rows: &[Row],
) {
    for (call, answer, tally, state) in rows {
        let mut sheet = [Record::BLANK; 8];
        let done = runs::make(job, host, terminal, &mut sheet, *call);
        let found = (done.answer, done.tally, job.state());
        assert_eq!(rt; found, (*answer, *tally, *state), "{call:?}");
    }
}

// Makes the calls in one run.
pub(crate) fn run(
    job: &mut Job,
    host: &mut impl Host,
    terminal: &mut impl Terminal,
    calls: &[Call],
    sheet: &mut [Record],
    answers: &mut [Given],
) -> Result<Tally, Refusal> {
    runs::drive(job, host, terminal, calls, sheet, answers)
}
