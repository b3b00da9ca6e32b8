// A run of calls on a job, a host and a terminal, with one sheet.
ghost use Rattle.std.specs.Prelude.{◌≡◌, ◌≤◌, length, take, IfOk};
ghost use Rattle.host.specs.Journal.{spawns_among};
ghost use Rattle.supervisor.specs.Steps as Steps;
ghost use Rattle.supervisor.specs.Steps.{job_view, moment};
ghost use Rattle.drive.specs.Answers as Answers;
ghost use Rattle.drive.specs.Calls as Calls;
ghost use Rattle.drive.specs.Runs as Runs;

use crate::calls::{Call, Done, Tally, Value};
use host::journal::{CallKind, Record};
use host::process::Host;
use host::terminal::Terminal;
use supervisor::answers::Stepped;
use supervisor::errors::Refusal;
use supervisor::job::Job;
use supervisor::sends::Send;
use tickets::ticket::Ticket;

// The spawns among records.
fn spawns_among(records: &[Record]) -> usize
    ensures { result ≡ spawns_among records.now }
{
    records
        .iter()
        .filter(|record| matches!(record.call, CallKind::Spawn))
        .count()
}

// What a step did, by its answer and the sheet after it.
fn stepped(answer: Result<Stepped, Refusal>, sheet: &[Record]) -> Done
    requires { IfOk answer (λ s. s.records ≤ length sheet.now) }
    ensures { result ≡ Answers.step_done answer sheet.now }
{
    match answer {
        Ok(step) => {
            let tally = Tally {
                tried: spawns_among(&sheet[..step.records]),
                ordered: usize::from(step.ordered),
            };
            Done {
                answer: Ok(Value::Progress(step.progress)),
                records: step.records,
                tally,
            }
        }
        Err(refusal) => Err(refusal).into(),
    }
}

// No ticket and no child has a number of more than 32 bits.
pub fn known(number: u64) -> Result<u32, Refusal>
    ensures { result ≡ Calls.known_ticket number }
{
    u32::try_from(number).map_err(|_| Refusal::Unknown)
}

fn known_ticket(number: u64) -> Result<Ticket, Refusal>
    ensures { Steps.by_serial result ≡ Calls.known_ticket number }
{
    Ok(known(number)?.into())
}

fn send(job: &mut Job, send: Send) -> Result<Value, Refusal>
    ensures { Steps.Answers (Calls.send_value send) job.old result job.new }
{
    Ok(Value::Ticket(job.send(send)?))
}

fn pause(job: &mut Job, signal: u8) -> Result<Value, Refusal>
    ensures { Steps.Answers (Calls.pause_value signal) job.old result job.new }
{
    job.pause(signal)?;
    Ok(Value::Nothing)
}

fn look(job: &Job, ticket: u64) -> Result<Value, Refusal>
    ensures { result ≡ Calls.look_value (Calls.known_ticket ticket) (job_view job.now) }
{
    Ok(Value::IsDone(job.look(known_ticket(ticket)?)?))
}

fn collect(job: &mut Job, ticket: u64) -> Result<Value, Refusal>
    ensures { Steps.Answers (Calls.collect_value (Calls.known_ticket ticket))
        job.old result job.new }
{
    job.collect(known_ticket(ticket)?)?;
    Ok(Value::Nothing)
}

// Makes one call, which is data of the caller's, and so no closure. What it is lent comes one by one, as a step takes it.
pub fn make<H: Host, T: Terminal>(
    job: &mut Job,
    host: &mut H,
    terminal: &mut T,
    sheet: &mut [Record],
    call: Call,
) -> Done
    ensures { Calls.Makes H.Host T.Terminal call
        (moment job.old host.old terminal.old sheet.old) result
        (moment job.new host.new terminal.new sheet.new) }
{
    match call {
        Call::Send(what) => send(job, what).into(),
        Call::Step { kind, time } => {
            let answer = job.step(kind, host, terminal, sheet, time);
            stepped(answer, sheet)
        }
        Call::Pause { signal } => pause(job, signal).into(),
        Call::Look { ticket } => look(job, ticket).into(),
        Call::Collect { ticket } => collect(job, ticket).into(),
    }
}

// Makes the calls one after the other, each step with the same sheet, and writes their answers in order.
pub fn drive<H: Host, T: Terminal>(
    job: &mut Job,
    host: &mut H,
    terminal: &mut T,
    calls: &[Call],
    sheet: &mut [Record],
    answers: &mut [Result<Value, Refusal>],
) -> Result<Tally, Refusal>
    ensures { Runs.DrivesOrRefuses H.Host T.Terminal calls.now
        (moment job.old host.old terminal.old sheet.old) answers.old result
        (moment job.new host.new terminal.new sheet.new) answers.new }
{
    if answers.len() < calls.len() {
        return Err(Refusal::Sheet);
    }
    let mut tally = Tally::default();
    // By index: of a slice whose elements were lent in a `zip`, a proof knows only the length.
    for (i, call) in calls.iter().enumerate() {
        let done = make(job, host, terminal, sheet, *call);
        answers[i] = done.answer;
        tally.tried += done.tally.tried;
        tally.ordered += done.tally.ordered;
    }
    Ok(tally)
}
