// Runs: what they answer and count, and what is left on their sheet.
use crate::bench::{
    BOTH, Given, NEITHER, NOTHING, check, child, closed, control, handled, idle, looked, pausing,
    run, send, ticket,
};
use drive::calls::{Call, Tally};
use foreground::absent::AbsentTerminal;
use host::command::SpawnOptions;
use host::journal::{CallKind, Record};
use host::process::Host;
use host::state::CommandState;
use hosts::prepared::PreparedHost;
use hosts::simulated::SimulatedHost;
use std::process::Abort;
use std::test::Fail;
use supervisor::errors::Refusal;
use supervisor::job::Job;
use supervisor::sends::Send;
use task::messages::Control;

// What a place holds that no answer was written to: no call is refused so.
const UNTOUCHED: Given = Err(Refusal::Line);

// The example of docs/DRIVE.md, with two places more than there are calls. With a place too few nothing is run: the next ticket is the
// first all the same.
#[test]
fn a_run_answers_each_call_and_counts(rt: HostRuntime) -> Result<(), Fail> {
    let calls = [
        send(Send::Start),
        send(Send::Start),
        control(10),
        control(9),
        control(10),
        child(11),
        Call::Look { ticket: 2 },
    ];
    let mut job = Job::new(1, 0)?;
    let mut host = SimulatedHost::new(0, SpawnOptions::default());
    let mut terminal = AbsentTerminal::new();
    let mut sheet = [Record::BLANK; 8];
    let mut answers = [UNTOUCHED; 9];
    let refused = run(
        &mut job,
        &mut host,
        &mut terminal,
        &calls,
        &mut sheet,
        &mut answers[..6],
    );
    assert_eq!(rt; (refused, answers), (Err(Refusal::Sheet), [UNTOUCHED; 9]));
    let tally = run(
        &mut job,
        &mut host,
        &mut terminal,
        &calls,
        &mut sheet,
        &mut answers,
    );
    let counts = Tally {
        tried: 1,
        ordered: 2,
    };
    let wanted = [
        ticket(1),
        ticket(2),
        handled(),
        Err(Refusal::Clock),
        handled(),
        idle(),
        looked(true),
        UNTOUCHED,
        UNTOUCHED,
    ];
    let mut after = [Record::BLANK; 8];
    after[0] = Record {
        call: CallKind::Poll,
        child: 100,
        ..Record::BLANK
    };
    assert_eq!(rt; (tally, answers, sheet), (Ok(counts), wanted, after));
    Ok(())
}

// Makes a step of each kind at this time, with a sheet of so many places: each is refused, and nothing is written.
fn refuses(
    rt: &impl Abort,
    job: &mut Job,
    host: &mut impl Host,
    places: usize,
    time: u64,
    refusal: Refusal,
) {
    let calls = [control(time), child(time), pausing(time)];
    let mut sheet = [Record::BLANK; 8];
    let mut answers = [UNTOUCHED; 3];
    let sheet_of = &mut sheet[..places.min(8)];
    let tally = run(
        job,
        host,
        &mut AbsentTerminal::new(),
        &calls,
        sheet_of,
        &mut answers,
    );
    let unchanged = (Ok(NEITHER), [Err(refusal); 3], [Record::BLANK; 8]);
    assert_eq!(rt;
        (tally, answers, sheet),
        unchanged,
        "{places} places at {time}"
    );
}

// The sheet is looked at before the clock, and after the close. The run itself is granted, and what waits is taken afterwards.
#[test]
fn a_short_sheet_refuses_each_step(rt: HostRuntime) -> Result<(), Fail> {
    let mut job = Job::new(1, 8)?;
    let mut host = PreparedHost::new([100, 0]);
    let mut terminal = AbsentTerminal::new();
    let pending = CommandState::Pending;
    let first = CommandState::Running {
        child: 100,
        started: 10,
    };
    let before = [
        (send(Send::Start), ticket(1), NEITHER, pending),
        (control(10), handled(), BOTH, first),
        (Call::Pause { signal: 19 }, NOTHING, NEITHER, first),
        (
            send(Send::Control(Control::Delete)),
            ticket(2),
            NEITHER,
            first,
        ),
    ];
    check(&rt, &mut job, &mut host, &mut terminal, &before);
    for time in [9, 10, 50] {
        for places in [0, 7] {
            refuses(&rt, &mut job, &mut host, places, time, Refusal::Sheet);
        }
    }
    refuses(&rt, &mut job, &mut host, 8, 9, Refusal::Clock);
    let after = [
        (pausing(10), handled(), NEITHER, first),
        (child(10), idle(), NEITHER, first),
        (control(10), closed(), NEITHER, first),
    ];
    check(&rt, &mut job, &mut host, &mut terminal, &after);
    refuses(&rt, &mut job, &mut host, 7, 9, Refusal::Closed);
    assert!(rt; job.is_dead() && !job.is_running());
    Ok(())
}
