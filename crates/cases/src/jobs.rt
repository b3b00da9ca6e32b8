// Jobs call by call.
use crate::bench::{
    BOTH, NEITHER, NOTHING, ORDERED, TRIED, check, child, closed, control, handled, idle, looked,
    pausing, send, ticket,
};
use drive::calls::Call;
use foreground::absent::AbsentTerminal;
use foreground::group::Group;
use foreground::session::Member;
use foreground::simulated::SimulatedTerminal;
use host::command::{Command, SpawnOptions};
use host::state::{CommandState, ProcessEnd};
use hosts::prepared::PreparedHost;
use hosts::simulated::SimulatedHost;
use std::test::Fail;
use supervisor::job::Job;
use supervisor::sends::Send;
use task::messages::Control;

const PENDING: CommandState = CommandState::Pending;

fn running(child: u32, started: u64) -> CommandState {
    CommandState::Running { child, started }
}

fn finished(end: ProcessEnd, started: u64, finished: u64) -> CommandState {
    CommandState::Finished {
        end,
        started,
        finished,
    }
}

// Sends 15.
const RESTART: Send = Send::TryRestartWithSignal {
    signal: 0,
    grace: 500,
};

// The ticket is that of the last control; `restart`, `restart_with_signal`, `delete` and `delete_now` have two.
#[test]
fn each_send_answers_a_ticket(rt: HostRuntime) -> Result<(), Fail> {
    let mut job = Job::new(1, 0)?;
    for (ticket, number) in [
        (job.control(Control::Func(3)), 1),
        (job.start(), 2),
        (job.stop(), 3),
        (job.stop_with_signal(15, 500), 4),
        (job.restart(), 6),
        (job.restart_with_signal(15, 500), 8),
        (job.try_restart(), 9),
        (job.try_restart_with_signal(15, 500), 10),
        (job.signal(15), 11),
        (job.delete(), 13),
        (job.delete_now(), 15),
        (job.to_wait(), 16),
    ] {
        assert_eq!(rt; ticket.map(u32::from), Ok(number));
    }
    Ok(())
}

// A state has the times of the steps that spawned the child and learnt of its end. The first child outlasts the grace of a restart, whose
// order was taken before; the second exits, the third is killed.
#[test]
fn three_children_of_a_job(rt: HostRuntime) -> Result<(), Fail> {
    let mut job = Job::new(255, 4)?;
    let options = SpawnOptions::try_from(4)?;
    let mut host = SimulatedHost::new(1 << 15, options);
    let mut terminal = AbsentTerminal::new();
    let (first, second, third) = (running(100, 10), running(101, 520), running(102, 700));
    let before_the_exit = [
        (send(Send::Start), ticket(1), NEITHER, PENDING),
        (control(10), handled(), BOTH, first),
        (send(RESTART), ticket(2), NEITHER, first),
        (control(20), handled(), ORDERED, first),
        (control(520), handled(), TRIED, second),
    ];
    let exited = finished(ProcessEnd::Exited(3), 520, 600);
    let killed = finished(ProcessEnd::Signalled(9), 700, 800);
    let after_the_exit = [
        (child(600), handled(), NEITHER, exited),
        (send(Send::Start), ticket(3), NEITHER, exited),
        (control(700), handled(), BOTH, third),
        (send(Send::Delete), ticket(5), NEITHER, third),
        (control(800), handled(), NEITHER, killed),
        (control(900), closed(), NEITHER, killed),
    ];
    assert_eq!(rt;
        job.command(),
        Command {
            program: 255,
            options
        }
    );
    check(&rt, &mut job, &mut host, &mut terminal, &before_the_exit);
    assert!(rt; job.is_running() && host.exit(101, 3));
    check(&rt, &mut job, &mut host, &mut terminal, &after_the_exit);
    assert!(rt; job.is_dead() && !job.is_running());
    Ok(())
}

// On a host that grants nothing.
#[test]
fn these_controls_order_a_start(rt: HostRuntime) -> Result<(), Fail> {
    let (signal, grace) = (15, 500);
    for (told, tally) in [
        (Control::Start, BOTH),
        (Control::Stop, NEITHER),
        (Control::GracefulStop { signal, grace }, NEITHER),
        (Control::TryRestart, ORDERED),
        (Control::TryGracefulRestart { signal, grace }, ORDERED),
        (Control::ContinueTryGracefulRestart, BOTH),
        (Control::Signal(signal), NEITHER),
        (Control::NextEnding, NEITHER),
        (Control::Func(1), NEITHER),
        (Control::SetErrorHandler(1), NEITHER),
        (Control::UnsetErrorHandler, NEITHER),
        (Control::SetSpawnHook(1), NEITHER),
        (Control::UnsetSpawnHook, NEITHER),
        (Control::SetSpawnFn(1), NEITHER),
        (Control::ClearSpawnFn, NEITHER),
    ] {
        let rows = [
            (send(Send::Control(told)), ticket(1), NEITHER, PENDING),
            (control(0), handled(), tally, PENDING),
        ];
        check(
            &rt,
            &mut Job::new(1, 0)?,
            &mut PreparedHost::new([]),
            &mut AbsentTerminal::new(),
            &rows,
        );
    }
    Ok(())
}

// Whose own group 7 has the foreground; in the session are that and the groups of the children 100 and 101.
fn terminal() -> SimulatedTerminal {
    let mut terminal = SimulatedTerminal::new(Group { number: 7 });
    for (place, number) in [(0, 7), (1, 100), (2, 101)] {
        let member = Member {
            group: Group { number },
            empty: false,
        };
        let _ = terminal.set_place(place, Some(member));
    }
    terminal.set_foreground(Some(Group { number: 7 }));
    terminal
}

// The first child gets the foreground, is stopped, and ends by the signal of a restart; the second one is deleted while it has the
// foreground.
#[test]
fn two_children_at_a_terminal(rt: HostRuntime) -> Result<(), Fail> {
    let (first, second) = (running(100, 10), running(101, 15));
    let killed = finished(ProcessEnd::Signalled(9), 15, 18);
    let rows = [
        (send(Send::Start), ticket(1), NEITHER, PENDING),
        (control(10), handled(), BOTH, first),
        (Call::Pause { signal: 22 }, NOTHING, NEITHER, first),
        (pausing(11), handled(), NEITHER, first),
        (send(Send::Signal(20)), ticket(2), NEITHER, first),
        (control(12), handled(), NEITHER, first),
        (Call::Pause { signal: 20 }, NOTHING, NEITHER, first),
        (pausing(13), handled(), NEITHER, first),
        (send(RESTART), ticket(3), NEITHER, first),
        (control(14), handled(), ORDERED, first),
        (Call::Look { ticket: 3 }, looked(false), NEITHER, first),
        (child(15), handled(), TRIED, second),
        (Call::Look { ticket: 3 }, looked(true), NEITHER, second),
        (pausing(16), idle(), NEITHER, second),
        (Call::Pause { signal: 21 }, NOTHING, NEITHER, second),
        (pausing(17), handled(), NEITHER, second),
        (send(Send::Delete), ticket(5), NEITHER, second),
        (control(18), handled(), NEITHER, killed),
        (control(19), closed(), NEITHER, killed),
        (Call::Collect { ticket: 3 }, NOTHING, NEITHER, killed),
    ];
    check(
        &rt,
        &mut Job::new(1, 9)?,
        &mut SimulatedHost::new(0, SpawnOptions::try_from(9)?),
        &mut terminal(),
        &rows,
    );
    Ok(())
}
