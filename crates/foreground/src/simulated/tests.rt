// The simulated terminal on the examples of docs/HOSTS.md and docs/DIFFERENCES.md.
use super::*;

const OWN: Group = Group { number: 7 };

const CHILD: Group = Group { number: 100 };

const EMPTY: Group = Group { number: 101 };

// What is seen of a terminal beside the answers of its calls.
#[derive(Clone, Copy, Debug, PartialEq, Eq)]
struct State {
    foreground: Option<Group>,
    settings: u32,
    granted: bool,
    handling: Handling,
}

fn state_of(terminal: &SimulatedTerminal) -> State {
    State {
        foreground: terminal.console.device.foreground,
        settings: terminal.console.device.settings,
        granted: terminal.saved.is_some(),
        handling: terminal.console.disposition.handling,
    }
}

const QUIET: State = State {
    foreground: Some(OWN),
    settings: 3,
    granted: false,
    handling: Handling::Default,
};

// In the session are 100, the empty 101, and what is given for the own group.
fn terminal_of(own: Option<Member>) -> SimulatedTerminal {
    let mut terminal = SimulatedTerminal::new(OWN);
    terminal.set_foreground(QUIET.foreground);
    terminal.set_settings(QUIET.settings);
    terminal.set_handling(QUIET.handling);
    for (place, member) in [
        own,
        Some(Member {
            group: CHILD,
            empty: false,
        }),
        Some(Member {
            group: EMPTY,
            empty: true,
        }),
    ]
    .into_iter()
    .enumerate()
    {
        let _ = terminal.set_place(place, member);
    }
    terminal
}

#[test]
fn a_grant_and_three_refusals(rt: HostRuntime) {
    let mut terminal = terminal_of(Some(Member {
        group: OWN,
        empty: false,
    }));
    let granted = State {
        foreground: Some(CHILD),
        granted: true,
        ..QUIET
    };
    assert_eq!(rt; terminal.own_group(), 7);
    assert_eq!(rt; terminal.owner(), Some(7));
    assert_eq!(rt; state_of(&terminal), QUIET);
    assert_eq!(rt; terminal.acquire(100), Ok(()));
    assert_eq!(rt; state_of(&terminal), granted);
    terminal.set_settings(8);
    let changed = State {
        settings: 8,
        ..granted
    };
    assert_eq!(rt; terminal.acquire(101), Err(Fault { code: 16 }));
    assert_eq!(rt; state_of(&terminal), changed);
    terminal.release();
    assert_eq!(rt; state_of(&terminal), QUIET);
    assert_eq!(rt; terminal.acquire(101), Err(Fault { code: 3 }));
    assert_eq!(rt; state_of(&terminal), QUIET);
    assert_eq!(rt; terminal.acquire(102), Err(Fault { code: 1 }));
    assert_eq!(rt; state_of(&terminal), QUIET);
    assert_eq!(rt; terminal.served, Wrapping(6));
}

// The own group isn't in the session, so the move back fails.
#[test]
fn settings_are_restored_where_the_move_back_fails(rt: HostRuntime) {
    let mut terminal = terminal_of(None);
    assert_eq!(rt; terminal.acquire(100), Ok(()));
    terminal.set_settings(8);
    terminal.release();
    let restored = State {
        foreground: Some(CHILD),
        ..QUIET
    };
    assert_eq!(rt; state_of(&terminal), restored);
}
