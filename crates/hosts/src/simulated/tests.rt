// The simulated host on examples.
use super::*;

const PLAIN: SpawnOptions = SpawnOptions {
    grouped: true,
    session: false,
    reset_sigmask: false,
    grant_foreground: false,
};

#[test]
fn three_signals_are_never_ignored(rt: HostRuntime) {
    let mut host = SimulatedHost::new(0xFFFF_FFFF, PLAIN);
    assert_eq!(rt; host.spawn(1, PLAIN, 0, 10), Ok(100));
    assert_eq!(rt; host.signal(100, 15), Ok(()));
    assert_eq!(rt; host.signal(100, 19), Ok(()));
    assert!(rt; matches!(host.children.life(100), Some(Life::Stopped)));
    assert_eq!(rt; host.cont(100), Ok(()));
    assert!(rt; matches!(host.children.life(100), Some(Life::Going)));
    assert_eq!(rt; host.wait(100), Err(Fault { code: 4 }));
    assert_eq!(rt; host.kill(100), Ok(()));
    assert_eq!(rt; host.wait(100), Ok(ProcessEnd::Signalled(9)));
    assert_eq!(rt; host.wait(100), Err(Fault { code: 10 }));
    assert_eq!(rt; (host.served.0, host.spawns.0), (8, 1));
}

#[test]
fn a_child_exits_once_and_is_reported_once(rt: HostRuntime) {
    let mut host = SimulatedHost::new(0, PLAIN);
    assert_eq!(rt; host.spawn(1, PLAIN, 0, 10), Ok(100));
    assert!(rt; host.stop(100));
    assert!(rt; host.exit(100, 3));
    assert!(rt; !host.exit(100, 4));
    assert!(rt; !host.stop(100));
    assert_eq!(rt; host.poll(100), Ok(Some(ProcessEnd::Exited(3))));
    assert_eq!(rt; host.poll(100), Err(Fault { code: 10 }));
    assert_eq!(rt; host.spawn(1, PLAIN, 0, 10), Ok(101));
}
