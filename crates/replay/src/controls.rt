// The controls that a line `k` names. Where the Rust has two forms of a control, both names stand
// for the one control of the job.
use crate::numbers::{grace_of, number_of, one, signal_of, two};
use task::messages::Control;

fn alone(name: &str) -> Option<Control> {
    match name {
        "start" => Some(Control::Start),
        "stop" => Some(Control::Stop),
        "try_restart" => Some(Control::TryRestart),
        "continue" => Some(Control::ContinueTryGracefulRestart),
        "delete" => Some(Control::Delete),
        "next_ending" => Some(Control::NextEnding),
        "no_handler" => Some(Control::UnsetErrorHandler),
        "no_hook" => Some(Control::UnsetSpawnHook),
        "no_way" | "no_childway" => Some(Control::ClearSpawnFn),
        _ => None,
    }
}

fn with_number(name: &str, number: u8) -> Option<Control> {
    match name {
        "func" | "afunc" => Some(Control::Func(number)),
        "handler" | "ahandler" => Some(Control::SetErrorHandler(number)),
        "hook" | "ahook" => Some(Control::SetSpawnHook(number)),
        "way" | "childway" => Some(Control::SetSpawnFn(number)),
        _ => None,
    }
}

fn with_grace(name: &str, signal: u8, grace: u32) -> Option<Control> {
    match name {
        "gstop" => Some(Control::GracefulStop { signal, grace }),
        "try_grestart" => Some(Control::TryGracefulRestart { signal, grace }),
        _ => None,
    }
}

fn with_arguments(name: &str, arguments: &str) -> Option<Control> {
    match two(arguments) {
        Some((signal, grace)) => with_grace(name, signal_of(signal), grace_of(grace)),
        None => with_number(name, number_of(one(arguments)?)),
    }
}

// The control of these fields: its name and its arguments.
pub(crate) fn read_control(fields: &str) -> Option<Control> {
    match fields.split_once('\t') {
        None => alone(fields),
        Some(("signal", signal)) => one(signal).map(|signal| Control::Signal(signal_of(signal))),
        Some((name, arguments)) => with_arguments(name, arguments),
    }
}
