// What a line of a script says.
ghost use Rattle.std.specs.Prelude.{◌≡◌};
ghost use Rattle.std.specs.Option.{option_and_then, option_map};
ghost use Rattle.rehearsal.specs.Lines.{call_letter, event_line, exit_line, grace_of, letter_of, letter_and_rest, line_by, line_of, send_named, send_of, signal_of, step_call, step_kind, stop_line, with_grace, with_signal};
ghost use Rattle.rehearsal.specs.Tokens.{numbers_of, tokens_of};

use crate::token::{Token, Tokens, number, two_numbers, value};
use drive::calls::Call;
use supervisor::answers::StepKind;
use supervisor::sends::Send;

// The signals that stop a child are those from the first to the last of these.
const STOP: u64 = 19;

const TTOU: u64 = 22;

#[derive(Clone, Copy)]
pub enum Line {
    Make { options: u64, mask: u64 },
    Call(Call),
    Exit { child: u64, code: u8 },
    Stop { child: u64 },
}

fn call_letter(call: Call) -> char
    ensures { result ≡ call_letter call }
{
    match call {
        Call::Send(_) => 'c',
        Call::Step { .. } => 's',
        Call::Pause { .. } => 'p',
        Call::Look { .. } => 'l',
        Call::Collect { .. } => 'g',
    }
}

impl Line {
    // The letter that the line begins with.
    pub(crate) fn letter(self) -> char
        ensures { result ≡ letter_of self }
    {
        match self {
            Line::Make { .. } => 'm',
            Line::Call(call) => call_letter(call),
            Line::Exit { .. } | Line::Stop { .. } => 'w',
        }
    }
}

// The sends without arguments.
fn send_named(name: &[u8]) -> Option<Send>
    ensures { result ≡ send_named name.now }
{
    match name {
        b"start" => Some(Send::Start),
        b"stop" => Some(Send::Stop),
        b"restart" => Some(Send::Restart),
        b"try_restart" => Some(Send::TryRestart),
        b"delete" => Some(Send::Delete),
        b"delete_now" => Some(Send::DeleteNow),
        b"to_wait" => Some(Send::ToWait),
        _ => None,
    }
}

// A job refuses all signals over 31 alike, and all graces over a day: so a number that is too large
// for its type may stand as the type's largest. On a closed job it isn't looked at.
fn signal_of(number: u64) -> u8
    ensures { result ≡ signal_of number }
{
    u8::try_from(number).unwrap_or(u8::MAX)
}

fn grace_of(number: u64) -> u32
    ensures { result ≡ grace_of number }
{
    u32::try_from(number).unwrap_or(u32::MAX)
}

// The sends with a signal and a grace.
fn with_grace(name: &[u8], signal: u8, grace: u32) -> Option<Send>
    ensures { result ≡ with_grace name.now signal grace }
{
    match name {
        b"stop_with_signal" => Some(Send::StopWithSignal { signal, grace }),
        b"restart_with_signal" => Some(Send::RestartWithSignal { signal, grace }),
        b"try_restart_with_signal" => Some(Send::TryRestartWithSignal { signal, grace }),
        _ => None,
    }
}

// The send with a signal alone.
fn with_signal(name: &[u8], signal: u8) -> Option<Send>
    ensures { result ≡ with_signal name.now signal }
{
    match name {
        b"signal" => Some(Send::Signal(signal)),
        _ => None,
    }
}

// A letter and what stands behind its tab.
fn lettered(bytes: &[u8]) -> Option<(u8, &[u8])>
    ensures { option_map (λ p. (p.0, p.1.now)) result ≡ letter_and_rest bytes.now }
{
    match bytes {
        [letter, b'\t', rest @ ..] => Some((*letter, rest)),
        _ => None,
    }
}

// The name of a send is a word, and as many numbers follow as the send takes.
fn read_send(fields: &[u8]) -> Option<Send>
    ensures { result ≡ send_of (tokens_of fields.now) }
{
    let mut tokens = Tokens::of(fields);
    let Some(Token::Word(name)) = tokens.take() else {
        return None;
    };
    match (tokens.take(), tokens.take(), tokens.take()) {
        (None, ..) => send_named(name),
        (Some(Token::Number(signal)), None, _) => with_signal(name, signal_of(value(signal)?)),
        (Some(Token::Number(signal)), Some(Token::Number(grace)), None) => {
            with_grace(name, signal_of(value(signal)?), grace_of(value(grace)?))
        }
        _ => None,
    }
}

fn step_kind(letter: u8) -> Option<StepKind>
    ensures { result ≡ step_kind letter }
{
    match letter {
        b'e' => Some(StepKind::Child),
        b'p' => Some(StepKind::Pause),
        b'c' => Some(StepKind::Control),
        _ => None,
    }
}

fn read_step(fields: &[u8]) -> Option<Call>
    ensures { result ≡ option_and_then step_call (letter_and_rest fields.now) }
{
    let (letter, time) = lettered(fields)?;
    Some(Call::Step {
        kind: step_kind(letter)?,
        time: number(time)?,
    })
}

// A child exits with a code of one byte.
fn read_exit(fields: &[u8]) -> Option<Line>
    ensures { result ≡ option_and_then exit_line (numbers_of fields.now) }
{
    let (child, code) = two_numbers(fields)?;
    let code = u8::try_from(code).ok()?;
    Some(Line::Exit { child, code })
}

// A child is stopped by one of the four signals that stop.
fn read_stop(fields: &[u8]) -> Option<Line>
    ensures { result ≡ option_and_then stop_line (numbers_of fields.now) }
{
    match two_numbers(fields)? {
        (child, STOP..=TTOU) => Some(Line::Stop { child }),
        _ => None,
    }
}

fn read_event(fields: &[u8]) -> Option<Line>
    ensures { result ≡ option_and_then event_line (letter_and_rest fields.now) }
{
    match lettered(fields)? {
        (b'x', rest) => read_exit(rest),
        (b'z', rest) => read_stop(rest),
        _ => None,
    }
}

// What the letter of a line and its fields say. Only the first line of a script makes the job.
fn read_fields(letter: char, fields: &[u8], first: bool) -> Option<Line>
    ensures { result ≡ line_by first letter fields.now }
{
    match letter {
        'm' if first => two_numbers(fields).map(|(options, mask)| Line::Make { options, mask }),
        'c' => read_send(fields).map(|send| Line::Call(Call::Send(send))),
        's' => read_step(fields).map(Line::Call),
        'p' => number(fields).map(|signal| {
            Line::Call(Call::Pause {
                signal: signal_of(signal),
            })
        }),
        'l' => number(fields).map(|ticket| Line::Call(Call::Look { ticket })),
        'g' => number(fields).map(|ticket| Line::Call(Call::Collect { ticket })),
        'w' => read_event(fields),
        _ => None,
    }
}

// What a line without its line feed says; none for a faulty one.
pub fn parse(line: &[u8], first: bool) -> Option<Line>
    ensures { result ≡ line_of first line.now }
{
    let (letter, fields) = lettered(line)?;
    read_fields(char::from(letter), fields, first)
}
