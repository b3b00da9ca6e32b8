// The journal: one record for each call that a step makes.
ghost use Rattle.std.specs.Prelude.{◌≡◌};
ghost use Rattle.host.specs.Journal.{call_number, answer_number, no_value, or_fault};

use crate::command::SpawnOptions;
use crate::fault::Fault;
use crate::state::ProcessEnd;

// The calls of a host, and then those of a terminal.
#[derive(Clone, Copy, Debug, PartialEq, Eq)]
pub enum CallKind {
    Spawn = 1,
    Poll = 2,
    Wait = 3,
    Kill = 4,
    Signal = 5,
    Cont = 6,
    LetGo = 7,
    Hook = 8,
    Routine = 9,
    Tell = 10,
    Owner = 11,
    Acquire = 12,
    Release = 13,
}

// The number that a call is written with. Each enum that has numbers has such an impl: `as` casts no type parameter.
impl From<CallKind> for u8 {
    ghost from_gives = { λ call number. number ≡ call_number call };

    fn from(call: CallKind) -> u8 {
        call as u8
    }
}

// What a call was answered.
#[derive(Clone, Copy, Debug, PartialEq, Eq)]
pub enum Answer {
    Nothing,
    Child(u32),
    Options(SpawnOptions),
    Group(u32),
    End(ProcessEnd),
    Fault(Fault),
}

// What a call was answered that answers nothing, or faults.
impl From<Result<(), Fault>> for Answer {
    ghost from_gives = { λ reply answer. answer ≡ or_fault no_value reply };

    fn from(reply: Result<(), Fault>) -> Answer {
        reply.map_or_else(Answer::Fault, |()| Answer::Nothing)
    }
}

// The number that an answer is written with.
impl From<Answer> for i64 {
    ghost from_gives = { λ answer number. number ≡ answer_number answer };

    fn from(answer: Answer) -> i64 {
        match answer {
            Answer::Nothing | Answer::End(ProcessEnd::Continued) => 0,
            Answer::Child(number) | Answer::Group(number) => i64::from(number),
            Answer::Options(options) => i64::from(u8::from(options)),
            Answer::End(ProcessEnd::Exited(code)) => 1000 + i64::from(code),
            Answer::End(ProcessEnd::Signalled(signal)) => 2000 + i64::from(signal),
            Answer::Fault(fault) => -i64::from(fault.code),
        }
    }
}

// A call: the child that it names (0 for none), its number (spawn's way, the signal, the hook or routine, the code told,
// the group acquired, else 0) and its answer. They are the numbers of the format, and so no Options. A call is no enum with
// fields: the child and the number that are printed would then be two matches over thirteen calls.
#[derive(Clone, Copy, Debug, PartialEq, Eq)]
pub struct Record {
    pub call: CallKind,
    pub child: u32,
    pub number: u32,
    pub answer: Answer,
}

impl Record {
    // Fills a place of a sheet that no step has written yet.
    pub const BLANK: Record = Record {
        call: CallKind::Release,
        child: 0,
        number: 0,
        answer: Answer::Nothing,
    };
}
