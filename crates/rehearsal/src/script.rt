// The lines of a script.
ghost use Rattle.std.specs.Prelude.{◌≡◌, Ok, MatchResult};
ghost use Rattle.rehearsal.specs.declared.script.ReadError.TheVariants.{Faulty, Memory};
ghost use Rattle.rehearsal.specs.Script.{Explains, script_of};

use crate::MOST_BYTES;
use crate::line::{Line, parse};
use crate::parts::cut;
use std::alloc::{AllocError, AllocFailed, Global};

// What is wrong with a script: it is too long, or the line of this number is faulty.
#[derive(Clone, Copy, Debug, PartialEq, Eq)]
pub enum ScriptFault {
    TooLong,
    Line(usize),
}

// Why a script gives no lines.
#[derive(Clone, Copy, Debug, PartialEq, Eq)]
pub enum ReadError {
    Faulty(ScriptFault),
    Memory,
}

impl From<ScriptFault> for ReadError {
    ghost from_gives = { λ fault r. r ≡ Faulty fault };

    fn from(fault: ScriptFault) -> ReadError {
        ReadError::Faulty(fault)
    }
}

impl From<AllocError> for ReadError {
    ghost from_gives = { λ _ r. r ≡ Memory };

    fn from(_error: AllocError) -> ReadError {
        ReadError::Memory
    }
}

impl<T: Drop> From<AllocFailed<T>> for ReadError {
    ghost from_gives = { λ _ r. r ≡ Memory };

    fn from(_error: AllocFailed<T>) -> ReadError {
        ReadError::Memory
    }
}

// What the lines of a script say, or what is wrong with it.
pub(crate) fn read(heap: Global, script: &[u8]) -> Result<Vec<Line>, ReadError>
    ensures { MatchResult result
        (λ lines. script_of script.now ≡ Ok lines.items) (Explains (script_of script.now)) }
{
    if script.len() > MOST_BYTES {
        return Err(ScriptFault::TooLong.into());
    }
    let mut lines = Vec::new(heap);
    let mut rest = script;
    // By `cut` and not by `split_inclusive`: what it leaves is the line that has no end, while of a
    // piece that would have to be told.
    while let Some((text, behind)) = cut(rest, b'\n') {
        let number = lines.len() + 1;
        let Some(line) = parse(text, number == 1) else {
            return Err(ScriptFault::Line(number).into());
        };
        lines.push(line)?;
        rest = behind;
    }
    if !rest.is_empty() {
        return Err(ScriptFault::Line(lines.len() + 1).into());
    }
    Ok(lines)
}
