// The rehearsal: a script of calls on one job is checked, run on the simulated host and the absent
// terminal, and printed.
#![tactic(auto)]

mod line;
mod parts;
mod print;
mod run;
mod script;
mod token;

ghost use Rattle.std.specs.Prelude.{◌≡◌, IfOk, string_bytes};
ghost use Rattle.rehearsal.specs.Printed.{rehearsal_text};

pub use crate::line::{Line, parse};
use crate::print::fault_line;
pub use crate::print::write_line;
use crate::run::Rehearsal;
use crate::script::ReadError;
use std::alloc::{AllocError, Global};

// The most bytes of a script.
pub const MOST_BYTES: usize = 32768;

// The text that a script prints: what each of its lines answers with the records of its calls, or
// the number of a faulty line.
pub fn rehearse(heap: Global, script: &[u8]) -> Result<String, AllocError>
    ensures { IfOk result (λ text. string_bytes text ≡ rehearsal_text script.now) }
{
    match script::read(heap, script) {
        Ok(lines) => Rehearsal::new().perform(heap, &lines),
        Err(ReadError::Faulty(fault)) => String::from_str(heap, fault_line(fault).as_str()),
        Err(ReadError::Memory) => Err(AllocError),
    }
}

#[cfg(test)]
mod tests;
