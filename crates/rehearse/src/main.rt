// Reads a rehearsal script from standard input or from a file, runs it, and prints what it answers.
#![tactic(auto)]

ghost use Rattle.std.specs.Prelude.{◌≡◌, IfOk, IfSome, string_bytes};
ghost use Rattle.rehearsal.specs.Printed.{rehearsal_text};

use std::alloc::Global;
use std::env::{Env, FillError};
use std::io::Read;
use std::process::ExitCode;
use std::{env, fs};

// One byte more than a script may have: enough to know that it is too long.
const ENOUGH: u64 = rehearsal::MOST_BYTES as u64 + 1;

// The status where there are too many arguments.
const MISUSED: u8 = 2;

// What a script prints.
fn text_of<R: Read + Drop>(heap: Global, script: R) -> anyhow::Result<String>
    ensures { IfOk result (λ text.
        IfSome (R.remaining script) (λ bytes. string_bytes text ≡ rehearsal_text bytes)) }
{
    let mut bytes = Vec::new(heap);
    script.take(ENOUGH).read_to_end(&mut bytes)?;
    Ok(rehearsal::rehearse(heap, &bytes)?)
}

// What the script in a file prints.
fn text_of_file(rt: &HostRuntime, path: &str) -> anyhow::Result<String> {
    text_of(rt.alloc(), fs::open(rt, path)?)
}

fn main(rt: HostRuntime) -> anyhow::Result<ExitCode> {
    // Where there are none, the arguments aren't read: the program's own name may be any bytes.
    if matches!(rt.arg(1, &mut []), Err(FillError::NotPresent)) {
        print!(rt; "{}", text_of(rt.alloc(), rt.stdin())?)?;
        return Ok(ExitCode::SUCCESS);
    }
    let mut arguments = env::args(&rt)?.skip(1);
    let (Some(path), None) = (arguments.next(), arguments.next()) else {
        eprintln!(rt; "usage: rehearse [SCRIPT]\nWithout SCRIPT, standard input is read.")?;
        return Ok(ExitCode::from(MISUSED));
    };
    match text_of_file(&rt, path.as_str()) {
        Ok(text) => print!(rt; "{text}")?,
        Err(error) => {
            eprintln!(rt; "rehearse: {path}: {error}")?;
            return Ok(ExitCode::FAILURE);
        }
    }
    Ok(ExitCode::SUCCESS)
}

#[cfg(test)]
mod tests {
    use super::*;
    use std::io;
    use std::test::Fail;

    #[test]
    fn a_reader_gives_the_script(rt: HostRuntime) -> Result<(), Fail> {
        let text = text_of(rt.alloc(), b"c\tstart\nl\t0\n".as_slice())?;
        assert_eq!(rt; text.as_str(), "1\tc\t0\t1\n2\tl\t0\t1\n");
        Ok(())
    }

    #[test]
    fn a_script_that_is_far_too_long_is_not_read_to_its_end(rt: HostRuntime) -> Result<(), Fail> {
        let text = text_of(rt.alloc(), io::repeat(b'l'))?;
        assert_eq!(rt; text.as_str(), "13\t0\n");
        Ok(())
    }
}
