// What the numbers of prepared answers say.
ghost use Rattle.std.specs.Prelude.{◌≡◌, ℕ, Option};
ghost use Rattle.host.specs.Command.{options_of};
ghost use Rattle.hosts.specs.Numbers.{child_of, end_of, nothing_of, poll_of};

use host::command::SpawnOptions;
use host::state::ProcessEnd;

// An answer of a call, as it is read from a number that is no fault's.
pub(crate) trait FromNumber: Sized {
    ghost value_of: { ℕ → Option Self };

    // None where the number doesn't fit.
    fn from_number(number: u64) -> Option<Self>
        ensures { result ≡ value_of number };
}

// A child is from 1 to 2^31 − 1.
impl FromNumber for u32 {
    ghost value_of = { child_of };

    fn from_number(number: u64) -> Option<u32> {
        match number {
            1..=0x7FFF_FFFF => Some(number as u32),
            _ => None,
        }
    }
}

impl FromNumber for ProcessEnd {
    ghost value_of = { end_of };

    fn from_number(number: u64) -> Option<ProcessEnd> {
        match number {
            1000..=1255 => Some(ProcessEnd::Exited((number - 1000) as u8)),
            2001..=2031 => Some(ProcessEnd::Signalled((number - 2000) as u8)),
            _ => None,
        }
    }
}

// None is a child that goes on.
impl FromNumber for Option<ProcessEnd> {
    ghost value_of = { poll_of };

    fn from_number(number: u64) -> Option<Option<ProcessEnd>> {
        match number {
            0 => Some(None),
            _ => ProcessEnd::from_number(number).map(Some),
        }
    }
}

impl FromNumber for SpawnOptions {
    ghost value_of = { options_of };

    fn from_number(number: u64) -> Option<SpawnOptions> {
        let sum = u8::try_from(number).ok()?;
        SpawnOptions::try_from(sum).ok()
    }
}

impl FromNumber for () {
    ghost value_of = { nothing_of };

    fn from_number(number: u64) -> Option<()> {
        (number == 0).then_some(())
    }
}
