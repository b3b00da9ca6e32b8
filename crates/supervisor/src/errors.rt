// The refusals of the public calls.
ghost use Rattle.std.specs.Prelude.{◌≡◌};
ghost use Rattle.supervisor.specs.declared.errors.Refusal.TheVariants.{Number};
ghost use Rattle.supervisor.specs.Errors.{refusal_number};

use host::command::NoSum;

// Why a call was refused. A call makes its checks in this order, and a refused call changes nothing.
#[derive(Clone, Copy, Debug, PartialEq, Eq)]
pub enum Refusal {
    Closed = 1,
    Sheet = 2,
    Clock = 3,
    Signal = 4,
    Grace = 5,
    Number = 6,
    Queue = 7,
    Tickets = 8,
    Unwatched = 9,
    Pauses = 10,
    Unknown = 11,
    Waiting = 12,
    Line = 13,
}

// The number that a refusal is written with; `as` casts no type parameter, so each enum has its own impl.
impl From<Refusal> for u8 {
    ghost from_gives = { λ refusal number. number ≡ refusal_number refusal };

    fn from(refusal: Refusal) -> u8 {
        refusal as u8
    }
}

// Options that are no sum of marks are a number out of range.
impl From<NoSum> for Refusal {
    ghost from_gives = { λ _ refusal. refusal ≡ Number };

    fn from(_error: NoSum) -> Refusal {
        Refusal::Number
    }
}
