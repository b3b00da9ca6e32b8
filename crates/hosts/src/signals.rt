// Signals, and what each does to a child of the simulated host.
ghost use Rattle.std.specs.Prelude.{◌≡◌, ◌≤◌};
ghost use Rattle.hosts.specs.Signals.{has_bit, deliver, is_ignored, signal_of};

use crate::child::{End, Life};
use std::marker::Model;

pub const KILL: u8 = 9;

const CHLD: u8 = 17;

pub const CONT: u8 = 18;

pub const STOP: u8 = 19;

const TSTP: u8 = 20;

const TTIN: u8 = 21;

const TTOU: u8 = 22;

const URG: u8 = 23;

const WINCH: u8 = 28;

// A number from 1 to 31.
#[derive(Clone, Copy)]
pub struct Signal {
    number: u8,
}

impl Model for Signal {
    ghost use Rattle.std.specs.Prelude.{ℕ, ◌≤◌};

    ghost Value = { ℕ };

    ghost view = { λ s. s.number };

    ghost invariant = { λ s. (1 ≤ s.number) × (s.number ≤ 31) };

    ghost inverse = { λ n. record { number = n } };
}

// A number that is no signal's: 0, which is sent only to see whether a child is there, or one over 31.
#[derive(Clone, Copy)]
pub enum NoSignal {
    Null,
    Unknown,
}

impl TryFrom<u8> for Signal {
    type Error = NoSignal;

    ghost try_from_gives = { λ n r. r ≡ signal_of n };

    fn try_from(number: u8) -> Result<Self, NoSignal> {
        match number {
            0 => Err(NoSignal::Null),
            1..=31 => Ok(Signal { number }),
            _ => Err(NoSignal::Unknown),
        }
    }
}

impl Signal {
    pub(crate) fn number(self) -> u8
        ensures is { result ≡ self }
        ensures low { 1 ≤ result }
        ensures high { result ≤ 31 }
    {
        self.number
    }

    fn has_bit(self, mask: u32) -> bool
        ensures { result ≡ has_bit mask self }
    {
        (mask >> self.number) & 1 == 1
    }

    fn is_ignored(self, mask: u32) -> bool
        ensures { result ≡ is_ignored mask self }
    {
        !matches!(self.number, KILL | CONT | STOP) && self.has_bit(mask)
    }
}

impl Life {
    // The life once a signal was delivered.
    pub(crate) fn delivered(self, mask: u32, signal: Signal) -> Life
        ensures { result ≡ deliver mask signal self }
    {
        match (self, signal.number()) {
            (Life::Ended(_), _) => self,
            _ if signal.is_ignored(mask) => self,
            (_, CONT) => Life::Going,
            (_, STOP | TSTP | TTIN | TTOU) => Life::Stopped,
            (_, CHLD | URG | WINCH) => self,
            _ => Life::Ended(End::Signalled(signal)),
        }
    }
}
