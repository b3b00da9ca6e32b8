// A caller's ticket.
ghost use Rattle.std.specs.Prelude.{◌≡◌};

/// What a send answers, and what its caller asks by whether the control is done. It is known by its
/// serial, from 1 to 2^32 − 1; 0 is the cancelled ticket.
#[derive(Clone, Copy, Debug, Default, PartialEq, Eq)]
pub struct Ticket {
    pub serial: u32,
}

impl Ticket {
    /// The ticket that a closed job answers. It is done from the start.
    pub const CANCELLED: Ticket = Ticket { serial: 0 };
}

/// The ticket with this serial.
impl From<u32> for Ticket {
    ghost from_gives = { λ serial ticket. ticket.serial ≡ serial };

    fn from(serial: u32) -> Ticket {
        Ticket { serial }
    }
}

/// Its serial.
impl From<Ticket> for u32 {
    ghost from_gives = { λ ticket serial. serial ≡ ticket.serial };

    fn from(ticket: Ticket) -> u32 {
        ticket.serial
    }
}
