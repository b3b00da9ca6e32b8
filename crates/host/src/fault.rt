// The fault that answers a call.

// The code of an error, as Linux numbers them. A host may answer any code from 1 to 4095, so this is no enum. That range is no
// invariant: what takes a fault takes each number, and the book of hosts says which of them fit an answer.
#[derive(Clone, Copy, Debug, PartialEq, Eq)]
pub struct Fault {
    pub code: u16,
}

impl Fault {
    // A wait was interrupted, or its child has not ended (EINTR).
    pub const INTERRUPTED: Fault = Fault { code: 4 };
    // There is no terminal (ENXIO).
    pub const NO_TERMINAL: Fault = Fault { code: 6 };
    // The child is not on the roster (ECHILD).
    pub const NO_CHILD: Fault = Fault { code: 10 };
    // There is no room for a child (EAGAIN).
    pub const NO_ROOM: Fault = Fault { code: 11 };
    // No such signal, or another bad argument (EINVAL).
    pub const INVALID: Fault = Fault { code: 22 };
    // No answer is left (ENODATA).
    pub const NO_ANSWER: Fault = Fault { code: 61 };
}
