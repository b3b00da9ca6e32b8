// The controls of a job, and the messages that carry them.
ghost use Rattle.std.specs.Prelude.{◌≡◌};
ghost use Rattle.task.specs.Messages.{control_at_end, orders};

// What a job can be told to do. A grace is in milliseconds; routine, error handler, spawn hook and way of spawning are numbers. The
// default fills slots of a queue that no message has.
#[derive(Clone, Copy, Debug, Default, PartialEq, Eq)]
pub enum Control {
    #[default]
    Start,
    Stop,
    GracefulStop { signal: u8, grace: u32 },
    TryRestart,
    TryGracefulRestart { signal: u8, grace: u32 },
    // What the timer of a graceful restart brings; a caller may send it too.
    ContinueTryGracefulRestart,
    Signal(u8),
    Delete,
    NextEnding,
    Func(u8),
    SetErrorHandler(u8),
    UnsetErrorHandler,
    SetSpawnHook(u8),
    UnsetSpawnHook,
    SetSpawnFn(u8),
    ClearSpawnFn,
}

impl Control {
    // Whether the control orders a start.
    pub fn orders_start(self) -> bool
        ensures { result ≡ orders self }
    {
        matches!(
            self,
            Control::Start
                | Control::TryRestart
                | Control::TryGracefulRestart { .. }
                | Control::ContinueTryGracefulRestart
        )
    }
}

// What a grace ends with that the child outlasts: the child is stopped, or replaced.
#[derive(Clone, Copy, Debug, PartialEq, Eq)]
pub enum GraceEnd {
    Stop,
    Restart,
}

// The control that the timer of such a grace brings.
impl From<GraceEnd> for Control {
    ghost from_gives = { λ end control. control ≡ control_at_end end };

    fn from(end: GraceEnd) -> Control {
        match end {
            GraceEnd::Stop => Control::Stop,
            GraceEnd::Restart => Control::ContinueTryGracefulRestart,
        }
    }
}

// A control and the ticket that is raised when it is done.
#[derive(Clone, Copy, Default)]
pub struct ControlMessage {
    pub control: Control,
    pub ticket: u32,
}
