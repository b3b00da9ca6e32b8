// How a child process ended, and the state of a job's command.
ghost use Rattle.std.specs.Prelude.{◌≡◌};
ghost use Rattle.host.specs.State as State;

// How a child process ended: by an exit code, by a signal, or, where a job is reset while it runs, not at all. The signal is any
// byte, since what takes an end takes each, and a type of the 31 signals would take fewer.
#[derive(Clone, Copy, Debug, PartialEq, Eq)]
pub enum ProcessEnd {
    Exited(u8),
    Signalled(u8),
    Continued,
}

// The state of a job's command. Times are in milliseconds.
#[derive(Clone, Copy, Debug, PartialEq, Eq)]
pub enum CommandState {
    Pending,
    Running {
        child: u32,
        started: u64,
    },
    Finished {
        end: ProcessEnd,
        started: u64,
        finished: u64,
    },
}

// The questions are three, with the names that they have in the Rust.
impl CommandState {
    pub fn is_pending(&self) -> bool
        ensures { result ≡ State.is_pending self.now }
    {
        matches!(self, CommandState::Pending)
    }

    pub fn is_running(&self) -> bool
        ensures { result ≡ State.is_running self.now }
    {
        matches!(self, CommandState::Running { .. })
    }

    pub fn is_finished(&self) -> bool
        ensures { result ≡ State.is_finished self.now }
    {
        matches!(self, CommandState::Finished { .. })
    }

    // Makes the state Pending, and answers what is kept of the run that was: a finished one as it is,
    // one that still runs as ended by Continued at this time.
    pub fn reset(&mut self, time: u64) -> CommandState
        ensures kept { result ≡ State.kept_run time self.old }
        ensures after { self.new ≡ CommandState.Pending }
    {
        let kept = match *self {
            CommandState::Running { started, .. } => CommandState::Finished {
                end: ProcessEnd::Continued,
                started,
                finished: time,
            },
            state => state,
        };
        *self = CommandState::Pending;
        kept
    }
}
