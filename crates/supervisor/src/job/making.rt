// Making a job, and asking it.
ghost use Rattle.std.specs.Prelude.{◌≡◌};
ghost use Rattle.supervisor.specs.Job as Spec;
ghost use Rattle.supervisor.specs.Steps.{job_view, view_made};

use super::Job;
use crate::errors::Refusal;
use crate::mailbox::Mailbox;
use host::command::{Command, SpawnOptions};
use host::state::CommandState;
use task::task::{Foreground, Settings, Task};

impl Job {
    // A fresh job for the program of this number, with the options that are the sum of these marks.
    pub fn new(program: u8, options: u8) -> Result<Job, Refusal>
        ensures { view_made result ≡ Spec.make program options }
    {
        if program == 0 {
            return Err(Refusal::Number);
        }
        let options = SpawnOptions::try_from(options)?;
        let task = Task {
            command: Command { program, options },
            settings: Settings::default(),
            state: CommandState::Pending,
            previous: None,
            foreground: Foreground::default(),
        };
        Ok(Job {
            closed: false,
            task,
            mailbox: Mailbox::new(),
            clock: 0,
        })
    }

    // The command that the job manages.
    pub fn command(&self) -> Command
        ensures { result ≡ (job_view self.now).task.command }
    {
        self.task.command
    }

    // Whether the job was closed.
    pub fn is_dead(&self) -> bool
        ensures { result ≡ (job_view self.now).closed }
    {
        self.closed
    }

    // Whether a child runs.
    pub fn is_running(&self) -> bool
        ensures { result ≡ Spec.runs (job_view self.now) }
    {
        !self.closed && self.task.state.is_running()
    }

    // The state of the command.
    pub fn state(&self) -> CommandState
        ensures { result ≡ (job_view self.now).task.state }
    {
        self.task.state
    }
}
