// Pauses: a caller says by which signal the child was stopped or continued.
ghost use Rattle.std.specs.Prelude.{◌≡◌};
ghost use Rattle.supervisor.specs.Job as Spec;
ghost use Rattle.supervisor.specs.Steps.{Answers, job_view};

use super::Job;
use crate::errors::Refusal;
use crate::sends::MOST_SIGNAL;

impl Job {
    // Whether a pause by this signal may be added.
    fn may_pause(&self, signal: u8) -> Result<(), Refusal>
        ensures { result ≡ Spec.may_pause signal (job_view self.now) }
    {
        if self.closed {
            return Err(Refusal::Closed);
        }
        if signal == 0 || signal > MOST_SIGNAL {
            return Err(Refusal::Signal);
        }
        if !self.task.foreground.watch {
            return Err(Refusal::Unwatched);
        }
        if self.task.foreground.pauses.room() == 0 {
            return Err(Refusal::Pauses);
        }
        Ok(())
    }

    // Adds a pause by this signal, which a pause step takes.
    pub fn pause(&mut self, signal: u8) -> Result<(), Refusal>
        ensures { Answers (Spec.pause signal) self.old result self.new }
    {
        self.may_pause(signal)?;
        self.task.foreground.pauses.push(signal);
        Ok(())
    }
}
