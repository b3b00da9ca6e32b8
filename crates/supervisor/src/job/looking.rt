// Looking at tickets, and collecting them.
ghost use Rattle.std.specs.Prelude.{◌≡◌};
ghost use Rattle.tickets.specs.Tickets.{mark_of};
ghost use Rattle.supervisor.specs.Job as Spec;
ghost use Rattle.supervisor.specs.Steps.{Answers, job_view};

use super::Job;
use crate::errors::Refusal;
use tickets::flag::Mark;
use tickets::ticket::Ticket;

impl Job {
    // Whether a held ticket is raised, or the job is closed.
    fn is_done(&self, serial: u32) -> Result<bool, Refusal>
        ensures { let v = job_view self.now in
            result ≡ Spec.is_done v.closed (mark_of serial v.mailbox.tickets.table) }
    {
        match self.mailbox.tickets.mark(serial) {
            None | Some(Mark::Unheld) => Err(Refusal::Unknown),
            Some(Mark::Held) => Ok(self.closed),
            Some(Mark::Raised) => Ok(true),
        }
    }

    // Whether a ticket is done: raised, or of a closed job.
    pub fn look(&self, ticket: Ticket) -> Result<bool, Refusal>
        ensures { result ≡ Spec.look ticket.serial (job_view self.now) }
    {
        if ticket == Ticket::CANCELLED {
            return Ok(true);
        }
        self.is_done(ticket.serial)
    }

    // Gives a ticket back that is done; its place is free again.
    pub fn collect(&mut self, ticket: Ticket) -> Result<(), Refusal>
        ensures { Answers (Spec.collect ticket.serial) self.old result self.new }
    {
        if ticket == Ticket::CANCELLED {
            return Ok(());
        }
        if !self.is_done(ticket.serial)? {
            return Err(Refusal::Waiting);
        }
        self.mailbox.vacate(ticket.serial);
        Ok(())
    }
}
