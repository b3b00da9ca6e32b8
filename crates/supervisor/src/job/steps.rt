// The steps of a job: a control step carries out one control, a child step polls the child, a pause step takes one pause.
ghost use Rattle.std.specs.Prelude.{◌≡◌};
ghost use Rattle.supervisor.specs.Job as Spec;
ghost use Rattle.supervisor.specs.Laws.{IfAccepted, Continues, NormalWaits, RaisesAtEnd, TakesWhenDue};
ghost use Rattle.supervisor.specs.Steps.{job_view, moment, StepsOrRefuses};

use super::Job;
use crate::answers::{Progress, StepKind, Stepped};
use crate::errors::Refusal;
use host::fault::Fault;
use host::journal::Record;
use host::process::Host;
use host::terminal::Terminal;
use task::conduct;
use task::conduct::LEAST_PLACES;

// The latest time, in milliseconds.
const LATEST: u64 = 1 << 62;

impl Job {
    fn check_open(&self) -> Result<(), Refusal>
        ensures { result ≡ Spec.check_open (job_view self.now) }
    {
        if self.closed {
            return Err(Refusal::Closed);
        }
        Ok(())
    }

    fn check_time(&self, time: u64) -> Result<(), Refusal>
        ensures { result ≡ Spec.check_time time (job_view self.now) }
    {
        if time < self.clock || time > LATEST {
            return Err(Refusal::Clock);
        }
        Ok(())
    }

    // Host, terminal and sheet come one by one, since a caller may own them apart: a struct of loans would be made for each step, and
    // each contract would have to say that the same ones are lent after it. The three steps are no cases of one function: what is done
    // before and after the task's work differs, and the work is `conduct`.

    /// Takes the next control and carries it out. The calls that are made are recorded on the sheet, from its first place on.
    pub fn control_step<H: Host, T: Terminal>(
        &mut self,
        host: &mut H,
        terminal: &mut T,
        sheet: &mut [Record],
        time: u64,
    ) -> Result<Stepped, Refusal>
        ensures stepped { StepsOrRefuses H.Host T.Terminal Spec.control_step time
            (moment self.old host.old terminal.old sheet.old) result
            (moment self.new host.new terminal.new sheet.new) }
        ensures deadline { IfAccepted result sheet.new
            (λ _. TakesWhenDue time (job_view self.old) (job_view self.new)) }
        ensures normal { IfAccepted result sheet.new
            (λ _. NormalWaits (job_view self.old) (job_view self.new)) }
        ensures continues { IfAccepted result sheet.new
            (λ records. Continues time (job_view self.old) records) }
    {
        self.check_open()?;
        let Some(places) = sheet.first_chunk_mut::<LEAST_PLACES>() else {
            return Err(Refusal::Sheet);
        };
        self.check_time(time)?;
        self.clock = time;
        let Some(received) = self.mailbox.receive(time) else {
            return Ok(Stepped {
                progress: Progress::Idle,
                records: 0,
                ordered: false,
            });
        };
        let message = received.message;
        let (outcome, records) = conduct::control(
            &mut self.task,
            host,
            terminal,
            places,
            message.control,
            time,
        );
        self.mailbox.settle(time, outcome, message.ticket);
        self.closed = outcome.closes();
        Ok(Stepped {
            progress: outcome.into(),
            records,
            ordered: received.orders_start(),
        })
    }

    /// Polls the child, if one runs, and sees to its end: tickets are raised, and a restart that is remembered is continued.
    pub fn child_step<H: Host, T: Terminal>(
        &mut self,
        host: &mut H,
        terminal: &mut T,
        sheet: &mut [Record],
        time: u64,
    ) -> Result<Stepped, Refusal>
        ensures stepped { StepsOrRefuses H.Host T.Terminal Spec.child_step time
            (moment self.old host.old terminal.old sheet.old) result
            (moment self.new host.new terminal.new sheet.new) }
        ensures ended { IfAccepted result sheet.new
            (λ records. RaisesAtEnd (job_view self.old) records (job_view self.new)) }
    {
        self.check_open()?;
        let Some(places) = sheet.first_chunk_mut::<LEAST_PLACES>() else {
            return Err(Refusal::Sheet);
        };
        self.check_time(time)?;
        self.clock = time;
        let restart = self.mailbox.memory().is_some();
        let (outcome, records) = conduct::poll(
            &mut self.task,
            host,
            terminal,
            places,
            restart,
            time,
        );
        self.mailbox.settle_poll(outcome);
        Ok(Stepped {
            progress: outcome.into(),
            records,
            ordered: false,
        })
    }

    /// Takes the oldest pause, if one waits and a child runs.
    pub fn pause_step<H: Host, T: Terminal>(
        &mut self,
        host: &mut H,
        terminal: &mut T,
        sheet: &mut [Record],
        time: u64,
    ) -> Result<Stepped, Refusal>
        ensures { StepsOrRefuses H.Host T.Terminal
            (Spec.pause_step (T.Terminal.book terminal.old).own) time
            (moment self.old host.old terminal.old sheet.old) result
            (moment self.new host.new terminal.new sheet.new) }
    {
        self.check_open()?;
        let Some(places) = sheet.first_chunk_mut::<LEAST_PLACES>() else {
            return Err(Refusal::Sheet);
        };
        self.check_time(time)?;
        self.clock = time;
        let (taken, records) = conduct::pause(&mut self.task, host, terminal, places, time);
        Ok(Stepped {
            progress: Progress::of_pause(taken),
            records,
            ordered: false,
        })
    }

    /// A step of any kind.
    pub fn step<H: Host, T: Terminal>(
        &mut self,
        kind: StepKind,
        host: &mut H,
        terminal: &mut T,
        sheet: &mut [Record],
        time: u64,
    ) -> Result<Stepped, Refusal>
        ensures { StepsOrRefuses H.Host T.Terminal
            (Spec.tree_of kind (T.Terminal.book terminal.old).own)
            time (moment self.old host.old terminal.old sheet.old) result
            (moment self.new host.new terminal.new sheet.new) }
    {
        match kind {
            StepKind::Control => self.control_step(host, terminal, sheet, time),
            StepKind::Child => self.child_step(host, terminal, sheet, time),
            StepKind::Pause => self.pause_step(host, terminal, sheet, time),
        }
    }
}
