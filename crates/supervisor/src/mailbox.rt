// The mailbox of a job: its queues, its timer, the tickets that wait for the child's end, and the ticket table.
ghost use Rattle.std.specs.Prelude.{◌≡◌, ◌+◌, ◌^◌, ◌<◌, ◌≤◌, true, length, None, OnErr};
ghost use Rattle.std.specs.Option.{option_map};
ghost use Rattle.supervisor.specs.Mailbox as Mail;
ghost use Rattle.supervisor.specs.Sends.{list_of};
ghost use Rattle.supervisor.specs.Timers as Timers;
ghost use Rattle.supervisor.specs.View.{mailbox_view};

use crate::errors::Refusal;
use crate::queues::{Priority, Queues};
use crate::sends::Controls;
use crate::timer::Timer;
use ring::queue::Queue;
use task::messages::{Control, ControlMessage, GraceEnd};
use task::task::{Outcome, PollOutcome};
use tickets::flag::{PLACES, Tickets};

#[derive(Clone, Copy)]
pub struct Mailbox {
    pub queues: Queues,
    pub timer: Option<Timer>,
    // The ending list: the tickets that are raised when the child ends.
    pub ending: Queue<u32, PLACES>,
    pub tickets: Tickets,
}

// What brought a message.
#[derive(Clone, Copy)]
pub enum Source {
    Queue,
    Timer,
}

// A message that a control step takes.
#[derive(Clone, Copy)]
pub struct Received {
    pub message: ControlMessage,
    pub source: Source,
}

impl Received {
    // Whether a control that orders a start was taken from a queue; the timer carries out an order that was taken before.
    pub(crate) fn orders_start(self) -> bool
        ensures { result ≡ Mail.orders_start self }
    {
        match self.source {
            Source::Queue => self.message.control.orders_start(),
            Source::Timer => false,
        }
    }
}

impl Mailbox {
    // A mailbox with no messages and no tickets.
    pub(crate) fn new() -> Self
        ensures { mailbox_view result ≡ Mail.empty_mailbox }
    {
        Mailbox {
            queues: Queues::default(),
            timer: None,
            ending: Queue::default(),
            tickets: Tickets::new(),
        }
    }

    // Gives a control the next ticket, held or not, and adds it to its queue.
    fn admit(&mut self, priority: Priority, control: Control, held: bool) -> u32
        requires queue { Mail.queue_room priority 1 (mailbox_view self.old).queues ≡ true }
        requires ticket { Mail.serial_room 1 (mailbox_view self.old) ≡ true }
        ensures ticket { result ≡ (mailbox_view self.old).tickets.issued + 1 }
        ensures after { mailbox_view self.new ≡ Mail.admit priority control held
            (mailbox_view self.old) }
    {
        let ticket = self.tickets.issue(held).unwrap();
        self.queues
            .send(priority, ControlMessage { control, ticket });
        ticket
    }

    // Gives each control a ticket, the last one a held one, which is answered, and adds them to their queue; or refuses all, for
    // what they carry, or where the queue or the ticket table lacks room.
    pub(crate) fn send(&mut self, priority: Priority, controls: Controls) -> Result<u32, Refusal>
        ensures answer { (mailbox_view self.new, result) ≡ Mail.send priority (list_of controls)
            (mailbox_view self.old) }
        ensures unchanged { OnErr result (self.new ≡ self.old) }
    {
        controls.fit()?;
        let n = controls.count();
        if !self.queues.has_room(priority, n) {
            return Err(Refusal::Queue);
        }
        if !self.tickets.fits(n) {
            return Err(Refusal::Tickets);
        }
        let Some(control) = controls.before else {
            return Ok(self.admit(priority, controls.last, true));
        };
        let _ = self.admit(priority, control, false);
        Ok(self.admit(priority, controls.last, true))
    }

    // The message of the timer, if its deadline has come.
    fn due(&self, time: u64) -> Option<ControlMessage>
        ensures { result ≡ Timers.due_message time (mailbox_view self.now).timer }
    {
        self.timer
            .filter(|timer| timer.deadline <= time)
            .map(ControlMessage::from)
    }

    // Takes the timer's message if its deadline has come, and the timer is gone with it; else the next of the queues.
    pub(crate) fn receive(&mut self, time: u64) -> Option<Received>
        ensures taken { Mail.take time (mailbox_view self.old)
            ≡ option_map (λ r. (r, mailbox_view self.new)) result }
        ensures idle { result ≡ None → mailbox_view self.new ≡ mailbox_view self.old }
    {
        if let Some(message) = self.due(time) {
            self.timer = None; // with it, the restart memory is emptied
            return Some(Received {
                message,
                source: Source::Timer,
            });
        }
        let message = self.queues.receive(self.timer.is_some())?;
        Some(Received {
            message,
            source: Source::Queue,
        })
    }

    // The restart memory: the ticket of the restart that the child's end continues.
    pub(crate) fn memory(&self) -> Option<u32>
        ensures { result ≡ Timers.memory (mailbox_view self.now).timer }
    {
        match self.timer? {
            Timer {
                ticket,
                end: GraceEnd::Restart,
                ..
            } => Some(ticket),
            _ => None,
        }
    }

    // Frees the place of a ticket.
    pub(crate) fn vacate(&mut self, ticket: u32)
        ensures { mailbox_view self.new ≡ Mail.vacate_ticket ticket (mailbox_view self.old) }
    {
        self.tickets.vacate(ticket);
    }

    // Raises each ticket of the ending list, and empties the list.
    fn raise_ending(&mut self)
        ensures { mailbox_view self.new ≡ Mail.raise_endings (mailbox_view self.old) }
    {
        let tickets = &mut self.tickets;
        let (older, newer) = self.ending.as_slices();
        for &ticket in older.iter().chain(newer) {
            tickets.raise(ticket);
        }
        self.ending.clear();
    }

    // Sees to the ticket of a control that was carried out at this time.
    pub(crate) fn settle(&mut self, time: u64, outcome: Outcome, ticket: u32)
        requires time { time ≤ 2 ^ 62 }
        requires room { length (mailbox_view self.old).ending < 256 }
        ensures { mailbox_view self.new ≡ Mail.settle time outcome ticket (mailbox_view self.old) }
    {
        match outcome {
            Outcome::Settled | Outcome::Closes => self.tickets.raise(ticket),
            Outcome::Ended => {
                self.raise_ending();
                self.tickets.raise(ticket);
            }
            Outcome::Graced { grace, end } => {
                self.timer = Some(Timer {
                    deadline: time + u64::from(grace),
                    ticket,
                    end,
                });
            }
            Outcome::Joined => {
                let _ = self.ending.push(ticket);
            }
        }
    }

    // The child has ended: raises the timer's ticket, drops the timer, and raises the ending list.
    fn raise_ended(&mut self)
        ensures { mailbox_view self.new ≡ Mail.raise_at_end (mailbox_view self.old) }
    {
        if let Some(timer) = self.timer {
            self.timer = None;
            self.tickets.raise(timer.ticket);
        }
        self.raise_ending();
    }

    // Sees to the tickets that wait for the child's end, once it was polled.
    pub(crate) fn settle_poll(&mut self, outcome: PollOutcome)
        ensures { mailbox_view self.new ≡ Mail.settle_poll outcome (mailbox_view self.old) }
    {
        let memory = self.memory();
        match outcome {
            PollOutcome::Idle | PollOutcome::Faulted => {}
            PollOutcome::Over => self.raise_ended(),
            PollOutcome::Renewed => {
                self.raise_ended();
                if let Some(ticket) = memory {
                    self.tickets.raise(ticket);
                }
            }
        }
    }
}
