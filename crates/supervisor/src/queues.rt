// The queues of a job, and which of their messages comes next.
ghost use Rattle.std.specs.Prelude.{◌≡◌, true, None};
ghost use Rattle.std.specs.Option.{option_map};
ghost use Rattle.supervisor.specs.Mailbox as Mail;
ghost use Rattle.supervisor.specs.View.{queues_view};

use ring::queue::Queue;
use task::messages::ControlMessage;

// Which queue a control is sent to.
#[derive(Clone, Copy)]
pub enum Priority {
    Normal,
    High,
    Urgent,
}

#[derive(Clone, Copy, Default)]
pub struct Queues {
    pub normal: Queue<ControlMessage, 128>,
    pub high: Queue<ControlMessage, 64>,
    pub urgent: Queue<ControlMessage, 16>,
}

// The queues differ in type, by their sizes, so each is an arm of its own.
impl Queues {
    // Whether a queue can take n messages more.
    pub(crate) fn has_room(&self, priority: Priority, n: usize) -> bool
        ensures { result ≡ Mail.queue_room priority n (queues_view self.now) }
    {
        let room = match priority {
            Priority::Normal => self.normal.room(),
            Priority::High => self.high.room(),
            Priority::Urgent => self.urgent.room(),
        };
        n <= room
    }

    // Adds a message to a queue that has room.
    pub(crate) fn send(&mut self, priority: Priority, message: ControlMessage)
        requires { Mail.queue_room priority 1 (queues_view self.old) ≡ true }
        ensures { queues_view self.new ≡ Mail.enqueue priority message (queues_view self.old) }
    {
        let _ = match priority {
            Priority::Normal => self.normal.push(message),
            Priority::High => self.high.push(message),
            Priority::Urgent => self.urgent.push(message),
        };
    }

    // Takes the oldest urgent message, else the oldest high one, else, unless a grace runs, the oldest normal one.
    pub(crate) fn receive(&mut self, graced: bool) -> Option<ControlMessage>
        ensures taken { Mail.next graced (queues_view self.old)
            ≡ option_map (λ message. (message, queues_view self.new)) result }
        ensures idle { result ≡ None → queues_view self.new ≡ queues_view self.old }
    {
        // Not `pop().or_else(|| ..)`: what a closure has popped, a proof doesn't know.
        if let Some(message) = self.urgent.pop() {
            return Some(message);
        }
        if let Some(message) = self.high.pop() {
            return Some(message);
        }
        if graced {
            return None;
        }
        self.normal.pop()
    }
}
