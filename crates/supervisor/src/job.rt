// A job, and what holds of every job.
ghost use Rattle.std.specs.Prelude.{◌≡◌, ◌^◌, ◌≤◌, true, false, []};
ghost use Rattle.task.specs.Task.{GrantMeansRunning};
ghost use Rattle.supervisor.specs.Sound.{HasAllPlaces, IsInOrder};
ghost use Rattle.task.specs.View.{task_view};
ghost use Rattle.supervisor.specs.View.{mailbox_view};

use crate::mailbox::Mailbox;
// A step needs a sheet of so many places.
pub use task::conduct::LEAST_PLACES;
use task::task::Task;

// One command with its task and its mailbox. A closed job takes no step any more.
#[derive(Drop)]
pub struct Job {
    closed: bool,
    task: Task,
    mailbox: Mailbox,
    // The time of the last accepted step.
    clock: u64,
    ghost in_order: { closed ≡ false → IsInOrder [] (mailbox_view mailbox) },
    // Of a closed job too, so it stands beside `in_order`.
    ghost full: { HasAllPlaces (mailbox_view mailbox) },
    ghost granted: { GrantMeansRunning (task_view task) },
    // A closed job holds no grant.
    ghost yielded: { closed ≡ true → (task_view task).foreground.grant ≡ false },
    ghost timely: { clock ≤ 2 ^ 62 },
}

mod looking;
mod making;
mod pauses;
mod sends;
mod steps;
