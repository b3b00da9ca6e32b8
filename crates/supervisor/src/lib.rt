// A job: one command with its task, and the mailbox of the controls that are sent to it.
#![tactic(auto)]

pub mod answers;
pub mod errors;
pub mod job;
pub mod mailbox;
pub mod queues;
pub mod sends;
pub mod timer;
