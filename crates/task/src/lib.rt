// The task of a job: its controls, its poll of the child and its pauses, on a host and a terminal that are lent to it.
#![tactic(auto)]

mod asking;
pub mod conduct;
mod controls;
pub mod messages;
mod parts;
mod pausing;
mod polling;
mod step;
pub mod task;
