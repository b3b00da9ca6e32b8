// The tickets of a job.
#![tactic(auto)]

pub mod flag;
pub mod ticket;
