// Runs of calls on a job.
#![tactic(auto)]

pub mod calls;
pub mod runs;
