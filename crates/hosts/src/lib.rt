// Hosts of a job's child processes.
#![tactic(auto)]

mod child;
mod children;
mod numbers;
pub mod prepared;
mod signals;
pub mod simulated;
