// Scripts that were run on the Rust are run on the job, and what the two answer is compared.
#![tactic(auto)]

mod controls;
mod line;
mod numbers;
mod recorded;
mod report;
mod run;
mod session;
mod setting;
mod verdict;

pub use crate::report::{Report, replay};
pub use crate::verdict::Tally;

#[cfg(test)]
mod tests;
