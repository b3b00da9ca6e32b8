// The terminals whose foreground a job may grant.
#![tactic(auto)]

pub mod absent;
mod console;
mod device;
pub mod disposition;
pub mod group;
pub mod session;
pub mod simulated;
