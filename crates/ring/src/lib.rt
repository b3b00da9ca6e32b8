// Rings and bounded queues: first in, first out, over any type that can be copied.
#![tactic(auto)]

pub mod queue;
pub mod slots;
#[cfg(test)]
mod tests;
