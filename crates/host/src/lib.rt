// What a job talks to: the host of its child processes and the terminal, their calls, books and journal.
#![tactic(auto)]

pub mod command;
pub mod fault;
pub mod journal;
pub mod process;
pub mod state;
pub mod terminal;
