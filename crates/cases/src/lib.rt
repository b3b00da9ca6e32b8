// What scripts don't show of runs: the states of a job, the counts of starts and orders, and sheets.
#![tactic(auto)]

#[cfg(test)]
mod bench;
#[cfg(test)]
mod jobs;
#[cfg(test)]
mod runs;
