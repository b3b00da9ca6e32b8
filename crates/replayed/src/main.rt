// Reads a sample of scripts from standard input, runs them on the job, and prints where it answers
// otherwise than was recorded.
#![tactic(auto)]

use replay::Tally;
use std::io;

fn main(rt: HostRuntime) -> anyhow::Result<()> {
    let sample = io::read_to_string(rt.alloc(), rt.stdin())?;
    let report = replay::replay(rt.alloc(), sample.as_str())?;
    print!(rt; "{}", report.text)?;
    let Tally {
        same,
        corrected,
        differing,
    } = report.tally;
    if report.tally != Tally::default() {
        println!(rt; "{same} as the Rust, {corrected} as corrected, {differing} otherwise")?;
    }
    anyhow::ensure!(differing == 0, "{differing} scripts are answered otherwise");
    Ok(())
}
