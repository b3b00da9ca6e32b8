// What no sample says that passes: scripts without answers, with other ones, and with faulty lines.
use super::*;
use std::process::Abort;
use std::test::Fail;

fn says(
    rt: &(impl Abort + AllocGlobal),
    sample: &str,
    text: &str,
    differing: u64,
) -> Result<(), Fail> {
    let report = replay(rt.alloc(), sample)?;
    assert_eq!(rt; report.text.as_str(), text);
    let tally = Tally {
        differing,
        ..Tally::default()
    };
    assert_eq!(rt; report.tally, tally);
    Ok(())
}

#[test]
fn a_script_without_answers_is_printed(rt: HostRuntime) -> Result<(), Fail> {
    let sample = "%% start\nM\t9\t1\na\t100\nc\tstart\ns\tc\t0\nl\t1\n";
    let text =
        "%% start\n1\tM\t0\t0\n2\ta\t0\t0\n3\tc\t0\t1\n4\ts\t0\t1\nj\t1\t0\t0\t100\n5\tl\t0\t1\n";
    says(&rt, sample, text, 0)
}

#[test]
fn one_changed_byte_is_told(rt: HostRuntime) -> Result<(), Fail> {
    let sample = "%% a\nM\t0\t1\na\t\nl\t0\nl\t0\n\
        %= the Rust\n1\tM\t0\t0\n2\ta\t0\t0\n3\tl\t0\t0\n4\tl\t0\t1\n";
    says(&rt, sample, "%% a differs\n- 3\tl\t0\t0\n+ 3\tl\t0\t1\n", 1)
}

#[test]
fn a_faulty_line_is_told(rt: HostRuntime) -> Result<(), Fail> {
    says(
        &rt,
        "%% a\nM\t0\t1\na\t\nt\tfail\tkillpg\t3\n",
        "%% a faulty 3\n",
        1,
    )?;
    says(&rt, "%% a\nM\t16\t1\na\t\n", "%% a faulty 1\n", 1)?;
    says(&rt, "%% a\nM\t0\t1\nc\tstart\n", "%% a faulty 2\n", 1)
}
