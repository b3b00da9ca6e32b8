// What no stored script shows: a line of the most bytes, and texts behind `c` that are no send.
use super::*;
use drive::calls::{Done, Tally, Value};
use host::journal::{Answer, CallKind, Record};
use std::process::Abort;
use std::test::Fail;
use supervisor::job::LEAST_PLACES;

fn is_faulty(rt: &(impl Abort + AllocGlobal), line: &str) -> Result<(), Fail> {
    let script = format!(in rt.alloc(); "{line}\n")?;
    let printed = rehearse(rt.alloc(), script.as_bytes())?;
    assert_eq!(rt; printed.as_str(), "13\t1\n", "{line:?}");
    Ok(())
}

#[test]
fn the_longest_line_fits_with_its_records(rt: HostRuntime) -> Result<(), Fail> {
    let done = Done {
        answer: Ok(Value::Ticket(u32::MAX.into())),
        records: usize::MAX,
        tally: Tally::default(),
    };
    let record = Record {
        call: CallKind::Release,
        child: u32::MAX,
        number: u32::MAX,
        answer: Answer::Child(u32::MAX),
    };
    let mut text = String::new(rt.alloc());
    write_line(
        &mut text,
        usize::MAX,
        '\u{10ffff}',
        done,
        &[record; LEAST_PLACES],
    )?;
    assert_eq!(&rt; text.len(), 39 + 8 * 38);
    let mut lines = text.as_str().lines();
    assert_eq!(&rt;
        lines.next(),
        Some("18446744073709551615\t\u{10ffff}\t0\t4294967295")
    );
    for line in lines {
        assert_eq!(&rt; line, "j\t13\t4294967295\t4294967295\t4294967295");
    }
    Ok(())
}

#[test]
fn a_text_that_is_no_send_is_faulty(rt: HostRuntime) -> Result<(), Fail> {
    let lines = [
        "c\t",
        "c\t\tsignal\t1",
        "c\t15\t500",
        "c\tStart",
        "c\tstart\t1\t2",
        "c\tsignal\t1\t",
        "c\tsignals\t1",
        "c\tstop_with_signal\t15\t\t500",
        "c\tstop_with_signal\t15 500",
        "c\tdelete_with_signal\t15\t500",
    ];
    for line in lines {
        is_faulty(&rt, line)?;
    }
    Ok(())
}
