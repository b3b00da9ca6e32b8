// The text that is printed. What a line prints is formed in a buffer, and then added to it.
ghost use Rattle.std.specs.Prelude.{◌≡◌, ◌+◌, ◌*◌, ◌≤◌, ◌∷◌, ◌++◌, length, take, OnOk, string_bytes};
ghost use Rattle.std.specs.List.{flat_map};
ghost use Rattle.arrayvec.specs.ArrayString.{array_string_len};
ghost use Rattle.rehearsal.specs.Printed.{result_text, fault_text, line_text, record_text};

use crate::script::ScriptFault;
use arrayvec::ArrayString;
use drive::calls::{Done, Value};
use host::journal::Record;
use itoa::{Buffer, Integer};
use std::alloc::AllocError;
use supervisor::errors::Refusal;
use supervisor::job::LEAST_PLACES;

// What a line prints is formed in so many bytes, with the records of a step.
const ROOM: usize = 512;

// The most bytes of a line's number (20), letter (4), refusal (3) and value (10), with three tabs
// and a line feed.
const MOST_OF_ANSWER: usize = 41;

// The most bytes of a record: its letter and its numbers (3, 10, 10 and 20), with four tabs and a
// line feed.
const MOST_OF_RECORD: usize = 49;

const _: () = prove!(MOST_OF_ANSWER + LEAST_PLACES * MOST_OF_RECORD <= ROOM);

pub(crate) type LineBuffer = ArrayString<ROOM>;

fn add_number<N: Integer>(line: &mut LineBuffer, n: N)
    requires { array_string_len line.old + N.MAX_STR_LEN ≤ ROOM }
    ensures adds { line.new.bytes ≡ line.old.bytes ++ N.text n }
    ensures grows { array_string_len line.new ≤ array_string_len line.old + N.MAX_STR_LEN }
{
    line.push_str(Buffer::new().format(n));
}

// A field that is not the first stands behind a tab.
fn add_field<N: Integer>(line: &mut LineBuffer, n: N)
    requires { array_string_len line.old + N.MAX_STR_LEN + 1 ≤ ROOM }
    ensures adds { line.new.bytes ≡ line.old.bytes ++ 9 ∷ N.text n }
    ensures grows { array_string_len line.new ≤ array_string_len line.old + N.MAX_STR_LEN + 1 }
{
    line.push_str("\t");
    add_number(line, n);
}

// The number of a faulty line, behind that of the refusal; 0 stands for a script that is too long.
pub(crate) fn fault_line(fault: ScriptFault) -> LineBuffer
    ensures { result.bytes ≡ fault_text fault }
{
    let number = match fault {
        ScriptFault::TooLong => 0,
        ScriptFault::Line(number) => number,
    };
    let mut line = LineBuffer::new();
    add_number(&mut line, u8::from(Refusal::Line));
    add_field(&mut line, number);
    line.push_str("\n");
    line
}

// The number of a line, its letter, refusal and value.
fn answer_line(number: usize, letter: char, answer: Result<Value, Refusal>) -> LineBuffer
    ensures text { result.bytes ≡ result_text number letter answer }
    ensures short { array_string_len result ≤ MOST_OF_ANSWER }
{
    let (refusal, value) = match answer {
        Ok(value) => (0, u32::from(value)),
        Err(refusal) => (u8::from(refusal), 0),
    };
    let mut line = LineBuffer::new();
    add_number(&mut line, number);
    line.push_str("\t");
    line.push_str(letter.encode_utf8(&mut [0; 4]));
    add_field(&mut line, refusal);
    add_field(&mut line, value);
    line.push_str("\n");
    line
}

// A record of a step.
fn add_record(line: &mut LineBuffer, entry: &Record)
    requires { array_string_len line.old + MOST_OF_RECORD ≤ ROOM }
    ensures adds { line.new.bytes ≡ line.old.bytes ++ record_text entry.now }
    ensures grows { array_string_len line.new ≤ array_string_len line.old + MOST_OF_RECORD }
{
    line.push_str("j");
    add_field(line, u8::from(entry.call));
    add_field(line, entry.child);
    add_field(line, entry.number);
    add_field(line, i64::from(entry.answer));
    line.push_str("\n");
}

fn add_records(line: &mut LineBuffer, records: &[Record])
    requires { array_string_len line.old + length records.now * MOST_OF_RECORD ≤ ROOM }
    ensures { line.new.bytes ≡ line.old.bytes ++ flat_map record_text records.now }
{
    for record in records {
        add_record(line, record);
    }
}

// Adds what the line of this number prints: its letter, refusal and value, and the records that it
// wrote on the sheet.
pub fn write_line(
    text: &mut String,
    number: usize,
    letter: char,
    done: Done,
    sheet: &[Record; LEAST_PLACES],
) -> Result<(), AllocError>
    ensures { OnOk result (string_bytes text.new ≡ string_bytes text.old
        ++ line_text number letter done.answer (take done.records sheet.now)) }
{
    let mut line = answer_line(number, letter, done.answer);
    add_records(&mut line, &sheet[..done.records.min(LEAST_PLACES)]);
    text.push_str(line.as_str())
}
