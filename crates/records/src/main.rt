// Plain sealing and opening: records, the messages that they open to, and refusals.
#![tactic(auto)]

ghost use Rattle.std.specs.Prelude.{◌<◌, ◌≤◌, length};

use plain_sealing::PlainRefusal;
use receiver::{OpenRefusal, Receiver};
use show::Hex;
use std::io;
use window::Window;

const NUMBER: u32 = 0x01020304;

// Both ends of a link: the keys and the width that records are sealed under, and the receiver that opens them.
#[derive(Clone, Copy)]
struct Line {
    keys: [u8; 32],
    wide: u32,
    receiver: Receiver,
}

impl Line {
    fn keyed(wide: u32, keys: [u8; 32]) -> Line {
        let keying = Receiver::fresh().key(NUMBER, wide, &keys);
        Line {
            keys,
            wide,
            receiver: keying.link,
        }
    }

    fn seal(&self, sequence: u64, message: &[u8], out: &mut [u8]) -> Result<usize, PlainRefusal> {
        plain_sealing::seal(&self.keys, NUMBER, self.wide, sequence, message, out)
    }

    // Opens a record; the window has moved where it was accepted.
    fn open(&mut self, record: &[u8], out: &mut [u8]) -> Result<usize, OpenRefusal> {
        let opening = self.receiver.open(record, out);
        self.receiver = opening.link;
        opening.answer
    }
}

// Prints what was tried, and the number of its answer.
fn tried<T: Drop, E: Into<u32>>(
    rt: &impl Print,
    what: &str,
    answer: Result<T, E>,
) -> io::Result<()> {
    println!(rt; "{what} {}", answers::code(answer))
}

// Prints the message that a record opens to.
fn open_record(rt: &impl Print, line: &mut Line, record: &[u8]) -> io::Result<()> {
    let mut message = [0u8; 256];
    if let Ok(len) = line.open(record, &mut message) {
        print!(rt; "open {len} ")?;
        show::front(rt, &message, len)?;
    }
    Ok(())
}

// Prints the record of a message, and opens it; the output is as long as the record.
fn seal_and_open(
    rt: &impl Print,
    line: &mut Line,
    sequence: u64,
    message: &[u8],
    out: &mut [u8],
) -> io::Result<()> {
    let _ = line.seal(sequence, message, out);
    println!(rt; "seal {} {}", message.len(), Hex(out))?;
    open_record(rt, line, out)
}

// Messages of these lengths, under the numbers from 1 up.
fn messages(rt: &impl Print, line: &mut Line, message: &[u8; 256]) -> io::Result<()> {
    for (i, n) in [0, 1, 15, 16, 17, 31, 32, 255, 256].iter().enumerate() {
        let mut record = [0u8; 280];
        seal_and_open(
            rt,
            line,
            i as u64 + 1,
            &message[..*n],
            &mut record[..*n + 24],
        )?;
    }
    Ok(())
}

fn refused_seals(rt: &impl Print, line: &Line, message: &[u8]) -> io::Result<()> {
    let mut record = [0u8; 281];
    let mut short_record = [0u8; 40];
    let long = line.seal(1, &[0; 257], &mut record);
    tried(rt, "seal 257 bytes", long)?;
    let zero = line.seal(0, message, &mut record);
    tried(rt, "seal sequence 0", zero)?;
    let short_keys = plain_sealing::seal(&[0; 31], NUMBER, 0, 1, message, &mut record);
    tried(rt, "seal keys of 31 bytes", short_keys)?;
    let short = line.seal(1, message, &mut short_record);
    tried(rt, "seal output one short", short)
}

// Prints the number that opening gives.
fn try_open(rt: &impl Print, what: &str, line: &mut Line, record: &[u8]) -> io::Result<()> {
    let mut out = [0u8; 256];
    tried(rt, what, line.open(record, &mut out))
}

// Prints the number that opening gives for the record with one byte raised by 1.
fn try_damaged(
    rt: &impl Print,
    what: &str,
    line: &mut Line,
    record: [u8; 41],
    at: usize,
) -> io::Result<()>
    requires { at < 41 }
{
    let mut damaged = record;
    damaged[at] = record[at].wrapping_add(1);
    try_open(rt, what, line, &damaged)
}

// Refusals before the tag is looked at; the record is of 17 bytes.
fn refused_unread(rt: &impl Print, line: &mut Line, record: [u8; 41]) -> io::Result<()> {
    let mut out = [0u8; 256];
    let mut short_out = [0u8; 16];
    tried(
        rt,
        "open not keyed",
        Receiver::fresh().open(&record, &mut out).answer,
    )?;
    try_open(rt, "open 23 bytes", line, &[0; 23])?;
    try_open(rt, "open 281 bytes", line, &[0; 281])?;
    try_damaged(rt, "open other link", line, record, 3)?;
    tried(
        rt,
        "open output one short",
        line.open(&record, &mut short_out),
    )
}

// Refusals by the tag.
fn refused_tags(rt: &impl Print, line: &mut Line, record: [u8; 41]) -> io::Result<()> {
    try_damaged(rt, "open damaged ciphertext", line, record, 8)?;
    try_damaged(rt, "open damaged tag", line, record, 40)?;
    try_damaged(rt, "open damaged sequence", line, record, 4)
}

// The tenth record: sealing and opening it refused in many ways, then it is opened, and refused again.
fn tenth(rt: &impl Print, line: &mut Line, message: &[u8]) -> io::Result<()> {
    let mut record = [0u8; 41];
    refused_seals(rt, line, message)?;
    tried(rt, "seal 17 bytes", line.seal(10, message, &mut record))?;
    refused_unread(rt, line, record)?;
    refused_tags(rt, line, record)?;
    open_record(rt, line, &record)?;
    try_open(rt, "open again", line, &record)
}

// Seals a message under this number, and prints the number and what opening gives.
fn open_number(rt: &impl Print, line: &mut Line, message: &[u8], sequence: u64) -> io::Result<()> {
    let mut record = [0u8; 41];
    let mut out = [0u8; 17];
    let _ = line.seal(sequence, message, &mut record);
    let number = answers::code(line.open(&record, &mut out));
    println!(rt; "open {sequence} {number}")
}

// The tenth record, and then numbers out of turn: at the window's edges, and again.
fn from_the_tenth(rt: &impl Print, line: &mut Line, message: &[u8]) -> io::Result<()> {
    tenth(rt, line, message)?;
    for sequence in [74, 11, 11, 10, 73, 138, 74, 75] {
        open_number(rt, line, message, sequence)?;
    }
    Ok(())
}

// Numbers and lengths that one width has and the other not; records on a link of the other width.
fn refused_widths(rt: &impl Print, keys: [u8; 32], message: &[u8]) -> io::Result<()> {
    let mut narrow_record = [0u8; 41];
    let mut wide_record = [0u8; 45];
    let mut wide = Line::keyed(1, keys);
    let mut narrow = Line::keyed(0, keys);
    let mut beyond = narrow;
    beyond.receiver.window = Window {
        highest: 4294967296,
        accepted: 0,
    };
    tried(
        rt,
        "seal narrow 4294967296",
        narrow.seal(4294967296, message, &mut narrow_record),
    )?;
    tried(rt, "seal wide 0", wide.seal(0, message, &mut wide_record))?;
    try_open(rt, "open 27 bytes", &mut wide, &[0; 27])?;
    try_open(rt, "open 285 bytes", &mut wide, &[0; 285])?;
    let _ = narrow.seal(4294967295, message, &mut narrow_record);
    let _ = wide.seal(4294967296, message, &mut wide_record);
    try_open(rt, "open narrow record", &mut wide, &narrow_record)?;
    try_open(rt, "open wide record", &mut narrow, &wide_record)?;
    try_open(
        rt,
        "open narrow link 4294967296",
        &mut beyond,
        &narrow_record,
    )
}

// On a wide link, numbers up to the greatest.
fn wide_numbers(rt: &impl Print, keys: [u8; 32], message: &[u8]) -> io::Result<()> {
    let mut line = Line::keyed(1, keys);
    for sequence in [
        1,
        4294967295,
        4294967296,
        18446744073709551614,
        18446744073709551615,
    ] {
        let mut record = [0u8; 45];
        seal_and_open(rt, &mut line, sequence, message, &mut record)?;
    }
    Ok(())
}

// Under other keys.
fn widths(rt: &impl Print, message: &[u8]) -> io::Result<()> {
    let mut keys = [0u8; 32];
    show::fill(&mut keys, 2, 5);
    refused_widths(rt, keys, message)?;
    wide_numbers(rt, keys, message)
}

fn main(rt: HostRuntime) -> io::Result<()> {
    let mut keys = [0u8; 32];
    let mut message = [0u8; 256];
    let mut short_message = [0u8; 17];
    show::fill(&mut keys, 0, 1);
    show::fill(&mut message, 3, 7);
    show::fill(&mut short_message, 3, 7);
    let mut line = Line::keyed(0, keys);
    messages(&rt, &mut line, &message)?;
    from_the_tenth(&rt, &mut line, &short_message)?;
    widths(&rt, &short_message)
}
