// Bodies written and read: marks at the ends of their ranges and past them, bodies in each order and with each fault.
#![tactic(auto)]

use body::Mark;
use show::Hex;
use std::io;

// What an output holds before.
const FILL: u8 = 238;

// ---- writing

// Prints the number that writing gives, and the output.
fn write_into(
    rt: &impl Print,
    seconds: u64,
    fraction: u32,
    offset: Option<i32>,
    out: &mut [u8],
) -> io::Result<()> {
    let mark = Mark {
        seconds,
        fraction,
        offset,
    };
    let code = answers::code(writing::write(mark, out));
    println!(rt; "write {code} {}", Hex(out))
}

fn write(rt: &impl Print, seconds: u64, fraction: u32, offset: Option<i32>) -> io::Result<()> {
    write_into(rt, seconds, fraction, offset, &mut [FILL; 16])
}

fn written(rt: &impl Print) -> io::Result<()> {
    write(rt, 0, 0, None)?;
    write(rt, 1772456709, 67108864, Some(60))?;
    write(rt, 72057594037927935, 268435455, Some(840))?;
    write(rt, 268435456, 1, Some(-720))?;
    write(rt, 268435455, 0, Some(-1))?;
    write(rt, 1, 2, Some(0))?;
    write_into(rt, 1, 2, None, &mut [FILL; 12])
}

fn not_written(rt: &impl Print) -> io::Result<()> {
    write(rt, 72057594037927936, 0, None)?;
    write(rt, 0, 268435456, None)?;
    write(rt, 0, 0, Some(841))?;
    write_into(rt, 0, 0, Some(-721), &mut [])?;
    write_into(rt, 0, 0, None, &mut [FILL; 11])?;
    write_into(rt, 0, 0, Some(0), &mut [FILL; 15])
}

// ---- reading

// Prints the number that reading gives, and the output.
fn read_into(rt: &impl Print, body: &[u8], out: &mut [u8]) -> io::Result<()> {
    let code = answers::code(reading::read_values(body, out));
    println!(rt; "read {code} {}", Hex(out))
}

fn read(rt: &impl Print, body: &[u8]) -> io::Result<()> {
    read_into(rt, body, &mut [FILL; 17])
}

// In the writer's order and others, with skipped words, and with the first and the last offset.
fn are_read(rt: &impl Print) -> io::Result<()> {
    read(rt, b"\x10\0\0\x01\x20\0\0\x02\x30\0\0\x03")?;
    read(rt, b"\x4f\xff\xff\xff\x30\0\0\x03\x20\0\0\x02\x10\0\0\x01")?;
    read(
        rt,
        b"\x50\0\0\0\x10\0\0\x01\xf0\0\0\0\x20\0\0\x02\x30\0\0\x03",
    )?;
    read(rt, b"\x10\0\0\x01\x20\0\0\x02\x30\0\0\x03\x40\0\x03\x48")?;
    read(rt, b"\x10\0\0\x01\x20\0\0\x02\x30\0\0\x03\x4f\xff\xfd\x30")
}

// Of a wrong length.
fn of_wrong_lengths(rt: &impl Print) -> io::Result<()> {
    read(rt, b"")?;
    read(rt, b"\x10\0\0")?;
    read(rt, &[0; 260])
}

// With a bad word, without a needed one, and into a short output.
fn not_read(rt: &impl Print) -> io::Result<()> {
    read(rt, b"\0\0\0\0")?;
    read(rt, b"\x10\0\0\x01\x20\0\0\x02\x20\0\0\x02\x30\0\0\x03")?;
    read(rt, b"\x10\0\0\x01\x20\0\0\x02\x30\0\0\x03\x40\0\x03\x49")?;
    read(rt, b"\x10\0\0\x01\x20\0\0\x02\x30\0\0\x03\x4f\xff\xfd\x2f")?;
    read(rt, b"\x10\0\0\x01\x20\0\0\x02")?;
    read(rt, b"\x50\0\0\0")?;
    read_into(rt, b"\x10\0\0\x01\x20\0\0\x02\x30\0\0\x03", &mut [FILL; 16])
}

fn main(rt: HostRuntime) -> io::Result<()> {
    written(&rt)?;
    not_written(&rt)?;
    are_read(&rt)?;
    of_wrong_lengths(&rt)?;
    not_read(&rt)
}
