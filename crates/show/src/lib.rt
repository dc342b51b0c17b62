// What the programs print, and the bytes that they work on.
#![tactic(auto)]

use std::{fmt, io};

// Bytes as they are printed: in hexadecimal digits, or `-` for none.
#[derive(Clone, Copy)]
pub struct Hex<'a>(pub &'a [u8]);

impl fmt::Display for Hex<'_> {
    fn fmt<W: fmt::Write>(&self, f: &mut fmt::Formatter<W>) -> fmt::Result {
        if self.0.is_empty() {
            return f.write_str("-");
        }
        for x in self.0 {
            write!(f, "{x:02x}")?;
        }
        Ok(())
    }
}

// Fills the slice with bytes that begin at `first` and rise by `step`, modulo 256.
pub fn fill(out: &mut [u8], first: u8, step: u8) {
    let mut next = first;
    for x in out {
        *x = next;
        next = next.wrapping_add(step);
    }
}

// Bytes as they are printed; they end the line.
pub fn bytes(rt: &impl Print, s: &[u8]) -> io::Result<()> {
    rt.println(Hex(s))
}

// The first n of the bytes, or all of them where there are fewer.
pub fn front(rt: &impl Print, s: &[u8], n: usize) -> io::Result<()> {
    bytes(rt, &s[..n.min(s.len())])
}
