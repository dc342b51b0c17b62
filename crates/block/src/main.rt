// Reads a key and a block of 16 bytes each, and prints the ciphertext in hexadecimal; for any other length, `length`.
#![tactic(auto)]

ghost use Rattle.std.specs.Prelude.{◌≡◌, ◌≤◌, length, IfOk};
ghost use Rattle.block.specs.Printed.{printed};

use std::io;
use std::io::Read;

// What is printed for an input, of which `out` may hold the text.
#[tactic(auto, unfolding(crate::specs::Printed::printed))]
fn answer<'a>(input: &[u8], out: &'a mut [u8; 33]) -> &'a [u8]
    ensures { result.now ≡ printed input.now }
{
    if input.len() != 32 {
        return b"length\n";
    }
    let key = blocks::bytes_at(input, 0);
    let block = blocks::bytes_at(input, 16);
    let text = hex_digits::digits(packed::encrypt(key, block));
    out[..32].copy_from_slice(&text);
    out[32] = b'\n';
    out
}

// What is read until the buffer is full or the input ends.
fn read_full<'a>(input: &mut impl Read, buffer: &'a mut [u8; 33]) -> io::Result<&'a [u8]>
    ensures { IfOk result (λ s. length s.now ≤ 33) }
{
    let mut n = 0;
    for _ in 0..u64::MAX {
        if n == 33 {
            break;
        }
        match input.read(&mut buffer[n..]) {
            Ok(0) => break,
            Ok(k) => n += k,
            Err(e) => {
                if e.kind() != io::ErrorKind::Interrupted {
                    return Err(e);
                }
            }
        }
    }
    Ok(&buffer[..n])
}

// Reads one byte more than key and block have, so that a longer input shows.
fn main(rt: HostRuntime) -> io::Result<()> {
    let mut buffer = [0; 33];
    let input = read_full(&mut rt.stdin(), &mut buffer)?;
    rt.write_all(answer(input, &mut [0; 33]))
}
