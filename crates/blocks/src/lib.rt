// Parts of a slice: read and written as numbers, blocks and bytes.
#![tactic(auto)]

ghost use Rattle.std.specs.Prelude.{◌≡◌, ◌++◌, ◌+◌, ◌≤◌, length, take};
ghost use Rattle.blocks.specs.Bytes.{same_bytes, big_endian, value, part, put};

// The number that the w bytes from `at` say.
pub fn number_at(s: &[u8], at: usize, w: usize) -> u64
    requires { (w ≤ 8) × (at + w ≤ length s.now) }
    ensures { result ≡ value (part at w s.now) }
{
    let mut number = 0;
    for byte in &s[at..at + w] {
        number = number * 256 + u64::from(*byte);
    }
    number
}

// The number that the four bytes from `at` say.
pub fn word_at(s: &[u8], at: usize) -> u32
    requires { at + 4 ≤ length s.now }
    ensures { result ≡ value (part at 4 s.now) }
{
    number_at(s, at, 4) as u32
}

// Writes the lowest w bytes of `x` from `at`, the last one first.
pub fn put_number(out: &mut [u8], at: usize, w: usize, x: u64)
    requires { (w ≤ 8) × (at + w ≤ length out.old) }
    ensures { out.new ≡ put at (big_endian w x) out.old }
{
    let mut rest = x;
    for i in (0..w).rev() {
        out[at + i] = (rest % 256) as u8;
        rest /= 256;
    }
}

// Writes the bytes of `src` from `at`.
pub fn put_bytes(src: &[u8], out: &mut [u8], at: usize)
    requires { at + length src.now ≤ length out.old }
    ensures { out.new ≡ put at src.now out.old }
{
    out[at..at + src.len()].copy_from_slice(src);
}

// The N bytes from `at`.
pub fn bytes_at<const N: usize>(s: &[u8], at: usize) -> [u8; N]
    requires { at + N ≤ length s.now }
    ensures { result ≡ part at N s.now }
{
    let mut bytes = [0u8; N];
    bytes.copy_from_slice(&s[at..at + N]);
    bytes
}

// Three blocks, one behind the other.
pub fn three_blocks(a: [u8; 16], b: [u8; 16], c: [u8; 16]) -> [u8; 48]
    ensures { result ≡ a ++ (b ++ c) }
{
    let mut blocks = [0u8; 48];
    put_bytes(&a, &mut blocks, 0);
    put_bytes(&b, &mut blocks, 16);
    put_bytes(&c, &mut blocks, 32);
    blocks
}

// Whether the n bytes from `at` are the first of `block`: all of them are looked at.
pub fn same_at(block: [u8; 16], n: usize, s: &[u8], at: usize) -> bool
    requires { (n ≤ 16) × (at + n ≤ length s.now) }
    ensures { result ≡ same_bytes (take n block) (part at n s.now) }
{
    let mut same = true;
    for i in 0..n {
        same &= block[i] == s[at + i];
    }
    same
}
