// Steps of CTR and CMAC that do not know the cipher: a block of the text XORed, padded, doubled. The modes over any block
// function are definitions: specs/.
#![tactic(auto)]

ghost use Rattle.std.specs.Prelude.{◌≡◌, ◌+◌, ◌-◌, ◌*◌, ◌≤◌, ◌<◌, min, length};
ghost use Rattle.blocks.specs.Bytes.{◌⊕◌, part, put, piece};
ghost use Rattle.modes.specs.Cmac.{shifted, doubled, padded};

fn shift(b: [u8; 16]) -> [u8; 16]
    ensures { result ≡ shifted b }
{
    let mut r = [0u8; 16];
    for (i, next) in b[1..].iter().enumerate() {
        r[i] = (b[i] << 1) ^ (next >> 7);
    }
    r[15] = b[15] << 1;
    r
}

// Shifted left by one bit, and the highest bit times 135 XORed into the last byte: the same steps for every block.
pub fn double(b: [u8; 16]) -> [u8; 16]
    ensures { result ≡ doubled b }
{
    let mut r = shift(b);
    r[15] ^= (b[0] >> 7) * 135;
    r
}

// How many of n bytes, at most 16, stand from `from`.
pub fn width(n: usize, from: usize) -> usize
    requires { from ≤ n }
    ensures { result ≡ min 16 (n - from) }
{
    (n - from).min(16)
}

// Block j of the text; the last may be shorter.
fn piece(text: &[u8], j: usize) -> &[u8]
    requires { 16 * j ≤ length text.now }
    ensures { result.now ≡ piece j text.now }
{
    let from = 16 * j;
    &text[from..from + width(text.len(), from)]
}

// Writes block j of the text, XORed with a key block, from `at`.
pub fn put_xor(text: &[u8], j: usize, key: [u8; 16], out: &mut [u8], at: usize)
    requires { (16 * j ≤ length text.now) × (at + length (piece j text.now) ≤ length out.old) }
    ensures { out.new ≡ put at (piece j text.now ⊕ key) out.old }
{
    for (i, byte) in piece(text, j).iter().enumerate() {
        out[at + i] = byte ^ key[i];
    }
}

// The bytes from `at` to the text's end, padded.
pub fn padded_at(text: &[u8], at: usize) -> [u8; 16]
    requires { (at ≤ length text.now) × (length text.now < at + 16) }
    ensures { result ≡ padded (part at 16 text.now) }
{
    let rest = &text[at..];
    let mut block = [0u8; 16];
    block[..rest.len()].copy_from_slice(rest);
    block[rest.len()] = 0x80;
    block
}
