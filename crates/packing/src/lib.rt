// Blocks into the packed form and back, by delta swaps.
#![tactic(auto)]

ghost use Rattle.std.specs.Prelude.{◌≡◌, [], ◌∷◌};
ghost use Rattle.blocks.specs.Bits.{rearranged};
ghost use Rattle.words.specs.Words.{unpacked};
ghost use Rattle.packing.specs.Bytes.{reversed, scattered};

use bits::swapmove;

// Four bytes in one word, a lowest, the bits of each as `scattered` has them.
fn gather(a: u8, b: u8, c: u8, d: u8) -> u32
    ensures { scattered result ≡ d ∷ c ∷ b ∷ a ∷ [] }
{
    swapmove(u32::from_le_bytes([a, b, c, d]), 0x0a0a_0a0a, 3)
}

// The bytes of a word, highest first.
fn scatter(x: u32) -> [u8; 4]
    ensures { result ≡ scattered x }
{
    swapmove(x, 0x0a0a_0a0a, 3).to_be_bytes()
}

// Bits 0 and 1 of a word's number change places with bits 2 and 1 of a place in it.
fn transpose(w: [u32; 4]) -> [u32; 4]
    ensures { unpacked result ≡ rearranged (reversed 5) (unpacked w) }
{
    let t = ((w[0] >> 4) ^ w[1]) & 0x0f0f_0f0f;
    let u = ((w[2] >> 4) ^ w[3]) & 0x0f0f_0f0f;
    let a = w[0] ^ t << 4;
    let b = w[1] ^ t;
    let c = w[2] ^ u << 4;
    let d = w[3] ^ u;
    let v = ((a >> 2) ^ c) & 0x3333_3333;
    let x = ((b >> 2) ^ d) & 0x3333_3333;
    [a ^ v << 2, b ^ x << 2, c ^ v, d ^ x]
}

pub fn pack(b: [u8; 16]) -> [u32; 4]
    ensures { unpacked result ≡ b }
{
    transpose([
        gather(b[15], b[11], b[7], b[3]),
        gather(b[13], b[9], b[5], b[1]),
        gather(b[14], b[10], b[6], b[2]),
        gather(b[12], b[8], b[4], b[0]),
    ])
}

pub fn unpack(s: [u32; 4]) -> [u8; 16]
    ensures { result ≡ unpacked s }
{
    let w = transpose(s);
    let a = scatter(w[0]);
    let b = scatter(w[1]);
    let c = scatter(w[2]);
    let d = scatter(w[3]);
    [
        d[0], b[0], c[0], a[0], d[1], b[1], c[1], a[1], d[2], b[2], c[2], a[2], d[3], b[3], c[3],
        a[3],
    ]
}
