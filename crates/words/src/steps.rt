// The steps of a round on a block in packed form, all but the S-box.
ghost use Rattle.std.specs.Prelude.{◌≡◌, ℕ, ◌+◌, ◌-◌, ◌*◌, ◌/◌, ◌%◌, ◌<◌};
ghost use Rattle.bits.specs.Bit.{bit};
ghost use Rattle.blocks.specs.Bytes.{◌⊕◌};
ghost use Rattle.baksheesh.specs.Baksheesh.{rounds, perm_bits, constant, rotated};
ghost use Rattle.words.specs.Words.{unpacked};

use baksheesh::ROUNDS;
use bits::swapmove;

// Two words in one: in each half, bit 4a + b goes to bit a of byte 3 - b.
fn perm_words(x: u64) -> u64
    ensures { (i : ℕ) → i < 64 → bit result i ≡ bit x (32 * (i / 32) + 4 * (i % 8) + (3 - i % 32 / 8)) }
{
    let x1 = swapmove(x, 0x0a0a_0a0a_0a0a_0a0a, 3);
    let x2 = swapmove(x1, 0x00cc_00cc_00cc_00cc, 6);
    let x3 = swapmove(x2, 0x0000_f0f0_0000_f0f0, 12);
    swapmove(x3, 0x0000_00ff_0000_00ff, 24)
}

pub fn perm_bits(s: [u32; 4]) -> [u32; 4]
    ensures { unpacked result ≡ perm_bits (unpacked s) }
{
    let [a, b, c, d] = s;
    let x = perm_words(a as u64 ^ (b as u64) << 32);
    let y = perm_words(c as u64 ^ (d as u64) << 32);
    [
        ((x & 0xffff_ffff) as u32).rotate_left(8),
        ((x >> 32) as u32).rotate_left(16),
        ((y & 0xffff_ffff) as u32).rotate_left(24),
        (y >> 32) as u32,
    ]
}

pub fn add(s: [u32; 4], t: [u32; 4]) -> [u32; 4]
    ensures { unpacked result ≡ unpacked s ⊕ unpacked t }
{
    [s[0] ^ t[0], s[1] ^ t[1], s[2] ^ t[2], s[3] ^ t[3]]
}

// Each round's six constant bits, each at the place of its tap's cell: no two taps are in one cell.
const CONSTANTS: [u32; ROUNDS] = [
    0x0000_0008,
    0x0400_0004,
    0x0001_0000,
    0x0000_0104,
    0x0400_0010,
    0x0001_000c,
    0x0400_0100,
    0x0401_0014,
    0x0001_0108,
    0x0000_0114,
    0x0400_0018,
    0x0401_000c,
    0x0401_0100,
    0x0401_0114,
    0x0401_0118,
    0x0001_011c,
    0x0000_0118,
    0x0000_001c,
    0x0400_0008,
    0x0401_0004,
    0x0001_0100,
    0x0400_0114,
    0x0401_0018,
    0x0401_010c,
    0x0001_0110,
    0x0400_011c,
    0x0001_0018,
    0x0400_010c,
    0x0001_0010,
    0x0000_010c,
    0x0000_0010,
    0x0000_000c,
    0x0400_0000,
    0x0001_0004,
    0x0000_0100,
];

pub fn add_constants(s: [u32; 4], n: usize) -> [u32; 4]
    requires { n < rounds }
    ensures { unpacked result ≡ unpacked s ⊕ constant n }
{
    let c = CONSTANTS[n];
    [
        s[0] ^ (c & 0x4),
        s[1] ^ (c & 0x8),
        s[2] ^ (c & 0x0400_0000),
        s[3] ^ (c & 0x0001_0110),
    ]
}

// The key, rotated right by one.
pub fn rotate(k: [u32; 4]) -> [u32; 4]
    ensures { unpacked result ≡ rotated 1 (unpacked k) }
{
    let [a, b, c, d] = k;
    [b, c, d, a.rotate_right(1)]
}
