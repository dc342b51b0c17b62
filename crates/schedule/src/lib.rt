// Round keys and constants on the 16 bytes of a block.
#![tactic(auto)]

ghost use Rattle.std.specs.Prelude.{◌≡◌, ◌%◌, ◌<◌};
ghost use Rattle.blocks.specs.Bytes.{◌⊕◌};
ghost use Rattle.baksheesh.specs.Baksheesh.{rounds, constant, rotated};

use baksheesh::ROUNDS;
use std::array::from_fn;

pub fn add(s: [u8; 16], t: [u8; 16]) -> [u8; 16]
    ensures { result ≡ s ⊕ t }
{
    from_fn(|i| s[i] ^ t[i])
}

const CONSTANTS: [u8; ROUNDS] = *b"\
    \x02\x21\x10\x09\x24\x13\x28\x35\x1a\x0d\x26\x33\x38\x3d\x3e\x1f\x0e\x07\
    \x22\x31\x18\x2d\x36\x3b\x1c\x2f\x16\x2b\x14\x0b\x04\x03\x20\x11\x08";

// What round n + 1 adds: six bits, each at its tap.
pub fn constant(n: usize) -> [u8; 16]
    requires { n < rounds }
    ensures { result ≡ constant n }
{
    let c = CONSTANTS[n];
    let t106 = c >> 3 & 0x04;
    let t67 = c >> 1 & 0x08;
    let t35 = c & 0x08;
    let t19 = c << 1 & 0x08;
    let low = c & 0x01 ^ c << 4 & 0x20;
    [0, 0, t106, 0, 0, 0, 0, t67, 0, 0, 0, t35, 0, t19, low, 0]
}

// The key, rotated right by n: each byte takes bits of two neighbours.
pub fn rotate(k: [u8; 16], n: usize) -> [u8; 16]
    requires { (n < 128) × (0 < n % 8) }
    ensures { result ≡ rotated n k }
{
    from_fn(|i| {
        let j = i + 16 - n / 8;
        k[j % 16] >> n % 8 ^ k[(j + 15) % 16] << 8 - n % 8
    })
}
