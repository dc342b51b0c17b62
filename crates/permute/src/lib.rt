// PermBits on the 16 bytes of a block, and back: in words, by delta swaps.
#![tactic(auto)]

ghost use Rattle.std.specs.Prelude.{◌≡◌, ℕ, ◌+◌, ◌-◌, ◌*◌, ◌/◌, ◌%◌, ◌<◌, get_or};
ghost use Rattle.bits.specs.Bit.{bit};
ghost use Rattle.baksheesh.specs.Baksheesh.{perm_bits, inv_perm_bits};
ghost use Rattle.permute.specs.InWord.{from_in_word, to_in_word};

use bits::{byte, swapmove};
use std::array::from_fn;

// The word of the bytes at i, i + n, i + 2n and i + 3n, the highest first.
fn word(s: [u8; 16], i: usize, n: usize) -> u32
    requires { i + 3 * n < 16 }
    ensures { (b : ℕ) → b < 32 → bit result b ≡ bit (get_or s (i + (3 - b / 8) * n) 0) (b % 8) }
{
    u32::from_be_bytes([s[i], s[i + n], s[i + 2 * n], s[i + 3 * n]])
}

// The bit move within a word as delta swaps, each by a mask and a distance. Each undoes itself: backwards they are the move back.
const SWAPS: [(u32, u32); 5] = [
    (0x0014_0014, 8),
    (0x0282_0282, 4),
    (0x0008_0008, 12),
    (0x0000_ff00, 8),
    (0x00f0_00f0, 4),
];

fn move_word(x: u32) -> u32
    ensures { (i : ℕ) → i < 32 → bit result i ≡ bit x (from_in_word i) }
{
    let mut y = x;
    for (mask, n) in &SWAPS {
        y = swapmove(y, *mask, *n);
    }
    y
}

fn inv_move_word(x: u32) -> u32
    ensures { (i : ℕ) → i < 32 → bit result i ≡ bit x (to_in_word i) }
{
    let mut y = x;
    for (mask, n) in SWAPS.iter().rev() {
        y = swapmove(y, *mask, *n);
    }
    y
}

pub fn perm_bits(s: [u8; 16]) -> [u8; 16]
    ensures { result ≡ perm_bits s }
{
    let w = [
        move_word(word(s, 0, 1)),
        move_word(word(s, 4, 1)),
        move_word(word(s, 8, 1)),
        move_word(word(s, 12, 1)),
    ];
    from_fn(|i| byte(w[i % 4], 8 * (3 - i / 4)))
}

pub fn inv_perm_bits(s: [u8; 16]) -> [u8; 16]
    ensures { result ≡ inv_perm_bits s }
{
    let w = [
        inv_move_word(word(s, 0, 4)),
        inv_move_word(word(s, 1, 4)),
        inv_move_word(word(s, 2, 4)),
        inv_move_word(word(s, 3, 4)),
    ];
    from_fn(|i| byte(w[i / 4], 8 * (3 - i % 4)))
}
