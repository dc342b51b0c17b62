// The steps of a round back on a block in packed form, all but the S-box.
#![tactic(auto)]

ghost use Rattle.std.specs.Prelude.{◌≡◌, ℕ, ◌+◌, ◌-◌, ◌*◌, ◌/◌, ◌%◌, ◌<◌};
ghost use Rattle.bits.specs.Bit.{bit};
ghost use Rattle.baksheesh.specs.Baksheesh.{rounds, rotated, inv_perm_bits};
ghost use Rattle.words.specs.Words.{unpacked};

use bits::swapmove;

// Bit a of byte 3 - b goes to bit 4a + b.
fn inv_perm_word(x: u32) -> u32
    ensures { (i : ℕ) → i < 32 → bit result i ≡ bit x (8 * (3 - i % 4) + i / 4) }
{
    let x1 = swapmove(x, 0xff, 24);
    let x2 = swapmove(x1, 0x0000_f0f0, 12);
    let x3 = swapmove(x2, 0x00cc_00cc, 6);
    swapmove(x3, 0x0a0a_0a0a, 3)
}

pub fn inv_perm_bits(s: [u32; 4]) -> [u32; 4]
    ensures { unpacked result ≡ inv_perm_bits (unpacked s) }
{
    let [a, b, c, d] = s;
    [
        inv_perm_word(a.rotate_right(8)),
        inv_perm_word(b.rotate_right(16)),
        inv_perm_word(c.rotate_right(24)),
        inv_perm_word(d),
    ]
}

// The key, rotated left by one.
pub fn rotate_back(k: [u32; 4]) -> [u32; 4]
    ensures { unpacked result ≡ rotated 127 (unpacked k) }
{
    let [a, b, c, d] = k;
    [d.rotate_left(1), a, b, c]
}

// The key, rotated right by all rounds.
pub fn rotate_all(k: [u32; 4]) -> [u32; 4]
    ensures { unpacked result ≡ rotated rounds (unpacked k) }
{
    let [a, b, c, d] = k;
    [
        d.rotate_right(8),
        a.rotate_right(9),
        b.rotate_right(9),
        c.rotate_right(9),
    ]
}
