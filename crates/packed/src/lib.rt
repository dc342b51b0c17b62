// BAKSHEESH on a block in packed form, and on its bytes.
#![tactic(auto)]

ghost use Rattle.std.specs.Prelude.{◌≡◌};
ghost use Rattle.baksheesh.specs.Baksheesh.{encrypt, decrypt};
ghost use Rattle.words.specs.Words.{unpacked};

use cipher::Engine;
use gates::{inv_sub_cells, sub_cells};
use inverse::{inv_perm_bits, rotate_all, rotate_back};
use packing::{pack, unpack};
use words::steps::{add, add_constants, perm_bits, rotate};

// The engine whose state is the packed form of a block.
pub struct Packed;

impl Engine for Packed {
    type State = [u32; 4];

    ghost block = { unpacked };

    fn load(bytes: [u8; 16]) -> [u32; 4] {
        pack(bytes)
    }

    fn store(s: [u32; 4]) -> [u8; 16] {
        unpack(s)
    }

    fn add(s: [u32; 4], t: [u32; 4]) -> [u32; 4] {
        add(s, t)
    }

    fn round(s: [u32; 4], k: [u32; 4], n: usize) -> [u32; 4] {
        add(add_constants(perm_bits(sub_cells(s)), n), k)
    }

    fn inv_round(s: [u32; 4], k: [u32; 4], n: usize) -> [u32; 4] {
        inv_sub_cells(inv_perm_bits(add_constants(add(s, k), n)))
    }

    fn rotate(k: [u32; 4]) -> [u32; 4] {
        rotate(k)
    }

    fn rotate_back(k: [u32; 4]) -> [u32; 4] {
        rotate_back(k)
    }

    fn rotate_all(k: [u32; 4]) -> [u32; 4] {
        rotate_all(k)
    }
}

pub fn encrypt_words(key: [u32; 4], block: [u32; 4]) -> [u32; 4]
    ensures { unpacked result ≡ encrypt (unpacked key) (unpacked block) }
{
    cipher::encrypt::<Packed>(key, block)
}

pub fn encrypt(key: [u8; 16], block: [u8; 16]) -> [u8; 16]
    ensures { result ≡ encrypt key block }
{
    cipher::encrypt_bytes::<Packed>(key, block)
}

pub fn decrypt_words(key: [u32; 4], block: [u32; 4]) -> [u32; 4]
    ensures { unpacked result ≡ decrypt (unpacked key) (unpacked block) }
{
    cipher::decrypt::<Packed>(key, block)
}

pub fn decrypt(key: [u8; 16], block: [u8; 16]) -> [u8; 16]
    ensures { result ≡ decrypt key block }
{
    cipher::decrypt_bytes::<Packed>(key, block)
}
