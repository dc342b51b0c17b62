// BAKSHEESH by byte tables.
#![tactic(auto)]

ghost use Rattle.std.specs.Prelude.{◌≡◌};
ghost use Rattle.baksheesh.specs.Baksheesh.{encrypt, decrypt};

use baksheesh::ROUNDS;
use cipher::Engine;
use lookup::{inv_sub_cells, sub_cells};
use permute::{inv_perm_bits, perm_bits};

// The engine whose state is a block's 16 bytes.
pub struct Table;

impl Engine for Table {
    type State = [u8; 16];

    ghost block = { λ s. s };

    fn load(bytes: [u8; 16]) -> [u8; 16] {
        bytes
    }

    fn store(s: [u8; 16]) -> [u8; 16] {
        s
    }

    fn add(s: [u8; 16], t: [u8; 16]) -> [u8; 16] {
        schedule::add(s, t)
    }

    fn round(s: [u8; 16], k: [u8; 16], n: usize) -> [u8; 16] {
        Table::add(
            Table::add(perm_bits(sub_cells(s)), schedule::constant(n)),
            k,
        )
    }

    fn inv_round(s: [u8; 16], k: [u8; 16], n: usize) -> [u8; 16] {
        inv_sub_cells(inv_perm_bits(Table::add(Table::add(s, k), schedule::constant(n))))
    }

    fn rotate(k: [u8; 16]) -> [u8; 16] {
        schedule::rotate(k, 1)
    }

    fn rotate_back(k: [u8; 16]) -> [u8; 16] {
        schedule::rotate(k, 127)
    }

    fn rotate_all(k: [u8; 16]) -> [u8; 16] {
        schedule::rotate(k, ROUNDS)
    }
}

pub fn encrypt(key: [u8; 16], block: [u8; 16]) -> [u8; 16]
    ensures { result ≡ encrypt key block }
{
    cipher::encrypt_bytes::<Table>(key, block)
}

pub fn decrypt(key: [u8; 16], block: [u8; 16]) -> [u8; 16]
    ensures { result ≡ decrypt key block }
{
    cipher::decrypt_bytes::<Table>(key, block)
}
