// CTR and CMAC with the packed engine, under a whole key: what plain sealing and opening do with a text.
#![tactic(auto)]

ghost use Rattle.std.specs.Prelude.{◌≡◌, ◌++◌, ◌+◌, ◌-◌, ◌*◌, ◌≤◌, ◌<◌, length};
ghost use Rattle.blocks.specs.Bytes.{put, piece};
ghost use Rattle.baksheesh.specs.Baksheesh.{encrypt};
ghost use Rattle.words.specs.Words.{unpacked};
ghost use Rattle.modes.specs.Ctr.{ctr};
ghost use Rattle.modes.specs.Cmac.{subkey₁, subkey₂, last_block, chain, cmac};
ghost use Rattle.links.specs.Record.{counter_block};

use links::{Nonce, Text};
use packed::encrypt_words;
use packing::{pack, unpack};
use words::steps::add;

// ---- CTR

// The output block of counter block i.
fn key_block(key: [u32; 4], nonce: Nonce, i: u32) -> [u8; 16]
    ensures { result ≡ encrypt (unpacked key) (counter_block nonce.number nonce.sequence i) }
{
    unpack(encrypt_words(key, pack(nonce.counter_block(i))))
}

// Writes the ciphertext of a message, or the message of a ciphertext, from `at`.
pub fn crypt(ke: [u8; 16], nonce: Nonce, text: &Text, out: &mut [u8], at: usize)
    requires { at + length text.now ≤ length out.old }
    ensures { out.new ≡ put at (ctr (encrypt ke) (counter_block nonce.number nonce.sequence) text.now) out.old }
{
    let key = pack(ke);
    let bytes = text.bytes;
    for j in 0..bytes.len().div_ceil(16) {
        let block = key_block(key, nonce, j as u32);
        modes::put_xor(bytes, j, block, out, at + 16 * j);
    }
}

// ---- CMAC

fn first_subkey(key: [u32; 4]) -> [u8; 16]
    ensures { result ≡ subkey₁ (encrypt (unpacked key)) }
{
    modes::double(unpack(encrypt_words(key, pack([0; 16]))))
}

fn second_subkey(key: [u32; 4]) -> [u8; 16]
    ensures { result ≡ subkey₂ (encrypt (unpacked key)) }
{
    modes::double(first_subkey(key))
}

// The text's last block, number j, with its subkey.
fn last_block(key: [u32; 4], text: &[u8], j: usize) -> [u32; 4]
    requires { (16 * j ≤ length text.now) × (length text.now ≤ 16 * j + 16) }
    ensures { unpacked result ≡ last_block (encrypt (unpacked key)) (piece j text.now) }
{
    let at = 16 * j;
    if text.len() - at < 16 {
        return add(pack(second_subkey(key)), pack(modes::padded_at(text, at)));
    }
    add(pack(first_subkey(key)), pack(blocks::bytes_at(text, at)))
}

// The chain from `first` over the text's first n blocks.
fn chained(key: [u32; 4], first: [u32; 4], text: &[u8], n: usize) -> [u32; 4]
    requires { 16 * n ≤ length text.now }
    ensures { unpacked result ≡ chain (encrypt (unpacked key)) (unpacked first) text.now n }
{
    let mut chain = first;
    for j in 0..n {
        chain = encrypt_words(key, add(chain, pack(blocks::bytes_at(text, 16 * j))));
    }
    chain
}

// The code of a text behind counter block 0.
pub fn mac(km: [u8; 16], nonce: Nonce, text: &Text) -> [u8; 16]
    ensures { result ≡ cmac (encrypt km) (counter_block nonce.number nonce.sequence 0 ++ text.now) }
{
    let key = pack(km);
    let front = pack(nonce.counter_block(0));
    let bytes = text.bytes;
    if bytes.is_empty() {
        return unpack(encrypt_words(key, add(pack(first_subkey(key)), front)));
    }
    let k = (bytes.len() - 1) / 16;
    let chain = chained(key, encrypt_words(key, front), bytes, k);
    unpack(encrypt_words(key, add(chain, last_block(key, bytes, k))))
}
