// BAKSHEESH and its inverse, written once: an engine brings the form of the state, and the steps on it.
#![tactic(auto)]

ghost use Rattle.std.specs.Prelude.{◌≡◌, List, ℕ, ◌<◌};
ghost use Rattle.blocks.specs.Bytes.{◌⊕◌};
ghost use Rattle.baksheesh.specs.Baksheesh.{rounds, rotated, round, inv_round, encrypt, decrypt};

use baksheesh::ROUNDS;

pub trait Engine {
    // What holds a block, or a round key, while the cipher runs.
    type State: Copy;

    // The block that a state says.
    ghost block: { Self.State → List ℕ };

    fn load(bytes: [u8; 16]) -> Self::State
        ensures { block result ≡ bytes };

    fn store(s: Self::State) -> [u8; 16]
        ensures { result ≡ block s };

    fn add(s: Self::State, t: Self::State) -> Self::State
        ensures { block result ≡ block s ⊕ block t };

    // Round n + 1 under the round key k, and back.
    fn round(s: Self::State, k: Self::State, n: usize) -> Self::State
        requires { n < rounds }
        ensures { block result ≡ round n (block k) (block s) };

    fn inv_round(s: Self::State, k: Self::State, n: usize) -> Self::State
        requires { n < rounds }
        ensures { block result ≡ inv_round n (block k) (block s) };

    // The key, rotated right by one, left by one, and right by all rounds.
    fn rotate(k: Self::State) -> Self::State
        ensures { block result ≡ rotated 1 (block k) };

    fn rotate_back(k: Self::State) -> Self::State
        ensures { block result ≡ rotated 127 (block k) };

    fn rotate_all(k: Self::State) -> Self::State
        ensures { block result ≡ rotated rounds (block k) };
}

pub fn encrypt<E: Engine>(key: E::State, block: E::State) -> E::State
    ensures { E.block result ≡ encrypt (E.block key) (E.block block) }
{
    let mut k = E::rotate(key);
    let mut s = E::add(block, key);
    for n in 0..ROUNDS {
        s = E::round(s, k, n);
        k = E::rotate(k);
    }
    s
}

pub fn decrypt<E: Engine>(key: E::State, block: E::State) -> E::State
    ensures { E.block result ≡ decrypt (E.block key) (E.block block) }
{
    let mut k = E::rotate_all(key);
    let mut s = block;
    for n in (0..ROUNDS).rev() {
        s = E::inv_round(s, k, n);
        k = E::rotate_back(k);
    }
    E::add(s, key)
}

// The same on the bytes of a block.
pub fn encrypt_bytes<E: Engine>(key: [u8; 16], block: [u8; 16]) -> [u8; 16]
    ensures { result ≡ encrypt key block }
{
    E::store(encrypt::<E>(E::load(key), E::load(block)))
}

pub fn decrypt_bytes<E: Engine>(key: [u8; 16], block: [u8; 16]) -> [u8; 16]
    ensures { result ≡ decrypt key block }
{
    E::store(decrypt::<E>(E::load(key), E::load(block)))
}
