// The path of a job through its shared calls: the masks of its keys, CTR's calls, CMAC's. Sealing and its report take one path.
#![tactic(auto)]

ghost use Rattle.std.specs.Prelude.{◌≡◌, ◌+◌, ◌*◌, ◌≤◌, length};
ghost use Rattle.blocks.specs.Bytes.{block_count};
ghost use Rattle.links.specs.Record.{longest};
ghost use Rattle.masking.specs.Shares.{at, pair_size};
ghost use Rattle.shares.specs.Packed.{shares_of};
ghost use Rattle.calls.specs.Numbered.{call_count, tape_need};
ghost use Rattle.calls.specs.Sealed.{sealing_job};
ghost use Rattle.path.specs.Path.{Room, KeysMasked, CtrDone, ChainDone, MacDone, SealingDone};

use inputs::{Outs, last_key, mac_block};
use links::{Nonce, Text};
use packing::pack;
use shares::{CALL, PAIR, Seen, Tape, Triple, add_shares, only, unpack_shares};
use walks::{Walk, Watch, mask_key};

// The calls of a job for n bytes.
pub fn call_count(n: usize) -> usize
    requires { n ≤ longest }
    ensures { result ≡ call_count (block_count n) }
{
    2 * n.div_ceil(16) + 2
}

// The tape bytes that it needs.
pub fn tape_need(n: usize) -> usize
    requires { n ≤ longest }
    ensures { result ≡ tape_need n }
{
    2 * PAIR + CALL * call_count(n)
}

// ---- the keys

// The shares of KE and KM, masked, and a walk that begins behind their masks.
#[derive(Clone, Copy)]
pub struct Begun<'a> {
    pub e: Triple,
    pub m: Triple,
    pub walk: Walk<'a>,
}

// Draws the masks of both keys.
pub fn begin<'a>(ke: [u8; 48], km: [u8; 48], tape: &'a [u8], watch: Watch) -> Begun<'a>
    requires { 2 * pair_size ≤ length tape.now }
    ensures { KeysMasked ke km tape.now watch result }
{
    let mut tape = Tape {
        bytes: tape,
        used: 0,
    };
    let e = mask_key(ke, &mut tape);
    let m = mask_key(km, &mut tape);
    let none = only([0; 4]);
    let walk = Walk {
        out: none,
        calls: 0,
        tape,
        watch,
        seen: Seen {
            state: none,
            key: none,
        },
    };
    Begun { e, m, walk }
}

// ---- CTR's calls

// The calls for each block of `len` bytes; their output shares go into `outs`.
pub fn ctr_calls(nonce: Nonce, len: usize, key: Triple, walk: &mut Walk, outs: &mut Outs)
    requires { (len ≤ longest) × Room (block_count len) walk.old }
    ensures { CtrDone nonce.number nonce.sequence len (shares_of key) walk.old outs.new walk.new }
{
    for j in 0..len.div_ceil(16) {
        walk.step(key, only(pack(nonce.counter_block(j as u32))));
        outs[j] = unpack_shares(walk.out);
    }
}

// ---- CMAC's calls

// The calls of the chain up to the last block, from three zero shares.
fn chain_calls(nonce: Nonce, message: &Text, outs: &Outs, key: Triple, walk: &mut Walk)
    requires { Room (block_count (length message.now)) walk.old }
    ensures { ChainDone nonce.number nonce.sequence message.now outs.now (shares_of key) walk.old walk.new }
{
    walk.out = only([0; 4]);
    for j in 0..message.bytes.len().div_ceil(16) {
        let block = mac_block(nonce, message, outs, j);
        walk.step(key, add_shares(walk.out, block));
    }
}

// The subkeys' call, the chain's, and the last one, whose output is the code's shares. A ciphertext block is what stands for it in `outs`,
// cut to the message block, with the message block in share 0.
pub fn mac_calls(nonce: Nonce, message: &Text, outs: &Outs, key: Triple, walk: &mut Walk)
    requires { Room (block_count (length message.now) + 2) walk.old }
    ensures { MacDone nonce.number nonce.sequence message.now outs.now (shares_of key) walk.old walk.new }
{
    let len = message.bytes.len();
    walk.step(key, only([0; 4]));
    let subkey = last_key(walk.out, len);
    chain_calls(nonce, message, outs, key, walk);
    let last = mac_block(nonce, message, outs, len.div_ceil(16));
    walk.step(key, add_shares(walk.out, add_shares(subkey, last)));
}

// ---- sealing

// The calls of a sealing, in their order. CTR's output shares go into `outs`; the last call's output is the tag's shares.
pub fn run<'a>(
    nonce: Nonce,
    ke: [u8; 48],
    km: [u8; 48],
    message: &Text,
    tape: &'a [u8],
    watch: Watch,
    outs: &mut Outs,
) -> Walk<'a>
    requires { tape_need (length message.now) ≤ length tape.now }
    ensures { SealingDone (sealing_job ke km nonce.number nonce.sequence message.now) (at tape.now) watch
        outs.new result }
{
    let Begun { e, m, mut walk } = begin(ke, km, tape, watch);
    ctr_calls(nonce, message.bytes.len(), e, &mut walk, outs);
    mac_calls(nonce, message, outs, m, &mut walk);
    walk
}
