// BAKSHEESH on three XOR shares in packed form.
#![tactic(auto)]

ghost use Rattle.std.specs.Prelude.{◌≡◌, cond, ◌+◌, ◌-◌, ◌*◌, ◌≤◌, ◌<◌, ltb, length};
ghost use Rattle.baksheesh.specs.Baksheesh.{rounds, rotated};
ghost use Rattle.words.specs.Words.{unpacked};
ghost use Rattle.masking.specs.Shares.{spread, each, shares_in, flat, add as add_shares, only as only_share, at, pair_size, masks_at};
ghost use Rattle.masking.specs.Sbox.{sbox_form, form_share};
ghost use Rattle.masking.specs.Call.{lane_round, share_round, pair_count, call_size};
ghost use Rattle.shares.specs.Packed.{shares_of, Onward, CallDone};

use baksheesh::ROUNDS;
use packing::{pack, unpack};
use words::steps::{add, add_constants, perm_bits, rotate};

// Three shares of a block, each in packed form. No other crate reaches one of them alone: what it does, it does share by share.
#[derive(Clone, Copy)]
pub struct Triple {
    a: [u32; 4],
    b: [u32; 4],
    c: [u32; 4],
}

impl Triple {
    // What `f` makes of each share alone.
    fn each<F: Fn([u32; 4]) -> [u32; 4]>(self, f: F) -> Triple
        requires { F.IsAlwaysCallable f }
        ensures { F.post f self.a result.a × F.post f self.b result.b × F.post f self.c result.c }
    {
        let Triple { a, b, c } = self;
        Triple {
            a: f(a),
            b: f(b),
            c: f(c),
        }
    }
}

// A block in share 0, zeros in the others.
pub fn only(b: [u32; 4]) -> Triple
    ensures { shares_of result ≡ only_share (unpacked b) }
{
    Triple {
        a: b,
        b: [0; 4],
        c: [0; 4],
    }
}

// Three blocks, one behind the other, as shares.
pub fn pack_shares(b: [u8; 48]) -> Triple
    ensures { shares_of result ≡ shares_in b }
{
    Triple {
        a: pack(blocks::bytes_at(&b, 0)),
        b: pack(blocks::bytes_at(&b, 16)),
        c: pack(blocks::bytes_at(&b, 32)),
    }
}

// Three shares, one behind the other.
pub fn unpack_shares(s: Triple) -> [u8; 48]
    ensures { result ≡ flat (shares_of s) }
{
    blocks::three_blocks(unpack(s.a), unpack(s.b), unpack(s.c))
}

// A word of ones, or of zeros.
fn ones_if(one: bool) -> u32
    ensures { result ≡ cond one 0xffff_ffff 0 }
{
    if one { 0xffff_ffff } else { 0 }
}

// The S-box's output share from the next share a and the one after it, b.
fn sbox_share(first: bool, a: [u32; 4], b: [u32; 4]) -> [u32; 4]
    ensures { unpacked result ≡ form_share sbox_form first (unpacked a) (unpacked b) }
{
    let one = ones_if(first);
    let [a0, a1, a2, a3] = a;
    let [b0, b1, b2, _] = b;
    let p01 = (a0 & a1) ^ (a0 & b1) ^ (b0 & a1);
    let p02 = (a0 & a2) ^ (a0 & b2) ^ (b0 & a2);
    let p12 = (a1 & a2) ^ (a1 & b2) ^ (b1 & a2);
    [
        p02 ^ a0 ^ a1 ^ a3 ^ one,
        a0 ^ p12 ^ a3 ^ one,
        p02 ^ p12 ^ a1 ^ a3,
        p01 ^ p02 ^ a2 ^ a3,
    ]
}

// What a round makes of a share, from its lane alone.
fn lane_round(first: bool, a: [u32; 4], b: [u32; 4], k: [u32; 4], n: usize) -> [u32; 4]
    requires { n < rounds }
    ensures { unpacked result ≡ lane_round n first (unpacked a) (unpacked b) (unpacked k) }
{
    let s = perm_bits(sbox_share(first, a, b));
    if first {
        add(add_constants(s, n), k)
    } else {
        add(s, k)
    }
}

fn share_round(s: Triple, k: Triple, n: usize) -> Triple
    requires { n < rounds }
    ensures { shares_of result ≡ share_round n (shares_of s) (shares_of k) }
{
    Triple {
        a: lane_round(true, s.b, s.c, k.a, n),
        b: lane_round(false, s.c, s.a, k.b, n),
        c: lane_round(false, s.a, s.b, k.c, n),
    }
}

// Share by share.
pub fn add_shares(s: Triple, t: Triple) -> Triple
    ensures { shares_of result ≡ add_shares (shares_of s) (shares_of t) }
{
    Triple {
        a: add(s.a, t.a),
        b: add(s.b, t.b),
        c: add(s.c, t.c),
    }
}

// Each key share, rotated right by one.
fn rotate_shares(k: Triple) -> Triple
    ensures { shares_of result ≡ each (rotated 1) (shares_of k) }
{
    k.each(rotate)
}

// ---- the tape

// The bytes of a pair of masks.
pub const PAIR: usize = 32;

// The pairs of a call: one before each round, and one for the output. Their bytes.
pub const PAIRS: usize = ROUNDS + 1;

pub const CALL: usize = PAIR * PAIRS;

// A pair of masks.
#[derive(Clone, Copy)]
pub struct Masks {
    u: [u32; 4],
    v: [u32; 4],
}

// A tape of masks, and how many of its bytes are read.
#[derive(Clone, Copy)]
pub struct Tape<'a> {
    pub bytes: &'a [u8],
    pub used: usize,
}

impl<'a> Tape<'a> {
    // The next pair of masks, whose bytes are counted.
    pub fn draw(&mut self) -> Masks
        requires { self.old.used + pair_size ≤ length self.old.bytes.now }
        ensures masks { spread (unpacked result.u) (unpacked result.v) ≡ masks_at (at self.old.bytes.now) self.old.used }
        ensures drawn { self.new ≡ record self.old { used = self.old.used + pair_size } }
    {
        let at = self.used;
        self.used += PAIR;
        Masks {
            u: pack(blocks::bytes_at(self.bytes, at)),
            v: pack(blocks::bytes_at(self.bytes, at + 16)),
        }
    }
}

// The masks u, v and u XOR v of a pair, one into each share.
pub fn mask(s: Triple, pair: Masks) -> Triple
    ensures { shares_of result ≡ add_shares (shares_of s) (spread (unpacked pair.u) (unpacked pair.v)) }
{
    let Masks { u, v } = pair;
    let masks = Triple {
        a: u,
        b: v,
        c: add(u, v),
    };
    add_shares(s, masks)
}

// ---- calls

// What a pair of masks shows: the state's shares just after it, and the key's shares.
#[derive(Clone, Copy)]
pub struct Seen {
    pub state: Triple,
    pub key: Triple,
}

// The rounds after the first `from`, up to the round numbered `to`, each with a pair of masks behind it: the state, and the key as the
// last of them added it.
fn run_rounds(start: Seen, tape: &mut Tape, from: usize, to: usize) -> Seen
    requires { (from ≤ to) × (to ≤ rounds) × (tape.old.used + pair_size * (to - from) ≤ length tape.old.bytes.now) }
    ensures rounds { Onward (at tape.old.bytes.now) tape.old.used from (shares_of start.state) (shares_of start.key) (to - from) result }
    ensures drawn { tape.new ≡ record tape.old { used = tape.old.used + pair_size * (to - from) } }
{
    let Seen { mut state, mut key } = start;
    for n in from..to {
        key = rotate_shares(key);
        let masks = tape.draw();
        state = mask(share_round(state, key, n), masks);
    }
    Seen { state, key }
}

// The key's shares that pair n shows, of those that the round before it added: the next round's, but for the last pair.
fn shown_key(k: Triple, n: usize) -> Triple
    ensures { shares_of result ≡ cond (ltb n pair_count) (each (rotated 1) (shares_of k)) (shares_of k) }
{
    if n < PAIRS { rotate_shares(k) } else { k }
}

// A call's output, and what one of its pairs of masks shows.
#[derive(Clone, Copy)]
pub struct Called {
    pub out: Triple,
    pub seen: Seen,
}

// A call of key shares and input shares, with the next masks of the tape; it shows the pair numbered `n`.
pub fn call(key: Triple, input: Triple, tape: &mut Tape, n: usize) -> Called
    requires { (1 ≤ n) × (n ≤ pair_count) × (tape.old.used + call_size ≤ length tape.old.bytes.now) }
    ensures done { CallDone (shares_of key) (shares_of input) (at tape.old.bytes.now) tape.old.used n result }
    ensures drawn { tape.new ≡ record tape.old { used = tape.old.used + call_size } }
{
    let state = mask(add_shares(input, key), tape.draw());
    let shown = run_rounds(Seen { state, key }, tape, 0, n - 1);
    let last = run_rounds(shown, tape, n - 1, ROUNDS);
    Called {
        out: last.state,
        seen: Seen {
            state: shown.state,
            key: shown_key(shown.key, n),
        },
    }
}
