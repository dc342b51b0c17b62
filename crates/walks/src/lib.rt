// The calls of a run on shares, one after the other; one pair of masks of one call is watched. The test of a lane's numbers.
#![tactic(auto)]

ghost use Rattle.std.specs.Prelude.{◌≡◌, [], ◌+◌, ◌≤◌, ◌<◌, ◌^◌, length};
ghost use Rattle.answers.specs.Answer.{done, first};
ghost use Rattle.masking.specs.Shares.{shares_in, add as add_shares, at, pair_size, masks_at};
ghost use Rattle.masking.specs.Call.{encryption, call_size};
ghost use Rattle.shares.specs.Packed.{shares_of};
ghost use Rattle.runs.specs.Lanes.{lane_causes};
ghost use Rattle.walks.specs.Walk.{Stepped};
ghost use Rattle.walks.specs.Tested.{lane_number, lane_says};

mod watch;

use shares::{Seen, Tape, Triple, pack_shares};
pub use watch::Watch;

// Where the calls have led: the last call's output, how many calls are done, the tape as far as they read it, what is watched, and
// what the watched pair showed once it is passed.
#[derive(Clone, Copy)]
pub struct Walk<'a> {
    pub out: Triple,
    pub calls: usize,
    pub tape: Tape<'a>,
    pub watch: Watch,
    pub seen: Seen,
}

impl<'a> Walk<'a> {
    // The next call.
    pub fn step(&mut self, key: Triple, input: Triple)
        requires { (self.old.tape.used + call_size ≤ length self.old.tape.bytes.now) × (self.old.calls < 2 ^ 32) }
        ensures { Stepped encryption (shares_of key) (shares_of input) (at self.old.tape.bytes.now) self.old.watch self.old self.new }
    {
        let called = shares::call(key, input, &mut self.tape, self.watch.pair);
        self.out = called.out;
        self.calls += 1;
        if self.calls == self.watch.call {
            self.seen = called.seen;
        }
    }
}

// Key shares with the next pair of masks: c, d and c XOR d.
pub fn mask_key(key: [u8; 48], tape: &mut Tape) -> Triple
    requires { tape.old.used + pair_size ≤ length tape.old.bytes.now }
    ensures keyed { shares_of result ≡ add_shares (shares_in key) (masks_at (at tape.old.bytes.now) tape.old.used) }
    ensures drawn { tape.new ≡ record tape.old { used = tape.old.used + pair_size } }
{
    shares::mask(pack_shares(key), tape.draw())
}

// ---- the numbers of a lane

// Why a lane cannot be shown.
#[derive(Clone, Copy, Debug, PartialEq, Eq)]
pub enum LaneRefusal {
    BadCall,
    BadRound,
    BadLane,
    ShortOutput,
}

impl From<LaneRefusal> for u32 {
    ghost from_gives = { λ why n. n ≡ lane_number why };

    fn from(why: LaneRefusal) -> u32 {
        match why {
            LaneRefusal::BadCall => 6,
            LaneRefusal::BadRound => 33,
            LaneRefusal::BadLane => 34,
            LaneRefusal::ShortOutput => 4,
        }
    }
}

// Whether a lane can be shown: of `calls` calls of `pairs` pairs of masks each, with room for `room` bytes.
pub fn test_lane(
    calls: usize,
    pairs: usize,
    call: u32,
    round: u32,
    lane: u32,
    room: usize,
) -> Result<(), LaneRefusal>
    ensures { lane_says result ≡ first (lane_causes calls pairs call round lane room) (done []) }
{
    if !(1..=calls).contains(&(call as usize)) {
        return Err(LaneRefusal::BadCall);
    }
    if !(1..=pairs).contains(&(round as usize)) {
        return Err(LaneRefusal::BadRound);
    }
    if !(0..=2).contains(&lane) {
        return Err(LaneRefusal::BadLane);
    }
    if room < 48 {
        return Err(LaneRefusal::ShortOutput);
    }
    Ok(())
}
