// What is watched.
ghost use Rattle.std.specs.Prelude.{◌≤◌};
ghost use Rattle.masking.specs.Call.{pair_count};

// The call and its pair of masks to be shown, numbered from 1.
#[derive(Clone, Copy)]
pub struct Watch {
    pub call: usize,
    pub pair: usize,
    ghost pair_of_call: { (1 ≤ pair) × (pair ≤ pair_count) },
}
