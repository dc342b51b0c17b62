// What sealing and its report test alike: the link, the message and the tape.
#![tactic(auto)]

ghost use Rattle.std.specs.Prelude.{◌≡◌, []};
ghost use Rattle.answers.specs.Answer.{done, first};
ghost use Rattle.calls.specs.Entry.{input_causes};
ghost use Rattle.sealable.specs.Tested.{input_number, input_says};

use links::{LONGEST, Sender, usable};
use path::tape_need;

// Why a sealing cannot be done.
#[derive(Clone, Copy, Debug, PartialEq, Eq)]
pub enum InputRefusal {
    NotKeyed,
    NumbersUsed,
    LongMessage,
    ShortTape,
}

// The refusal's number.
impl From<InputRefusal> for u32 {
    ghost from_gives = { λ why n. n ≡ input_number why };

    fn from(why: InputRefusal) -> u32 {
        match why {
            InputRefusal::NotKeyed => 20,
            InputRefusal::NumbersUsed => 21,
            InputRefusal::LongMessage => 2,
            InputRefusal::ShortTape => 3,
        }
    }
}

// Whether a message can be sealed on a link with a tape, as far as these tell.
pub fn test_inputs(link: Sender, message: &[u8], tape: &[u8]) -> Result<(), InputRefusal>
    ensures { input_says result ≡ first (input_causes link message.now tape.now []) (done []) }
{
    let width = link.width;
    if !usable(link.keyed, width, link.last) {
        return Err(InputRefusal::NotKeyed);
    }
    if link.last == width.greatest() {
        return Err(InputRefusal::NumbersUsed);
    }
    let n = message.len();
    if LONGEST < n {
        return Err(InputRefusal::LongMessage);
    }
    if tape.len() < tape_need(n) {
        return Err(InputRefusal::ShortTape);
    }
    Ok(())
}
