// The anti-replay window of a receiving link: which numbers were accepted, of the highest one and those right below it.
#![tactic(auto)]

ghost use Rattle.std.specs.Prelude.{◌≡◌};
ghost use Rattle.bits.specs.Bit.{bit};
ghost use Rattle.window.specs.Window.{empty, below, repeated, shifted, after};

// How many numbers it covers.
const SPAN: u64 = 64;

// The highest number accepted, and a word: its bit k says whether the number k below that one was.
#[derive(Clone, Copy, Debug, PartialEq, Eq)]
pub struct Window {
    pub highest: u64,
    pub accepted: u64,
}

// Whether a word has that bit; from 64 up it has none.
#[tactic(auto, using(crate::proofs::Word::bit_past), unfolding(bits::specs::Bit::bit))]
fn bit(word: u64, place: u64) -> bool
    ensures { result ≡ bit word place }
{
    place < SPAN && (word >> place) % 2 == 1
}

// The word shifted up; by 64 places or more it is cleared.
#[tactic(auto, using(crate::proofs::Word::shifted_out), unfolding(crate::specs::Window::shifted))]
fn shifted(word: u64, places: u64) -> u64
    ensures { result ≡ shifted word places }
{
    if SPAN <= places { 0 } else { word << places }
}

impl Window {
    // Nothing accepted.
    pub fn empty() -> Window
        ensures { result ≡ empty }
    {
        Window {
            highest: 0,
            accepted: 0,
        }
    }

    // Whether a number is 0 or below the window.
    pub fn below(self, number: u64) -> bool
        ensures { result ≡ below self number }
    {
        let places = self.highest.checked_sub(number);
        number == 0 || places.is_some_and(|places| SPAN <= places)
    }

    // Whether a number is in the window and was accepted.
    pub fn repeated(self, number: u64) -> bool
        ensures { result ≡ repeated self number }
    {
        let places = self.highest.checked_sub(number);
        places.is_some_and(|places| bit(self.accepted, places))
    }

    // The window with a number accepted.
    pub fn after(self, number: u64) -> Window
        ensures { result ≡ after self number }
    {
        match self.highest.checked_sub(number) {
            Some(places) => Window {
                accepted: self.accepted | shifted(1, places),
                ..self
            },
            None => Window {
                highest: number,
                accepted: shifted(self.accepted, number - self.highest) | 1,
            },
        }
    }
}
