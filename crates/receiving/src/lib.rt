// The calls on a receiving link in its bytes.
#![tactic(auto)]

ghost use Rattle.std.specs.Prelude.{◌≡◌, refl, length};
ghost use Rattle.std.proofs.Common.{rules};
ghost use Rattle.links.specs.Links.{key_says};
ghost use Rattle.receiver.specs.Says.{open_says};
ghost use Rattle.receiving.specs.Stored.{word_size, receiver_size, held, holding};
ghost use Rattle.receiving.specs.Calls.{receiver_keying, keyed_receiver, opened_answer, opened_link, opened_output};

use layout::{Fields, Stored};
use links::KeyRefusal;
use receiver::{OpenRefusal, Receiver};
use window::Window;

// ---- the link

// Receiving links in bytes, with their window's word.
pub struct ReceiverBytes;

impl Stored<16> for ReceiverBytes {
    type Link = Receiver;

    ghost WORD = { word_size };

    ghost SIZE = { receiver_size };

    ghost held = { held };

    ghost holding = { holding };

    const WORD: usize = 8;

    const SIZE: usize = 54;

    fn held(link: Receiver) -> Fields<16> {
        let Receiver {
            keyed,
            number,
            window,
            width,
            ke,
            km,
        } = link;
        Fields {
            keyed,
            number,
            last: window.highest,
            word: window.accepted,
            width,
            ke,
            km,
        }
    }

    fn holding(fields: &Fields<16>) -> Receiver {
        let Fields {
            keyed,
            number,
            last,
            word,
            width,
            ke,
            km,
        } = *fields;
        Receiver {
            keyed,
            number,
            window: Window {
                highest: last,
                accepted: word,
            },
            width,
            ke,
            km,
        }
    }

    fn keyed(number: u32, wide: u32, keys: &[u8]) -> Result<Receiver, KeyRefusal> {
        let keying = Receiver::fresh().key(number, wide, keys);
        keying.answer?;
        Ok(keying.link)
    }

    ghost short = { Prim.search rules };

    ghost sized = { refl };

    ghost same = { λ _. refl };
}

// Keys the link, narrow where it is told 0: KE, then KM. Its window is empty.
// A frame of its own: what it leaves there is below the C call, where a host's wiping of the stack reaches it.
#[inline(never)]
pub fn key(link: &mut [u8], number: u32, wide: u32, keys: &[u8]) -> Result<(), KeyRefusal>
    ensures answer_value { key_says result ≡ receiver_keying link.old keys.now }
    ensures link_after { link.new ≡ keyed_receiver link.old number wide keys.now }
{
    ReceiverBytes::key(link, number, wide, keys)
}

// ---- opening

// Opens a record, and returns the length of its message.
#[tactic(auto, unfolding(opening::specs::Open::open_answer))]
pub fn open(link: &mut [u8], sealed: &[u8], out: &mut [u8]) -> Result<usize, OpenRefusal>
    ensures answer_value { open_says result ≡ opened_answer link.old sealed.now (length out.old) }
    ensures link_after { link.new ≡ opened_link link.old sealed.now (length out.old) }
    ensures out_after { out.new ≡ opened_output link.old sealed.now out.old }
{
    let before = ReceiverBytes::load(link);
    let opening = before.open(sealed, out);
    let len = opening.answer?;
    ReceiverBytes::store(opening.link, link);
    Ok(len)
}
