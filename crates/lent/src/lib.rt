// The sending link lent by `&mut`: every sealing advances it.
#![tactic(auto)]

ghost use Rattle.std.specs.Prelude.{◌≡◌, length};
ghost use Rattle.calls.specs.Entry.{seal_answer, seal_link, seal_shares, seal_output};
ghost use Rattle.sealing.specs.Says.{seal_says};

use links::Sender;
use sealing::{SealRefusal, Sealed, Sealing};

// What a sealing returns besides the link. The tag's three shares stand one behind the other; zeros where it is refused.
#[derive(Clone, Copy)]
pub struct Outcome {
    pub answer: Result<Sealed, SealRefusal>,
    pub shares: [u8; 48],
}

// Seals a message on the lent link's next number, and advances it where the message was sealed.
pub fn seal_next(link: &mut Sender, message: &[u8], tape: &[u8], out: &mut [u8]) -> Outcome
    ensures { (seal_says result.answer
        ≡ seal_answer link.old message.now tape.now (length out.old))
        × (result.shares ≡ seal_shares link.old message.now tape.now (length out.old))
        × (link.new ≡ seal_link link.old message.now tape.now (length out.old))
        × (out.new ≡ seal_output link.old message.now tape.now out.old) }
{
    let Sealing {
        answer,
        link: next,
        shares,
    } = sealing::seal(*link, message, tape, out);
    *link = next;
    Outcome { answer, shares }
}

// The same for a link by value: it is lent here, and handed back.
pub fn seal_through(link: Sender, message: &[u8], tape: &[u8], out: &mut [u8]) -> Sealing
    ensures { (seal_says result.answer
        ≡ seal_answer link message.now tape.now (length out.old))
        × (result.shares ≡ seal_shares link message.now tape.now (length out.old))
        × (result.link ≡ seal_link link message.now tape.now (length out.old))
        × (out.new ≡ seal_output link message.now tape.now out.old) }
{
    let mut next = link;
    let Outcome { answer, shares } = seal_next(&mut next, message, tape, out);
    Sealing {
        answer,
        link: next,
        shares,
    }
}
