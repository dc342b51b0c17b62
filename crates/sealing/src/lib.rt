// Shared sealing.
#![tactic(auto)]

ghost use Rattle.std.specs.Prelude.{◌≡◌, length, IfOk, IfErr};
ghost use Rattle.answers.specs.Answer.{refused};
ghost use Rattle.calls.specs.Entry.{seal_answer, seal_link, seal_shares, seal_output};
ghost use Rattle.sealing.specs.Says.{seal_number, seal_says};

use links::{Nonce, Sender, Text};
use outgoing::put_record;
use path::run;
use sealable::{InputRefusal, test_inputs};
use shares::unpack_shares;
use walks::Watch;

// The length written, and the tape bytes read.
#[derive(Clone, Copy, Debug, PartialEq, Eq)]
pub struct Sealed {
    pub len: usize,
    pub used: usize,
}

// Why a sealing is refused.
#[derive(Clone, Copy, Debug, PartialEq, Eq)]
pub enum SealRefusal {
    Inputs(InputRefusal),
    ShortOutput,
}

impl From<InputRefusal> for SealRefusal {
    ghost use Rattle.sealing.specs.declared.SealRefusal.TheVariants.{Inputs};

    ghost from_gives = { λ why refusal. refusal ≡ Inputs why };

    fn from(why: InputRefusal) -> SealRefusal {
        SealRefusal::Inputs(why)
    }
}

// The refusal's number.
impl From<SealRefusal> for u32 {
    ghost from_gives = { λ why n. n ≡ seal_number why };

    fn from(why: SealRefusal) -> u32 {
        match why {
            SealRefusal::Inputs(why) => why.into(),
            SealRefusal::ShortOutput => 4,
        }
    }
}

// The tag's three shares stand one behind the other; zeros where the sealing is refused.
#[derive(Clone, Copy)]
pub struct Sealing {
    pub answer: Result<Sealed, SealRefusal>,
    pub link: Sender,
    pub shares: [u8; 48],
}

// Seals on the link's next number, unless that is refused.
#[tactic(auto, using(links::proofs::Widths::proper_of))]
fn try_seal(
    link: Sender,
    message: &[u8],
    tape: &[u8],
    out: &mut [u8],
) -> Result<Sealing, SealRefusal>
    ensures sealed { IfOk result (λ s.
        (seal_says s.answer ≡ seal_answer link message.now tape.now (length out.old))
        × (s.link ≡ seal_link link message.now tape.now (length out.old))
        × (s.shares ≡ seal_shares link message.now tape.now (length out.old))) }
    ensures refused { IfErr result (λ e.
        seal_answer link message.now tape.now (length out.old) ≡ refused (seal_number e)) }
    ensures out_after { out.new ≡ seal_output link message.now tape.now out.old }
{
    test_inputs(link, message, tape)?;
    let form = link.width.form();
    let len = message.len() + form.added();
    if out.len() < len {
        return Err(SealRefusal::ShortOutput);
    }
    let nonce = Nonce {
        number: link.number,
        sequence: link.last + 1,
    };
    let text = Text::of(message);
    let watch = Watch { call: 1, pair: 1 };
    let mut outs = [[0; 48]; 16];
    let walk = run(nonce, link.ke, link.km, &text, tape, watch, &mut outs);
    let shares = unpack_shares(walk.out);
    put_record(form, nonce, &text, &outs, shares, out);
    Ok(Sealing {
        answer: Ok(Sealed {
            len,
            used: walk.tape.used,
        }),
        link: Sender {
            last: nonce.sequence,
            ..link
        },
        shares,
    })
}

// Seals a message on the link's next number, and hands the link back: advanced where the message was sealed.
pub fn seal(link: Sender, message: &[u8], tape: &[u8], out: &mut [u8]) -> Sealing
    ensures answer_value { seal_says result.answer
        ≡ seal_answer link message.now tape.now (length out.old) }
    ensures link_value { result.link ≡ seal_link link message.now tape.now (length out.old) }
    ensures shares_value { result.shares ≡ seal_shares link message.now tape.now (length out.old) }
    ensures out_after { out.new ≡ seal_output link message.now tape.now out.old }
{
    match try_seal(link, message, tape, out) {
        Ok(sealing) => sealing,
        Err(why) => Sealing {
            answer: Err(why),
            link,
            shares: [0; 48],
        },
    }
}
