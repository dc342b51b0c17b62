// The calls on a sending link in its bytes.
#![tactic(auto)]

ghost use Rattle.std.specs.Prelude.{◌≡◌, ◌++◌, ◌≤◌, [], refl, length};
ghost use Rattle.std.proofs.Common.{rules};
ghost use Rattle.blocks.specs.Bytes.{big_endian, put};
ghost use Rattle.answers.specs.Answer.{said};
ghost use Rattle.links.specs.Links.{key_says};
ghost use Rattle.calls.specs.Entry.{report_answer, report_output};
ghost use Rattle.sealing.specs.Says.{seal_number};
ghost use Rattle.reporting.specs.Says.{report_says};
ghost use Rattle.sending.specs.Stored.{sender_size, sender_in, held, holding};
ghost use Rattle.sending.specs.Calls.{sender_keying, keyed_sender};
ghost use Rattle.sending.specs.Calls.{count_size, shares_size, sealed_answer, sealed_link, record_output, shares_output};

use layout::{Fields, Stored};
use links::{KeyRefusal, Sender};
use reporting::ReportRefusal;
use sealable::test_inputs;
use sealing::{SealRefusal, Sealed};

// ---- the link

// Sending links in bytes, with three shares of each key and no word.
pub struct SenderBytes;

impl Stored<48> for SenderBytes {
    type Link = Sender;

    ghost WORD = { 0 };

    ghost SIZE = { sender_size };

    ghost held = { held };

    ghost holding = { holding };

    const WORD: usize = 0;

    const SIZE: usize = 110;

    fn held(link: Sender) -> Fields<48> {
        let Sender {
            keyed,
            number,
            last,
            width,
            ke,
            km,
        } = link;
        Fields {
            keyed,
            number,
            last,
            word: 0,
            width,
            ke,
            km,
        }
    }

    fn holding(fields: &Fields<48>) -> Sender {
        let Fields {
            keyed,
            number,
            last,
            width,
            ke,
            km,
            ..
        } = *fields;
        Sender {
            keyed,
            number,
            last,
            width,
            ke,
            km,
        }
    }

    fn keyed(number: u32, wide: u32, keys: &[u8]) -> Result<Sender, KeyRefusal> {
        let keying = Sender::fresh().key(number, wide, keys);
        keying.answer?;
        Ok(keying.link)
    }

    ghost short = { Prim.search rules };

    ghost sized = { refl };

    ghost same = { λ _. refl };
}

// Keys the link, narrow where it is told 0: three shares of KE, then three of KM.
// A frame of its own: what it leaves there is below the C call, where a host's wiping of the stack reaches it.
#[tactic(auto, unfolding(blocks::specs::Bytes::big_endian))]
#[inline(never)]
pub fn key(link: &mut [u8], number: u32, wide: u32, keys: &[u8]) -> Result<(), KeyRefusal>
    ensures answer_value { key_says result ≡ sender_keying link.old keys.now }
    ensures link_after { link.new ≡ keyed_sender link.old number wide keys.now }
{
    SenderBytes::key(link, number, wide, keys)
}

// ---- sealing

// The bytes of the tag's shares, and of the tape count behind them.
const SHARES: usize = 48;

const COUNT: usize = 4;

const SHARES_AND_COUNT: usize = SHARES + COUNT;

// Writes the tag's three shares and the tape count.
fn put_shares(tag: [u8; 48], count: usize, shares: &mut [u8])
    requires { shares_size ≤ length shares.old }
    ensures { shares.new ≡ put 0 (tag ++ big_endian count_size count) shares.old }
{
    blocks::put_bytes(&tag, shares, 0);
    blocks::put_number(shares, SHARES, COUNT, count as u64);
}

// Seals a message on shares, with the masks of the tape. A second slice that is too short is refused as a first one is, behind what
// the link, the message and the tape are refused for.
#[tactic(auto, unfolding(blocks::specs::Bytes::big_endian, crate::specs::Calls::sealed_answer, calls::specs::Entry::seal_answer))]
pub fn seal(
    link: &mut [u8],
    message: &[u8],
    tape: &[u8],
    out: &mut [u8],
    shares: &mut [u8],
) -> Result<(), SealRefusal>
    ensures answer_value { let l = link.old in let m = message.now in let t = tape.now in
        said (λ _. []) seal_number result ≡ sealed_answer l m t (length out.old) (length shares.old) }
    ensures link_after { let l = link.old in let m = message.now in let t = tape.now in
        link.new ≡ sealed_link l m t (length out.old) (length shares.old) }
    ensures out_after { let l = link.old in let m = message.now in let t = tape.now in
        out.new ≡ record_output l m t out.old shares.old }
    ensures shares_after { let l = link.old in let m = message.now in let t = tape.now in
        shares.new ≡ shares_output l m t out.old shares.old }
{
    let before = SenderBytes::load(link);
    test_inputs(before, message, tape)?;
    if shares.len() < SHARES_AND_COUNT {
        return Err(SealRefusal::ShortOutput);
    }
    let sealing = sealing::seal(before, message, tape, out);
    let sealed = sealing.answer?;
    SenderBytes::store(sealing.link, link);
    put_shares(sealing.shares, sealed.used, shares);
    Ok(())
}

// ---- the lane report

// Writes a lane of the sealing that the link would do next.
pub fn report(
    link: &[u8],
    message: &[u8],
    tape: &[u8],
    call: u32,
    round: u32,
    lane: u32,
    out: &mut [u8],
) -> Result<(), ReportRefusal>
    ensures answer_value { let x = sender_in link.now in
        report_says result ≡ report_answer x message.now tape.now call round lane (length out.old) }
    ensures out_after { let x = sender_in link.now in
        out.new ≡ report_output x message.now tape.now call round lane out.old }
{
    let sender = SenderBytes::load(link);
    reporting::report(sender, message, tape, call, round, lane, out)
}
