// Plain sealing: the record of a message, CTR under KE and CMAC under KM.
#![tactic(auto)]

ghost use Rattle.std.specs.Prelude.{◌≡◌, ◌≤◌, length};
ghost use Rattle.blocks.specs.Bytes.{put};
ghost use Rattle.baksheesh.specs.Baksheesh.{encrypt};
ghost use Rattle.links.specs.Record.{Proper, record_size, told, form_of};
ghost use Rattle.plain.specs.Plain.{plain_record};
ghost use Rattle.plain.specs.Entry.{plain_answer, plain_output};
ghost use Rattle.plain_sealing.specs.Says.{plain_number, plain_says};

use links::{Form, KeyRefusal, Nonce, Text, Width};

#[derive(Clone, Copy, Debug, PartialEq, Eq)]
pub enum PlainRefusal {
    BadKeys,
    BadSequence,
    LongMessage,
    ShortOutput,
}

impl From<PlainRefusal> for u32 {
    ghost from_gives = { λ why n. n ≡ plain_number why };

    fn from(why: PlainRefusal) -> u32 {
        match why {
            PlainRefusal::BadKeys => 1,
            PlainRefusal::BadSequence => 10,
            PlainRefusal::LongMessage => 2,
            PlainRefusal::ShortOutput => 4,
        }
    }
}

impl From<KeyRefusal> for PlainRefusal {
    ghost use Rattle.plain_sealing.specs.declared.PlainRefusal.TheVariants.{BadKeys};

    ghost from_gives = { λ _ why. why ≡ BadKeys };

    fn from(why: KeyRefusal) -> PlainRefusal {
        match why {
            KeyRefusal::BadKeys => PlainRefusal::BadKeys,
        }
    }
}

// Writes the record of a message from the output's start.
fn put_record(form: Form, ke: [u8; 16], km: [u8; 16], nonce: Nonce, message: &Text, out: &mut [u8])
    requires proper { Proper form }
    requires room { record_size form (length message.now) ≤ length out.old }
    ensures { out.new
        ≡ put 0 (plain_record form (encrypt ke) (encrypt km) nonce.number nonce.sequence message.now) out.old }
{
    let head = form.head();
    let end = head + message.bytes.len();
    links::put_head(form, nonce, out);
    ctrmac::crypt(ke, nonce, message, out, head);
    let code = ctrmac::mac(km, nonce, &Text::of(&out[head..end]));
    blocks::put_bytes(&code[..form.tag], out, end);
}

// Seals a message, under keys of 32 bytes: KE, then KM. The record is narrow where `wide` is 0; its length is returned.
#[tactic(auto, using(links::proofs::Widths::proper_of), unfolding(plain::specs::Entry::plain_answer, links::specs::Links::key_answer))]
pub fn seal(
    keys: &[u8],
    number: u32,
    wide: u32,
    sequence: u64,
    message: &[u8],
    out: &mut [u8],
) -> Result<usize, PlainRefusal>
    ensures result_value { plain_says result
        ≡ plain_answer (form_of (told wide)) keys.now sequence message.now (length out.old) }
    ensures out_after { out.new
        ≡ plain_output (form_of (told wide)) encrypt keys.now number sequence message.now out.old }
{
    let (ke, km) = links::halves(keys)?;
    let width = Width::from(wide);
    if sequence == 0 || width.greatest() < sequence {
        return Err(PlainRefusal::BadSequence);
    }
    if links::LONGEST < message.len() {
        return Err(PlainRefusal::LongMessage);
    }
    let form = width.form();
    let len = message.len() + form.added();
    if out.len() < len {
        return Err(PlainRefusal::ShortOutput);
    }
    let nonce = Nonce { number, sequence };
    put_record(form, ke, km, nonce, &Text::of(message), out);
    Ok(len)
}
