// The calls of a host in C: each slice is a pointer and a length, and each call returns 0 or the refusal's number.
#![tactic(auto)]

ghost use Rattle.std.specs.Prelude.{◌≡◌, length};
ghost use Rattle.answers.specs.Answer.{number_of};
ghost use Rattle.baksheesh.specs.Baksheesh.{encrypt, decrypt};
ghost use Rattle.engines.specs.Block.{block_answer, block_output};
ghost use Rattle.body.specs.Mark.{mark_with};
ghost use Rattle.body.specs.Entry.{values_answer, values_output, write_answer, write_output};
ghost use Rattle.links.specs.Record.{told, form_of};
ghost use Rattle.plain.specs.Entry.{plain_answer, plain_output};
ghost use Rattle.calls.specs.Entry.{report_answer, report_output};
ghost use Rattle.sending.specs.Stored.{sender_in};
ghost use Rattle.sending.specs.Calls.{sender_keying, keyed_sender, sealed_answer, sealed_link, record_output, shares_output};
ghost use Rattle.receiving.specs.Calls.{receiver_keying, keyed_receiver, opened_answer, opened_link, opened_output};

use engines::Cipher;

// ---- block calls

pub fn rasppuce_encrypt_table(key: &[u8], input: &[u8], output: &mut [u8]) -> u32
    ensures value { result ≡ number_of (block_answer key.now input.now output.old) }
    ensures output_after { output.new ≡ block_output encrypt key.now input.now output.old }
{
    answers::code(engines::call(Cipher::EncryptTable, key, input, output))
}

pub fn rasppuce_encrypt_packed(key: &[u8], input: &[u8], output: &mut [u8]) -> u32
    ensures value { result ≡ number_of (block_answer key.now input.now output.old) }
    ensures output_after { output.new ≡ block_output encrypt key.now input.now output.old }
{
    answers::code(engines::call(Cipher::EncryptPacked, key, input, output))
}

pub fn rasppuce_decrypt_table(key: &[u8], input: &[u8], output: &mut [u8]) -> u32
    ensures value { result ≡ number_of (block_answer key.now input.now output.old) }
    ensures output_after { output.new ≡ block_output decrypt key.now input.now output.old }
{
    answers::code(engines::call(Cipher::DecryptTable, key, input, output))
}

pub fn rasppuce_decrypt_packed(key: &[u8], input: &[u8], output: &mut [u8]) -> u32
    ensures value { result ≡ number_of (block_answer key.now input.now output.old) }
    ensures output_after { output.new ≡ block_output decrypt key.now input.now output.old }
{
    answers::code(engines::call(Cipher::DecryptPacked, key, input, output))
}

// ---- the calls on a sending link

// Keys a sending link, narrow where it is told 0: three shares of KE, then three of KM.
pub fn rasppuce_key_sender(link: &mut [u8], number: u32, wide: u32, keys: &[u8]) -> u32
    ensures value { result ≡ number_of (sender_keying link.old keys.now) }
    ensures link_after { link.new ≡ keyed_sender link.old number wide keys.now }
{
    answers::code(sending::key(link, number, wide, keys))
}

// Seals a message on shares, with the masks of the tape.
pub fn rasppuce_seal(
    link: &mut [u8],
    message: &[u8],
    tape: &[u8],
    out: &mut [u8],
    shares: &mut [u8],
) -> u32
    ensures value { result
        ≡ number_of (sealed_answer link.old message.now tape.now (length out.old)
        (length shares.old)) }
    ensures link_after { link.new
        ≡ sealed_link link.old message.now tape.now (length out.old)
        (length shares.old) }
    ensures out_after { out.new
        ≡ record_output link.old message.now tape.now out.old shares.old }
    ensures shares_after { shares.new
        ≡ shares_output link.old message.now tape.now out.old shares.old }
{
    answers::code(sending::seal(link, message, tape, out, shares))
}

// Writes a lane of the sealing that the link would do next.
pub fn rasppuce_report(
    link: &[u8],
    message: &[u8],
    tape: &[u8],
    call: u32,
    round: u32,
    lane: u32,
    out: &mut [u8],
) -> u32
    ensures value { result
        ≡ number_of (report_answer (sender_in link.now) message.now tape.now call round lane
        (length out.old)) }
    ensures out_after { out.new
        ≡ report_output (sender_in link.now) message.now tape.now call round lane out.old }
{
    answers::code(sending::report(link, message, tape, call, round, lane, out))
}

// Seals a message plainly, into a narrow record where it is told 0: KE, then KM.
pub fn rasppuce_seal_plain(
    keys: &[u8],
    number: u32,
    wide: u32,
    sequence: u64,
    message: &[u8],
    out: &mut [u8],
) -> u32
    ensures value { result
        ≡ number_of (plain_answer (form_of (told wide)) keys.now sequence message.now (length out.old)) }
    ensures out_after { out.new
        ≡ plain_output (form_of (told wide)) encrypt keys.now number sequence message.now out.old }
{
    answers::code(plain_sealing::seal(keys, number, wide, sequence, message, out))
}

// ---- the calls on a receiving link

// Keys a receiving link, narrow where it is told 0: KE, then KM.
pub fn rasppuce_key_receiver(link: &mut [u8], number: u32, wide: u32, keys: &[u8]) -> u32
    ensures value { result ≡ number_of (receiver_keying link.old keys.now) }
    ensures link_after { link.new ≡ keyed_receiver link.old number wide keys.now }
{
    answers::code(receiving::key(link, number, wide, keys))
}

// Opens a record.
pub fn rasppuce_open(link: &mut [u8], sealed: &[u8], out: &mut [u8]) -> u32
    ensures value { result ≡ number_of (opened_answer link.old sealed.now (length out.old)) }
    ensures link_after { link.new ≡ opened_link link.old sealed.now (length out.old) }
    ensures out_after { out.new ≡ opened_output link.old sealed.now out.old }
{
    answers::code(receiving::open(link, sealed, out))
}

// ---- the body of a mark

// Reads a body: the values of its mark.
pub fn rasppuce_read_body(body: &[u8], values: &mut [u8]) -> u32
    ensures value { result ≡ number_of (values_answer body.now (length values.old)) }
    ensures values_after { values.new ≡ values_output body.now values.old }
{
    answers::code(reading::read_values(body, values))
}

// Writes the body of a mark; where `given` is 0 it has no offset.
pub fn rasppuce_write_body(
    seconds: u64,
    fraction: u32,
    given: u32,
    offset: i32,
    out: &mut [u8],
) -> u32
    ensures value { result ≡ number_of (write_answer (mark_with seconds fraction given offset) (length out.old)) }
    ensures out_after { out.new ≡ write_output (mark_with seconds fraction given offset) out.old }
{
    answers::code(writing::write_values(seconds, fraction, given, offset, out))
}
