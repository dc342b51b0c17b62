// Every entry, called on any slices, numbers and links. No function here has a `requires`, so an entry with one that some
// argument breaks is refused here.
#![tactic(auto)]

use body::{Mark, ReadRefusal, ValuesRefusal, WriteRefusal};
use engines::{BlockRefusal, Cipher};
use links::{Answered, KeyRefusal, Sender};
use plain_sealing::PlainRefusal;
use receiver::{OpenRefusal, Receiver};
use reporting::ReportRefusal;
use sealing::Sealing;

// ---- block calls

pub fn call(
    which: Cipher,
    key: &[u8],
    input: &[u8],
    output: &mut [u8],
) -> Result<(), BlockRefusal> {
    engines::call(which, key, input, output)
}

// ---- links

pub fn fresh_sender() -> Sender {
    links::Sender::fresh()
}

pub fn key_sender(
    link: Sender,
    number: u32,
    wide: u32,
    keys: &[u8],
) -> Answered<Sender, (), KeyRefusal> {
    links::Sender::key(link, number, wide, keys)
}

pub fn fresh_receiver() -> Receiver {
    receiver::Receiver::fresh()
}

pub fn key_receiver(
    link: Receiver,
    number: u32,
    wide: u32,
    keys: &[u8],
) -> Answered<Receiver, (), KeyRefusal> {
    receiver::Receiver::key(link, number, wide, keys)
}

// ---- sealing, report and opening

pub fn seal_plain(
    keys: &[u8],
    number: u32,
    wide: u32,
    sequence: u64,
    message: &[u8],
    out: &mut [u8],
) -> Result<usize, PlainRefusal> {
    plain_sealing::seal(keys, number, wide, sequence, message, out)
}

pub fn seal(link: Sender, message: &[u8], tape: &[u8], out: &mut [u8]) -> Sealing {
    sealing::seal(link, message, tape, out)
}

// The link goes by value into `lent::seal_through`, which lends it to `lent::seal_next`.
pub fn seal_lent(link: Sender, message: &[u8], tape: &[u8], out: &mut [u8]) -> Sealing {
    lent::seal_through(link, message, tape, out)
}

pub fn report(
    link: Sender,
    message: &[u8],
    tape: &[u8],
    call: u32,
    round: u32,
    lane: u32,
    out: &mut [u8],
) -> Result<(), ReportRefusal> {
    reporting::report(link, message, tape, call, round, lane, out)
}

pub fn open(
    link: Receiver,
    sealed: &[u8],
    out: &mut [u8],
) -> Answered<Receiver, usize, OpenRefusal> {
    receiver::Receiver::open(link, sealed, out)
}

// ---- bodies

pub fn read(body: &[u8]) -> Result<Mark, ReadRefusal> {
    reading::read(body)
}

pub fn write(mark: Mark, out: &mut [u8]) -> Result<usize, WriteRefusal> {
    writing::write(mark, out)
}

pub fn read_values(body: &[u8], out: &mut [u8]) -> Result<(), ValuesRefusal> {
    reading::read_values(body, out)
}

pub fn write_values(
    seconds: u64,
    fraction: u32,
    given: u32,
    z: i32,
    out: &mut [u8],
) -> Result<usize, WriteRefusal> {
    writing::write_values(seconds, fraction, given, z, out)
}

// ---- C calls

pub fn c_encrypt_table(key: &[u8], input: &[u8], output: &mut [u8]) -> u32 {
    rasppuce::rasppuce_encrypt_table(key, input, output)
}

pub fn c_encrypt_packed(key: &[u8], input: &[u8], output: &mut [u8]) -> u32 {
    rasppuce::rasppuce_encrypt_packed(key, input, output)
}

pub fn c_decrypt_table(key: &[u8], input: &[u8], output: &mut [u8]) -> u32 {
    rasppuce::rasppuce_decrypt_table(key, input, output)
}

pub fn c_decrypt_packed(key: &[u8], input: &[u8], output: &mut [u8]) -> u32 {
    rasppuce::rasppuce_decrypt_packed(key, input, output)
}

pub fn c_key_sender(link: &mut [u8], number: u32, wide: u32, keys: &[u8]) -> u32 {
    rasppuce::rasppuce_key_sender(link, number, wide, keys)
}

pub fn c_key_receiver(link: &mut [u8], number: u32, wide: u32, keys: &[u8]) -> u32 {
    rasppuce::rasppuce_key_receiver(link, number, wide, keys)
}

pub fn c_seal(
    link: &mut [u8],
    message: &[u8],
    tape: &[u8],
    out: &mut [u8],
    shares: &mut [u8],
) -> u32 {
    rasppuce::rasppuce_seal(link, message, tape, out, shares)
}

pub fn c_report(
    link: &[u8],
    message: &[u8],
    tape: &[u8],
    call: u32,
    round: u32,
    lane: u32,
    out: &mut [u8],
) -> u32 {
    rasppuce::rasppuce_report(link, message, tape, call, round, lane, out)
}

pub fn c_seal_plain(
    keys: &[u8],
    number: u32,
    wide: u32,
    sequence: u64,
    message: &[u8],
    out: &mut [u8],
) -> u32 {
    rasppuce::rasppuce_seal_plain(keys, number, wide, sequence, message, out)
}

pub fn c_open(link: &mut [u8], sealed: &[u8], out: &mut [u8]) -> u32 {
    rasppuce::rasppuce_open(link, sealed, out)
}

pub fn c_read_body(body: &[u8], values: &mut [u8]) -> u32 {
    rasppuce::rasppuce_read_body(body, values)
}

pub fn c_write_body(seconds: u64, fraction: u32, given: u32, offset: i32, out: &mut [u8]) -> u32 {
    rasppuce::rasppuce_write_body(seconds, fraction, given, offset, out)
}
