// Writing the body of a mark.
#![tactic(auto)]

ghost use Rattle.std.specs.Prelude.{◌≡◌, true, ◌+◌, ◌<◌, ◌≤◌, length};
ghost use Rattle.blocks.specs.Bytes.{put};
ghost use Rattle.body.specs.Words.{fields};
ghost use Rattle.body.specs.Mark.{fits, word_bytes, written, mark_with};
ghost use Rattle.body.specs.Entry.{write_says, write_answer, write_output};

use body::{Mark, WriteRefusal};

// How many numbers a field holds.
const FIELDS: u64 = body::FIELDS as u64;

// How many numbers the two fields of the seconds hold.
const SECONDS: u64 = FIELDS * FIELDS;

// Whether each value is in its range.
fn in_range(mark: Mark) -> bool
    ensures { result ≡ fits mark }
{
    mark.seconds < SECONDS
        && mark.fraction < body::FIELDS
        && mark.offset.is_none_or(body::offset_in_range)
}

// How many bytes the body of a mark has.
#[tactic(auto, using(body::proofs::Writing::written_size))]
fn size(mark: Mark) -> usize
    ensures { result ≡ length (written mark) }
{
    if mark.offset.is_some() { 16 } else { 12 }
}

// Writes a word of a kind from `at`.
fn put_word(kind: u64, field: u64, out: &mut [u8], at: usize)
    requires kind_fits { kind < 16 }
    requires field_fits { field < fields }
    requires in_bounds { at + 4 ≤ length out.old }
    ensures { out.new ≡ put at (word_bytes kind field) out.old }
{
    blocks::put_number(out, at, 4, kind * FIELDS + field);
}

// Writes the body of a mark from the output's start.
#[tactic(auto, using(body::proofs::Writing::written_size))]
fn put_body(mark: Mark, out: &mut [u8])
    requires in_range { fits mark ≡ true }
    requires in_bounds { length (written mark) ≤ length out.old }
    ensures { out.new ≡ put 0 (written mark) out.old }
{
    put_word(1, mark.seconds / FIELDS, out, 0);
    put_word(2, mark.seconds % FIELDS, out, 4);
    put_word(3, u64::from(mark.fraction), out, 8);
    if let Some(minutes) = mark.offset {
        put_word(4, u64::from(body::field_of(minutes)), out, 12);
    }
}

// Writes the body of a mark, and returns its length.
#[tactic(auto, unfolding(body::specs::Entry::write_answer))]
pub fn write(mark: Mark, out: &mut [u8]) -> Result<usize, WriteRefusal>
    ensures result_value { write_says result ≡ write_answer mark (length out.old) }
    ensures out_after { out.new ≡ write_output mark out.old }
{
    if !in_range(mark) {
        return Err(WriteRefusal::BadValue);
    }
    let len = size(mark);
    if out.len() < len {
        return Err(WriteRefusal::ShortOutput);
    }
    put_body(mark, out);
    Ok(len)
}

// Writes the body of a mark of these values; `given` is 0 where it has no offset.
pub fn write_values(
    seconds: u64,
    fraction: u32,
    given: u32,
    z: i32,
    out: &mut [u8],
) -> Result<usize, WriteRefusal>
    ensures value { write_says result ≡ write_answer (mark_with seconds fraction given z) (length out.old) }
    ensures out_after { out.new ≡ write_output (mark_with seconds fraction given z) out.old }
{
    let offset = (given != 0).then_some(z);
    write(
        Mark {
            seconds,
            fraction,
            offset,
        },
        out,
    )
}
