// Reading a body: its mark, or the values of its mark as bytes.
#![tactic(auto)]

ghost use Rattle.std.specs.Prelude.{◌≡◌, List, [], ◌∷◌, ◌++◌, ℕ, ◌≤◌, length, MatchOption, MatchResult};
ghost use Rattle.blocks.specs.Bytes.{put};
ghost use Rattle.body.specs.Words.{words};
ghost use Rattle.body.specs.Mark.{values};
ghost use Rattle.body.specs.Entry.{right_length, read_says, read_answer, values_says, values_answer, values_output};
ghost use Rattle.reading.specs.Found.{Holds, IsBad};

use body::{FIELDS, Mark, ReadRefusal, ValuesRefusal};

// Puts what a word says in the place of its kind. A second word of a kind is bad.
fn put_first<T: Drop>(place: &mut Option<T>, says: T) -> Result<(), ReadRefusal>
    ensures { MatchOption place.old ((result ≡ Ok tt) × (place.new ≡ Some says)) (λ _. result ≡ Err ReadRefusal.BadWord) }
{
    match place.replace(says) {
        None => Ok(()),
        Some(_) => Err(ReadRefusal::BadWord),
    }
}

// What the first word of each kind says.
#[derive(Clone, Copy, Default)]
struct Found {
    high: Option<u32>,
    low: Option<u32>,
    fraction: Option<u32>,
    offset: Option<i32>,
}

impl Found {
    // Takes a word, unless it is bad.
    fn take(&mut self, word: u32) -> Result<(), ReadRefusal>
        ensures { (ws : List ℕ) → Holds self.old ws →
            MatchResult result (λ _. Holds self.new (ws ++ word ∷ [])) (λ why. IsBad why (ws ++ word ∷ [])) }
    {
        let field = word % FIELDS;
        match word / FIELDS {
            1 => put_first(&mut self.high, field),
            2 => put_first(&mut self.low, field),
            3 => put_first(&mut self.fraction, field),
            4 => {
                let minutes = body::minutes_in(field);
                if !body::offset_in_range(minutes) {
                    return Err(ReadRefusal::BadWord);
                }
                put_first(&mut self.offset, minutes)
            }
            5..=15 => Ok(()),
            _ => Err(ReadRefusal::BadWord),
        }
    }
}

fn found_in(body: &[u8]) -> Result<Found, ReadRefusal>
    ensures { MatchResult result (λ found. Holds found (words body.now)) (λ why. IsBad why (words body.now)) }
{
    let mut found = Found::default();
    let (words, _) = body.as_chunks::<4>();
    for word in words {
        found.take(u32::from_be_bytes(*word))?;
    }
    Ok(found)
}

fn right_length(len: usize) -> bool
    ensures { result ≡ right_length len }
{
    (4..=256).contains(&len) && len % 4 == 0
}

// Reads the mark of a body.
#[tactic(auto, unfolding(body::specs::Entry::read_answer))]
pub fn read(body: &[u8]) -> Result<Mark, ReadRefusal>
    ensures { read_says result ≡ read_answer body.now }
{
    if !right_length(body.len()) {
        return Err(ReadRefusal::BadLength);
    }
    let found = found_in(body)?;
    let (Some(high), Some(low), Some(fraction)) = (found.high, found.low, found.fraction) else {
        return Err(ReadRefusal::MissingKind);
    };
    Ok(Mark {
        seconds: u64::from(high) * u64::from(FIELDS) + u64::from(low),
        fraction,
        offset: found.offset,
    })
}

// ---- the values of a mark, as bytes

const VALUES: usize = 17;

// Writes the values of a mark from the output's start.
fn put_values(mark: Mark, out: &mut [u8])
    requires { 17 ≤ length out.old }
    ensures { out.new ≡ put 0 (values mark) out.old }
{
    blocks::put_number(out, 0, 8, mark.seconds);
    blocks::put_number(out, 8, 4, u64::from(mark.fraction));
    blocks::put_number(out, 12, 1, u64::from(mark.offset.is_some()));
    blocks::put_number(
        out,
        13,
        4,
        u64::from(mark.offset.unwrap_or(0).cast_unsigned()),
    );
}

// Reads the mark of a body and writes its values.
#[tactic(auto, unfolding(body::specs::Entry::read_answer, body::specs::Entry::values_answer))]
pub fn read_values(body: &[u8], out: &mut [u8]) -> Result<(), ValuesRefusal>
    ensures value { values_says result ≡ values_answer body.now (length out.old) }
    ensures out_after { out.new ≡ values_output body.now out.old }
{
    let mark = read(body)?;
    if out.len() < VALUES {
        return Err(ValuesRefusal::ShortOutput);
    }
    put_values(mark, out);
    Ok(())
}
