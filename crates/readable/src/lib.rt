// What is tested of a record before its number: it needs no key.
#![tactic(auto)]

ghost use Rattle.std.specs.Prelude.{◌≡◌};
ghost use Rattle.links.specs.Record.{form_of};
ghost use Rattle.readable.specs.Readable.{record_answer};
ghost use Rattle.readable.specs.Tested.{record_number, record_says};

use links::Width;

#[derive(Clone, Copy, Debug, PartialEq, Eq)]
pub enum RecordRefusal {
    NotKeyed,
    BadLength,
    OtherLink,
}

impl From<RecordRefusal> for u32 {
    ghost from_gives = { λ why n. n ≡ record_number why };

    fn from(why: RecordRefusal) -> u32 {
        match why {
            RecordRefusal::NotKeyed => 20,
            RecordRefusal::BadLength => 7,
            RecordRefusal::OtherLink => 8,
        }
    }
}

// Tests a record for the link with this number, keyed or not, of this width, with this highest number accepted.
#[tactic(auto, unfolding(crate::specs::Readable::record_answer))]
pub fn test_record(
    width: Width,
    keyed: bool,
    number: u32,
    highest: u64,
    sealed: &[u8],
) -> Result<(), RecordRefusal>
    ensures { record_says result ≡ record_answer (form_of width) keyed number highest sealed.now }
{
    if !links::usable(keyed, width, highest) {
        return Err(RecordRefusal::NotKeyed);
    }
    let added = width.form().added();
    if !(added..=added + links::LONGEST).contains(&sealed.len()) {
        return Err(RecordRefusal::BadLength);
    }
    if blocks::word_at(sealed, 0) != number {
        return Err(RecordRefusal::OtherLink);
    }
    Ok(())
}
