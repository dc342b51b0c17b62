// The body of a mark: words of 32 bits, each with its kind in the top four and a field in the others. A mark, why one is not read
// or not written, and the local offset in two's complement.
#![tactic(auto)]

ghost use Rattle.std.specs.Prelude.{◌≡◌, ◌<◌};
ghost use Rattle.std.specs.Int.Signed.{mag};
ghost use Rattle.body.specs.Signed.{residue};
ghost use Rattle.body.specs.Words.{fields, minutes, offset_in_range};
ghost use Rattle.body.specs.Entry.{read_number, values_number, write_number};

#[derive(Clone, Copy, Debug, PartialEq, Eq)]
pub struct Mark {
    pub seconds: u64,
    // In 2^-28 seconds.
    pub fraction: u32,
    // The local offset in minutes, where there is one.
    pub offset: Option<i32>,
}

// Why a body is not read.
#[derive(Clone, Copy, Debug, PartialEq, Eq)]
pub enum ReadRefusal {
    BadLength,
    BadWord,
    MissingKind,
}

impl From<ReadRefusal> for u32 {
    ghost from_gives = { λ why n. n ≡ read_number why };

    fn from(why: ReadRefusal) -> u32 {
        match why {
            ReadRefusal::BadLength => 30,
            ReadRefusal::BadWord => 31,
            ReadRefusal::MissingKind => 32,
        }
    }
}

// Why the values of a body's mark are not written.
#[derive(Clone, Copy, Debug, PartialEq, Eq)]
pub enum ValuesRefusal {
    Body(ReadRefusal),
    ShortOutput,
}

impl From<ReadRefusal> for ValuesRefusal {
    ghost use Rattle.body.specs.declared.ValuesRefusal.TheVariants.{Body};

    ghost from_gives = { λ why e. e ≡ Body why };

    fn from(why: ReadRefusal) -> ValuesRefusal {
        ValuesRefusal::Body(why)
    }
}

impl From<ValuesRefusal> for u32 {
    ghost from_gives = { λ why n. n ≡ values_number why };

    fn from(why: ValuesRefusal) -> u32 {
        match why {
            ValuesRefusal::Body(why) => why.into(),
            ValuesRefusal::ShortOutput => 4,
        }
    }
}

// Why the body of a mark is not written.
#[derive(Clone, Copy, Debug, PartialEq, Eq)]
pub enum WriteRefusal {
    BadValue,
    ShortOutput,
}

impl From<WriteRefusal> for u32 {
    ghost from_gives = { λ why n. n ≡ write_number why };

    fn from(why: WriteRefusal) -> u32 {
        match why {
            WriteRefusal::BadValue => 31,
            WriteRefusal::ShortOutput => 4,
        }
    }
}

// How many numbers a field holds.
pub const FIELDS: u32 = 1 << 28;

// ---- the offset in two's complement

// The minutes that a field says.
pub fn minutes_in(field: u32) -> i32
    requires { field < fields }
    ensures { result ≡ minutes field }
{
    (field << 4).cast_signed() >> 4
}

// The field that says some minutes.
pub fn field_of(minutes: i32) -> u32
    ensures { result ≡ residue fields minutes }
{
    minutes.cast_unsigned() % FIELDS
}

// Whether an offset is in its range.
pub fn offset_in_range(minutes: i32) -> bool
    ensures { result ≡ offset_in_range minutes }
{
    (-720..=840).contains(&minutes)
}
