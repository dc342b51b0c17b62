// Links as bytes: a flag, link number, last number, keys, and a tail: a word, where the kind of link has one, and the width. A kind
// says what its links hold, and how one is keyed by value; it is read, written and keyed in bytes as any other.
#![tactic(auto)]

ghost use Rattle.std.specs.Prelude.{◌≡◌, ℕ, ◌+◌, ◌≤◌, length, IfOk};
ghost use Rattle.answers.specs.Answer.{if_done};
ghost use Rattle.links.specs.Links.{key_says, key_answer};
ghost use Rattle.links.specs.Record.{told};
ghost use Rattle.layout.specs.Layout.{flag, width_byte};
ghost use Rattle.layout.specs.Kind.{size, fields_at, fresh_fields, keyed_fields, bytes_of, link_in};
ghost use Rattle.layout.specs.Keying.{keying_answer};
ghost use Rattle.layout.specs.declared.Fields.{Fields};

use links::{KeyRefusal, Width};

// Where the link number, the last number and the keys begin.
const NUMBER_AT: usize = 1;

const LAST_AT: usize = NUMBER_AT + links::NUMBER;

pub const KEYS_AT: usize = LAST_AT + LAST;

// The bytes of the last number used, of a receiver the highest accepted.
const LAST: usize = links::SEQUENCE_MOST;

// ---- what a link holds

// What a link of any kind holds, with keys of K bytes each; where its kind has no word, that is 0.
#[derive(Clone, Copy)]
pub struct Fields<const K: usize> {
    pub keyed: bool,
    pub number: u32,
    pub last: u64,
    pub word: u64,
    pub width: Width,
    pub ke: [u8; K],
    pub km: [u8; K],
}

impl<const K: usize> Fields<K> {
    // All zeros, and not keyed.
    fn fresh() -> Fields<K>
        ensures { result ≡ fresh_fields K }
    {
        Fields {
            keyed: false,
            number: 0,
            last: 0,
            word: 0,
            width: Width::Narrow,
            ke: [0; K],
            km: [0; K],
        }
    }

    // Reads the bytes of a link with a word of w bytes.
    fn read(bytes: &[u8], w: usize) -> Fields<K>
        requires { (w ≤ 8) × (length bytes.now ≡ size K w) }
        ensures { result ≡ fields_at K w bytes.now }
    {
        let width_at = bytes.len() - 1;
        Fields {
            keyed: bytes[0] == 1,
            number: blocks::word_at(bytes, NUMBER_AT),
            last: blocks::number_at(bytes, LAST_AT, LAST),
            word: blocks::number_at(bytes, width_at - w, w),
            width: Width::from(bytes[width_at] as u32),
            ke: blocks::bytes_at(bytes, KEYS_AT),
            km: blocks::bytes_at(bytes, KEYS_AT + K),
        }
    }

    // Writes the bytes of such a link. It goes into its callers, so that a link is not copied on its way.
    #[inline(always)]
    fn write(&self, bytes: &mut [u8], w: usize)
        requires { (w ≤ 8) × (length bytes.old ≡ size K w) }
        ensures { bytes.new ≡ bytes_of w self.now }
    {
        let width_at = bytes.len() - 1;
        blocks::put_bytes(&[flag(self.keyed)], bytes, 0);
        blocks::put_number(bytes, NUMBER_AT, links::NUMBER, self.number as u64);
        blocks::put_number(bytes, LAST_AT, LAST, self.last);
        blocks::put_bytes(&self.ke, bytes, KEYS_AT);
        blocks::put_bytes(&self.km, bytes, KEYS_AT + K);
        blocks::put_number(bytes, width_at - w, w, self.word);
        blocks::put_bytes(&[width_byte(self.width)], bytes, width_at);
    }
}

// The byte that says whether a link is keyed, and the one that says its width.
fn flag(keyed: bool) -> u8
    ensures { result ≡ flag keyed }
{
    u8::from(keyed)
}

fn width_byte(width: Width) -> u8
    ensures { result ≡ width_byte width }
{
    width as u8
}

// ---- links in bytes

// A kind of link that a host stores, with keys of K bytes each and a word of WORD bytes.
pub trait Stored<const K: usize> {
    type Link: Copy;

    ghost WORD: { ℕ };

    ghost SIZE: { ℕ };

    ghost held: { Self.Link → Fields K };

    ghost holding: { Fields K → Self.Link };

    const WORD: usize;

    // The bytes of a link.
    const SIZE: usize;

    // What a link holds.
    fn held(link: Self::Link) -> Fields<K>
        ensures { result ≡ held link };

    // The link that holds it.
    fn holding(fields: &Fields<K>) -> Self::Link
        ensures { result ≡ holding fields.now };

    // A link keyed by value, narrow where it is told 0: KE, then KM.
    fn keyed(number: u32, wide: u32, keys: &[u8]) -> Result<Self::Link, KeyRefusal>
        ensures answer_value { key_says result ≡ key_answer (K + K) keys.now }
        ensures link_value { IfOk result (λ link. link ≡ holding (keyed_fields K number (told wide) keys.now)) };

    // Keys and word are short, and a link has the bytes of its parts.
    ghost short: { (K ≤ 64) × (WORD ≤ 8) };

    ghost sized: { SIZE ≡ size K WORD };

    // What a link holds is all that it is.
    ghost same: { (x : Self.Link) → holding (held x) ≡ x };

    // The link that bytes say; bytes of another length, or with no width, say a fresh one.
    final fn load(bytes: &[u8]) -> Self::Link
        ensures { result ≡ link_in K WORD holding bytes.now }
    {
        if bytes.len() != Self::SIZE || bytes[Self::SIZE - 1] > 1 {
            return Self::holding(&Fields::fresh());
        }
        Self::holding(&Fields::read(bytes, Self::WORD))
    }

    // Writes the bytes that say a link; it goes into its callers as `write` does.
    #[inline(always)]
    final fn store(link: Self::Link, bytes: &mut [u8])
        requires { length bytes.old ≡ SIZE }
        ensures { bytes.new ≡ bytes_of WORD (held link) }
    {
        Self::held(link).write(bytes, Self::WORD)
    }

    // Keys the link that bytes say; bytes of another length are refused as keys of another length are.
    #[tactic(auto, unfolding(crate::specs::Keying::keying_answer, links::specs::Links::key_answer))]
    final fn key(bytes: &mut [u8], number: u32, wide: u32, keys: &[u8]) -> Result<(), KeyRefusal>
        ensures answer_value { key_says result ≡ keying_answer SIZE (K + K) bytes.old keys.now }
        ensures bytes_after { bytes.new
            ≡ if_done (keying_answer SIZE (K + K) bytes.old keys.now)
            (bytes_of WORD (held (holding (keyed_fields K number (told wide) keys.now)))) bytes.old }
    {
        if bytes.len() != Self::SIZE {
            return Err(KeyRefusal::BadKeys);
        }
        // Told here too, so that what is left goes one way and the keys are copied once.
        if keys.len() != 2 * K {
            return Err(KeyRefusal::BadKeys);
        }
        let link = Self::keyed(number, wide, keys)?;
        Self::store(link, bytes);
        Ok(())
    }
}
