// The width of a link, the form of its records, and what names a sealing; the sending link: what a sender holds between two calls,
// and its keying.
#![tactic(auto)]

ghost use Rattle.std.specs.Prelude.{◌≡◌, ◌+◌, ◌*◌, ◌^◌, ◌<◌, ◌≤◌, length, IfOk};
ghost use Rattle.blocks.specs.Bytes.{part, put};
ghost use Rattle.links.specs.Links.{key_number, sender_keys, key_says, key_answer, fresh_sender, sender_of};
ghost use Rattle.links.specs.Record.{Proper, head_size, added, greatest, told, form_of, usable};
ghost use Rattle.links.specs.Record.{counter_block, head_of};
ghost use Rattle.answers.specs.Answer.{if_done};

mod text;

pub use text::Text;

// ---- sizes, in bytes

// A link number; the number of a counter block.
pub const NUMBER: usize = 4;

pub const INDEX: usize = 4;

// The sequence number in a counter block.
pub const SEQUENCE_MOST: usize = 8;

// The longest message.
pub const LONGEST: usize = 256;

// A tag.
const TAG: usize = 16;

// The form of a record: the bytes of its sequence number and of its tag.
#[derive(Clone, Copy)]
pub struct Form {
    pub sequence: usize,
    pub tag: usize,
}

impl Form {
    // The bytes before the ciphertext.
    pub fn head(self) -> usize
        requires { Proper self }
        ensures { result ≡ head_size self }
    {
        NUMBER + self.sequence
    }

    // The bytes that a record adds to its message.
    pub fn added(self) -> usize
        requires { Proper self }
        ensures { result ≡ added self }
    {
        NUMBER + self.sequence + self.tag
    }
}

// ---- the width of a link

// How many bytes its records have for their sequence numbers: four or eight.
#[derive(Clone, Copy)]
pub enum Width {
    Narrow,
    Wide,
}

// Narrow for 0, wide for any other number.
impl From<u32> for Width {
    ghost from_gives = { λ wide width. width ≡ told wide };

    fn from(wide: u32) -> Width {
        if wide == 0 {
            Width::Narrow
        } else {
            Width::Wide
        }
    }
}

impl Width {
    // The form of its records.
    pub fn form(self) -> Form
        ensures { result ≡ form_of self }
    {
        let sequence = match self {
            Width::Narrow => 4,
            Width::Wide => 8,
        };
        Form { sequence, tag: TAG }
    }

    // The greatest sequence number.
    pub fn greatest(self) -> u64
        ensures { result ≡ greatest (form_of self) }
    {
        match self {
            Width::Narrow => 4294967295,
            Width::Wide => 18446744073709551615,
        }
    }
}

// Whether a link, keyed or not, counts as keyed with this for its last number or its highest.
pub fn usable(keyed: bool, width: Width, number: u64) -> bool
    ensures { result ≡ usable (form_of width) keyed number }
{
    keyed && number <= width.greatest()
}

// ---- keying

#[derive(Clone, Copy, Debug, PartialEq, Eq)]
pub enum KeyRefusal {
    BadKeys,
}

impl From<KeyRefusal> for u32 {
    ghost from_gives = { λ why n. n ≡ key_number why };

    fn from(why: KeyRefusal) -> u32 {
        match why {
            KeyRefusal::BadKeys => 1,
        }
    }
}

// The keys KE and KM of the given bytes, N for each.
pub fn halves<const N: usize>(keys: &[u8]) -> Result<([u8; N], [u8; N]), KeyRefusal>
    requires { 2 * N < 2 ^ 64 }
    ensures answer_value { key_says result ≡ key_answer (2 * N) keys.now }
    ensures keys_value { IfOk result (λ k. (k.0 ≡ part 0 N keys.now) × (k.1 ≡ part N N keys.now)) }
{
    if keys.len() != 2 * N {
        return Err(KeyRefusal::BadKeys);
    }
    let ke = blocks::bytes_at(keys, 0);
    let km = blocks::bytes_at(keys, N);
    Ok((ke, km))
}

// What an entry returns that takes a link by value: its answer, and the link handed back.
#[derive(Clone, Copy)]
pub struct Answered<L, T, E> {
    pub answer: Result<T, E>,
    pub link: L,
}

// ---- the sending link

// The link's number, the last sequence number used, its width, and the keys KE and KM as three shares each.
#[derive(Clone, Copy)]
pub struct Sender {
    pub keyed: bool,
    pub number: u32,
    pub last: u64,
    pub width: Width,
    pub ke: [u8; 48],
    pub km: [u8; 48],
}

impl Sender {
    // All zeros, and not keyed.
    pub fn fresh() -> Sender
        ensures { result ≡ fresh_sender }
    {
        Sender {
            keyed: false,
            number: 0,
            last: 0,
            width: Width::Narrow,
            ke: [0; 48],
            km: [0; 48],
        }
    }

    // Keys the link, narrow where it is told 0: three shares of KE, then three of KM.
    pub fn key(self, number: u32, wide: u32, keys: &[u8]) -> Answered<Sender, (), KeyRefusal>
        ensures answer_value { key_says result.answer ≡ key_answer sender_keys keys.now }
        ensures link_value { result.link
            ≡ if_done (key_answer sender_keys keys.now) (sender_of number (told wide) keys.now) self }
    {
        match halves(keys) {
            Ok(both) => {
                let (ke, km) = both;
                Answered {
                    answer: Ok(()),
                    link: Sender {
                        keyed: true,
                        number,
                        last: 0,
                        width: Width::from(wide),
                        ke,
                        km,
                    },
                }
            }
            Err(why) => Answered {
                answer: Err(why),
                link: self,
            },
        }
    }
}

// ---- counter blocks and records' heads

// What names a sealing: the link's number and a sequence number.
#[derive(Clone, Copy)]
pub struct Nonce {
    pub number: u32,
    pub sequence: u64,
}

impl Nonce {
    // Counter block i.
    pub fn counter_block(self, i: u32) -> [u8; 16]
        ensures { result ≡ counter_block self.number self.sequence i }
    {
        let mut block = [0u8; 16];
        blocks::put_number(&mut block, 0, NUMBER, self.number as u64);
        blocks::put_number(&mut block, NUMBER, SEQUENCE_MOST, self.sequence);
        blocks::put_number(&mut block, NUMBER + SEQUENCE_MOST, INDEX, i as u64);
        block
    }
}

// Writes the head of a record.
pub fn put_head(form: Form, nonce: Nonce, out: &mut [u8])
    requires { Proper form × (head_size form ≤ length out.old) }
    ensures { out.new ≡ put 0 (head_of form nonce.number nonce.sequence) out.old }
{
    blocks::put_number(out, 0, NUMBER, nonce.number as u64);
    blocks::put_number(out, NUMBER, form.sequence, nonce.sequence);
}
