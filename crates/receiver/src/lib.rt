// The receiving link: what a receiver holds between two calls, its keying, and opening.
#![tactic(auto)]

ghost use Rattle.std.specs.Prelude.{◌≡◌, ◌≤◌, [], ◌∷◌, length, IfOk};
ghost use Rattle.answers.specs.Answer.{said, if_done};
ghost use Rattle.baksheesh.specs.Baksheesh.{encrypt};
ghost use Rattle.links.specs.Links.{key_says, key_answer};
ghost use Rattle.links.specs.Record.{told};
ghost use Rattle.readable.specs.Readable.{record_answer};
ghost use Rattle.readable.specs.Tested.{record_says};
ghost use Rattle.opening.specs.Opener.{receiver_keys};
ghost use Rattle.opening.specs.Open.{message_size, open_answer, open_output};
ghost use Rattle.receiver.specs.Receivers.{opener_of, receiver_form, fresh_receiver, receiver_of, opened_receiver};
ghost use Rattle.receiver.specs.Says.{open_number, open_says};

mod record;

use links::{Answered, KeyRefusal, Nonce, Width};
use readable::RecordRefusal;
use record::Record;
use window::Window;

// The link's number, the window of the sequence numbers accepted, its width, and the keys KE and KM.
#[derive(Clone, Copy)]
pub struct Receiver {
    pub keyed: bool,
    pub number: u32,
    pub window: Window,
    pub width: Width,
    pub ke: [u8; 16],
    pub km: [u8; 16],
}

#[derive(Clone, Copy, Debug, PartialEq, Eq)]
pub enum OpenRefusal {
    // The record is refused before its number is looked at.
    Record(RecordRefusal),
    ShortOutput,
    BelowWindow,
    Repeated,
    WrongTag,
}

impl From<OpenRefusal> for u32 {
    ghost from_gives = { λ why n. n ≡ open_number why };

    fn from(why: OpenRefusal) -> u32 {
        match why {
            OpenRefusal::Record(why) => why.into(),
            OpenRefusal::ShortOutput => 4,
            OpenRefusal::BelowWindow => 35,
            OpenRefusal::Repeated => 22,
            OpenRefusal::WrongTag => 9,
        }
    }
}

impl From<RecordRefusal> for OpenRefusal {
    ghost use Rattle.receiver.specs.declared.OpenRefusal.TheVariants.{Record};

    ghost from_gives = { λ why refusal. refusal ≡ Record why };

    fn from(why: RecordRefusal) -> OpenRefusal {
        OpenRefusal::Record(why)
    }
}

impl Receiver {
    // All zeros, and not keyed.
    pub fn fresh() -> Receiver
        ensures { result ≡ fresh_receiver }
    {
        Receiver {
            keyed: false,
            number: 0,
            window: Window::empty(),
            width: Width::Narrow,
            ke: [0; 16],
            km: [0; 16],
        }
    }

    // Keys the link, narrow where it is told 0: KE, then KM.
    pub fn key(self, number: u32, wide: u32, keys: &[u8]) -> Answered<Receiver, (), KeyRefusal>
        ensures answer_value { key_says result.answer ≡ key_answer receiver_keys keys.now }
        ensures link_value { result.link
            ≡ if_done (key_answer receiver_keys keys.now) (receiver_of number (told wide) keys.now) self }
    {
        match links::halves(keys) {
            Ok(both) => {
                let (ke, km) = both;
                Answered {
                    answer: Ok(()),
                    link: Receiver {
                        keyed: true,
                        number,
                        window: Window::empty(),
                        width: Width::from(wide),
                        ke,
                        km,
                    },
                }
            }
            Err(why) => Answered {
                answer: Err(why),
                link: self,
            },
        }
    }

    // The record that the bytes are, of the link's form and with its number.
    fn read<'a>(self, sealed: &'a [u8]) -> Result<Record<'a>, RecordRefusal>
        ensures answer_value { record_says result
            ≡ record_answer (receiver_form self) self.keyed self.number self.window.highest sealed.now }
        ensures record_value { IfOk result (λ r. (r.form ≡ receiver_form self) × (r.bytes.now ≡ sealed.now)) }
    {
        let width = self.width;
        readable::test_record(width, self.keyed, self.number, self.window.highest, sealed)?;
        Ok(Record {
            form: width.form(),
            bytes: sealed,
        })
    }

    // The record that the bytes are, where it may be opened, with room for so many bytes: all that opening tests.
    #[tactic(auto, unfolding(opening::specs::Open::open_answer, readable::specs::Readable::record_answer))]
    fn accept<'a>(self, sealed: &'a [u8], room: usize) -> Result<Record<'a>, OpenRefusal>
        ensures answer_value { said (λ r. message_size r.form r.bytes.now ∷ []) open_number result
            ≡ open_answer (receiver_form self) encrypt (opener_of self) sealed.now room }
        ensures record_value { IfOk result (λ r. (r.form ≡ receiver_form self) × (r.bytes.now ≡ sealed.now)) }
        ensures room { IfOk result (λ r. message_size r.form r.bytes.now ≤ room) }
    {
        let record = self.read(sealed)?;
        if room < record.message_len() {
            return Err(OpenRefusal::ShortOutput);
        }
        let sequence = record.sequence();
        if self.window.below(sequence) {
            return Err(OpenRefusal::BelowWindow);
        }
        if self.window.repeated(sequence) {
            return Err(OpenRefusal::Repeated);
        }
        let nonce = Nonce {
            number: self.number,
            sequence,
        };
        if !record.has_tag(ctrmac::mac(self.km, nonce, &record.text())) {
            return Err(OpenRefusal::WrongTag);
        }
        Ok(record)
    }

    // Opens a record, and hands the link back: its window moved where the record was accepted. The message's length is returned.
    pub fn open(self, sealed: &[u8], out: &mut [u8]) -> Answered<Receiver, usize, OpenRefusal>
        ensures answer_value { open_says result.answer
            ≡ open_answer (receiver_form self) encrypt (opener_of self) sealed.now (length out.old) }
        ensures link_value { result.link ≡ opened_receiver encrypt self sealed.now (length out.old) }
        ensures out_after { out.new
            ≡ open_output (receiver_form self) encrypt (opener_of self) sealed.now out.old }
    {
        match self.accept(sealed, out.len()) {
            Ok(record) => {
                let sequence = record.sequence();
                let nonce = Nonce {
                    number: self.number,
                    sequence,
                };
                ctrmac::crypt(self.ke, nonce, &record.text(), out, 0);
                Answered {
                    answer: Ok(record.message_len()),
                    link: Receiver {
                        window: self.window.after(sequence),
                        ..self
                    },
                }
            }
            Err(why) => Answered {
                answer: Err(why),
                link: self,
            },
        }
    }
}
