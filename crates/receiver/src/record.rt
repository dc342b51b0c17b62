// A record that passed its test, and its fields.
ghost use Rattle.std.specs.Prelude.{◌≡◌, take};
ghost use Rattle.blocks.specs.Bytes.{same_bytes};
ghost use Rattle.links.specs.Record.{Proper, sequence_in, text_in, tag_in};
ghost use Rattle.readable.specs.Readable.{RecordSized};
ghost use Rattle.opening.specs.Open.{message_size};

use links::{Form, Text};

// As many bytes as a record of that form can have.
#[derive(Clone, Copy)]
pub(crate) struct Record<'a> {
    pub(crate) form: Form,
    pub(crate) bytes: &'a [u8],
    ghost proper: { Proper form },
    ghost sized: { RecordSized form bytes.now },
}

impl<'a> Record<'a> {
    // The length of its message.
    pub(crate) fn message_len(self) -> usize
        ensures { result ≡ message_size self.entry.form self.entry.bytes.now }
    {
        self.bytes.len() - self.form.added()
    }

    pub(crate) fn sequence(self) -> u64
        ensures { result ≡ sequence_in self.entry.form self.entry.bytes.now }
    {
        blocks::number_at(self.bytes, links::NUMBER, self.form.sequence)
    }

    // Its ciphertext.
    pub(crate) fn text(self) -> Text<'a>
        ensures { result ≡ text_in self.entry.form self.entry.bytes.now }
    {
        let head = self.form.head();
        Text::of(&self.bytes[head..head + self.message_len()])
    }

    // Whether it has the tag that a code begins with: all bytes of the tag are looked at.
    pub(crate) fn has_tag(self, code: [u8; 16]) -> bool
        ensures { result ≡ same_bytes (take self.entry.form.tag code) (tag_in self.entry.form self.entry.bytes.now) }
    {
        let tag = self.form.tag;
        blocks::same_at(code, tag, self.bytes, self.bytes.len() - tag)
    }
}
