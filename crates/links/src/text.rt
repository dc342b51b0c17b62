// What CTR and CMAC take: a message, or the ciphertext of one.
ghost use Rattle.std.specs.Prelude.{◌≡◌, ◌≤◌, length};

use std::marker::Model;

// At most as many bytes as the longest message has.
#[derive(Drop)]
pub struct Text<'a> {
    pub bytes: &'a [u8],
}

impl<'a> Model for Text<'a> {
    ghost use Rattle.std.specs.Prelude.{ℕ, List, ◌≤◌, length};

    ghost Value = { List ℕ };

    ghost view = { λ t. t.bytes.now };

    ghost invariant = { λ t. length t.bytes.now ≤ 256 };
}

impl<'a> Text<'a> {
    pub fn of(bytes: &'a [u8]) -> Text<'a>
        requires { length bytes.now ≤ 256 }
        ensures { result ≡ bytes.now }
    {
        Text { bytes }
    }
}
