// Bytes in lower-case hexadecimal digits.
#![tactic(auto)]

ghost use Rattle.std.specs.Prelude.{◌≡◌, ◌*◌, ◌≤◌, ◌<◌, length};
ghost use Rattle.blocks.specs.Bytes.{put};
ghost use Rattle.hex_digits.specs.Hex.{glyph, hex_of};

#[tactic(auto, unfolding(crate::specs::Hex::glyph))]
fn digit(d: u8) -> u8
    requires { d < 16 }
    ensures { result ≡ glyph d }
{
    if d < 10 { b'0' + d } else { b'a' + (d - 10) }
}

// Writes the digits of `src` from the start of `out`.
pub fn put_digits(src: &[u8], out: &mut [u8])
    requires { 2 * length src.now ≤ length out.old }
    ensures { out.new ≡ put 0 (hex_of src.now) out.old }
{
    for (i, x) in src.iter().enumerate() {
        out[2 * i] = digit(x / 16);
        out[2 * i + 1] = digit(x % 16);
    }
}

pub fn digits(b: [u8; 16]) -> [u8; 32]
    ensures { result ≡ hex_of b }
{
    let mut text = [0; 32];
    put_digits(&b, &mut text);
    text
}
