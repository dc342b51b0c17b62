// SubCells on a block in packed form, and back, by gates.
#![tactic(auto)]

ghost use Rattle.std.specs.Prelude.{◌≡◌};
ghost use Rattle.baksheesh.specs.Baksheesh.{sub_cells, inv_sub_cells};
ghost use Rattle.words.specs.Words.{unpacked};

pub fn sub_cells(s: [u32; 4]) -> [u32; 4]
    ensures { unpacked result ≡ sub_cells (unpacked s) }
{
    let [a, b, c, d] = s;
    let u = b & c;
    let v = (a & c) ^ u ^ b;
    let w = a ^ u ^ d ^ 0xffff_ffff;
    [w ^ v, w, v ^ d, (a & (b ^ c)) ^ c ^ d]
}

pub fn inv_sub_cells(s: [u32; 4]) -> [u32; 4]
    ensures { unpacked result ≡ inv_sub_cells (unpacked s) }
{
    let [a, b, c, d] = s;
    [
        ((a ^ d) & (b ^ c)) ^ c ^ d ^ 0xffff_ffff,
        (a & c) ^ (d & (a ^ c)) ^ a ^ b ^ d,
        (a & (b ^ c)) ^ a ^ (b & c) ^ c ^ d,
        a ^ b ^ c,
    ]
}
