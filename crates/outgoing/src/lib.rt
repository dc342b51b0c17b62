// What leaves the shares: the record of a sealing, and a lane.
#![tactic(auto)]

ghost use Rattle.std.specs.Prelude.{◌≡◌, ◌+◌, ◌≤◌, ◌<◌, length, take};
ghost use Rattle.blocks.specs.Bytes.{put};
ghost use Rattle.links.specs.Record.{Proper, record_size, record_of};
ghost use Rattle.masking.specs.Shares.{index_of, join, shares_in};
ghost use Rattle.outgoing.specs.Outgoing.{ciphertext_of, lane_in};

use inputs::Outs;
use links::{Form, Nonce, Text};
use shares::{Seen, unpack_shares};

// ---- the record

// The block that three shares, one behind the other, join to.
fn joined(b: [u8; 48]) -> [u8; 16]
    ensures { result ≡ join (shares_in b) }
{
    std::array::from_fn(|i| b[i] ^ (b[16 + i] ^ b[32 + i]))
}

// Writes the ciphertext from `at`: the message XORed with the joined outputs of CTR's calls.
fn put_ciphertext(message: &Text, outs: &Outs, out: &mut [u8], at: usize)
    requires { at + length message.now ≤ length out.old }
    ensures written { out.new ≡ put at (ciphertext_of message.now outs.now) out.old }
    ensures size { length (ciphertext_of message.now outs.now) ≡ length message.now }
{
    let text = message.bytes;
    for j in 0..text.len().div_ceil(16) {
        modes::put_xor(text, j, joined(outs[j]), out, at + 16 * j);
    }
}

// Writes the record from the output's start: its head, the ciphertext, the joined tag.
pub fn put_record(
    form: Form,
    nonce: Nonce,
    message: &Text,
    outs: &Outs,
    shares: [u8; 48],
    out: &mut [u8],
)
    requires proper { Proper form }
    requires room { record_size form (length message.now) ≤ length out.old }
    ensures { let text = ciphertext_of message.now outs.now in
        let tag = take form.tag (join (shares_in shares)) in
        out.new ≡ put 0 (record_of form nonce.number nonce.sequence text tag) out.old }
{
    let head = form.head();
    let end = head + message.bytes.len();
    links::put_head(form, nonce, out);
    put_ciphertext(message, outs, out, head);
    blocks::put_bytes(&joined(shares)[..form.tag], out, end);
}

// ---- a lane

// Lane i of what a pair of masks shows: state shares i + 1 and i + 2, then key share i.
pub fn lane_of(seen: Seen, i: u32) -> [u8; 48]
    requires { i < 3 }
    ensures { result ≡ lane_in seen (index_of i) }
{
    let states = unpack_shares(seen.state);
    let keys = unpack_shares(seen.key);
    let own = i as usize;
    blocks::three_blocks(
        blocks::bytes_at(&states, 16 * ((own + 1) % 3)),
        blocks::bytes_at(&states, 16 * ((own + 2) % 3)),
        blocks::bytes_at(&keys, 16 * own),
    )
}
