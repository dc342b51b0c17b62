// What CMAC's calls take in, on shares: the blocks of what is authenticated, and the last one's subkey.
#![tactic(auto)]

ghost use Rattle.std.specs.Prelude.{◌≡◌, ◌+◌, ◌*◌, ◌≤◌, ◌<◌, length};
ghost use Rattle.blocks.specs.Bytes.{part, block_count, piece};
ghost use Rattle.modes.specs.Cmac.{doubled};
ghost use Rattle.masking.specs.Shares.{each};
ghost use Rattle.shares.specs.Packed.{shares_of};
ghost use Rattle.calls.specs.Job.{completed, last_key};
ghost use Rattle.calls.specs.Sealed.{cut, text_block};
ghost use Rattle.inputs.specs.Inputs.{out_at, block_shares};

use links::{Nonce, Text};
use packing::pack;
use shares::{Triple, add_shares, only, pack_shares, unpack_shares};

// The output shares of CTR's calls, three blocks a call: room for those of the longest message.
pub type Outs = [[u8; 48]; 16];

// ---- the subkey

fn double_shares(s: Triple) -> Triple
    ensures { shares_of result ≡ each doubled (shares_of s) }
{
    let b = unpack_shares(s);
    pack_shares(blocks::three_blocks(
        modes::double(blocks::bytes_at(&b, 0)),
        modes::double(blocks::bytes_at(&b, 16)),
        modes::double(blocks::bytes_at(&b, 32)),
    ))
}

// The last block's subkey, share by share, of a message of `len` bytes.
pub fn last_key(s: Triple, len: usize) -> Triple
    ensures { shares_of result ≡ each (last_key len) (shares_of s) }
{
    let first = double_shares(s);
    if len % 16 == 0 {
        first
    } else {
        double_shares(first)
    }
}

// ---- the blocks

// The first n bytes of the share from `at`, zeros behind them.
fn cut_share(shares: &[u8; 48], at: usize, n: usize) -> [u8; 16]
    requires { (at + 16 ≤ 48) × (n ≤ 16) }
    ensures { result ≡ cut n (part at 16 shares.now) }
{
    let mut share = [0u8; 16];
    share[..n].copy_from_slice(&shares[at..at + n]);
    share
}

// Block j of the message, padded where it is not complete.
fn completed_at(message: &Text, j: usize) -> [u8; 16]
    requires { j < block_count (length message.now) }
    ensures { result ≡ completed (piece j message.now) }
{
    let text = message.bytes;
    let at = 16 * j;
    if text.len() - at < 16 {
        modes::padded_at(text, at)
    } else {
        blocks::bytes_at(text, at)
    }
}

// Block j of the ciphertext: its call's output shares cut to the block's bytes, with the message block in share 0.
fn text_block(message: &Text, outs: &Outs, j: usize) -> Triple
    requires { j < block_count (length message.now) }
    ensures { shares_of result ≡ text_block message.now j (out_at j outs.now) }
{
    let n = modes::width(message.bytes.len(), 16 * j);
    let shares = &outs[j];
    let outputs = pack_shares(blocks::three_blocks(
        cut_share(shares, 0, n),
        cut_share(shares, 16, n),
        cut_share(shares, 32, n),
    ));
    add_shares(outputs, only(pack(completed_at(message, j))))
}

// Block j of what is authenticated: counter block 0, then the ciphertext.
pub fn mac_block(nonce: Nonce, message: &Text, outs: &Outs, j: usize) -> Triple
    requires { j ≤ block_count (length message.now) }
    ensures { shares_of result ≡ block_shares nonce.number nonce.sequence message.now outs.now j }
{
    if j == 0 {
        return only(pack(nonce.counter_block(0)));
    }
    text_block(message, outs, j - 1)
}
