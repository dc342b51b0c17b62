// The block call: a cipher by an engine, on slices.
#![tactic(auto)]

ghost use Rattle.std.specs.Prelude.{◌≡◌, ◌&&◌, eqb};
ghost use Rattle.engines.specs.Block.{block_number, block_says, block_answer, block_output};
ghost use Rattle.engines.specs.Cipher.{cipher_of};

// Each cipher by each engine.
#[derive(Clone, Copy)]
pub enum Cipher {
    EncryptTable,
    EncryptPacked,
    DecryptTable,
    DecryptPacked,
}

#[derive(Clone, Copy, Debug, PartialEq, Eq)]
pub enum BlockRefusal {
    BadLength,
}

impl From<BlockRefusal> for u32 {
    ghost from_gives = { λ why n. n ≡ block_number why };

    fn from(why: BlockRefusal) -> u32 {
        match why {
            BlockRefusal::BadLength => 5,
        }
    }
}

// Whether each length is a block's.
fn blocks_long(key: usize, input: usize, output: usize) -> bool
    ensures { result ≡ (eqb key 16 && eqb input 16 && eqb output 16) }
{
    key == 16 && input == 16 && output == 16
}

// What a cipher makes of a block under a key.
fn ciphered(which: Cipher, key: [u8; 16], block: [u8; 16]) -> [u8; 16]
    ensures { result ≡ cipher_of which key block }
{
    match which {
        Cipher::EncryptTable => table::encrypt(key, block),
        Cipher::EncryptPacked => packed::encrypt(key, block),
        Cipher::DecryptTable => table::decrypt(key, block),
        Cipher::DecryptPacked => packed::decrypt(key, block),
    }
}

pub fn call(which: Cipher, key: &[u8], input: &[u8], output: &mut [u8]) -> Result<(), BlockRefusal>
    ensures result_value { block_says result ≡ block_answer key.now input.now output.old }
    ensures output_after { output.new ≡ block_output (cipher_of which) key.now input.now output.old }
{
    if !blocks_long(key.len(), input.len(), output.len()) {
        return Err(BlockRefusal::BadLength);
    }
    let k = blocks::bytes_at(key, 0);
    let x = blocks::bytes_at(input, 0);
    output.copy_from_slice(&ciphered(which, k, x));
    Ok(())
}
