// The vectors of the paper's Table 14 by both engines, both ways.
#![tactic(auto)]

use engines::Cipher;
use std::io;

// A key, a plaintext and its ciphertext, each as the number that its bytes say.
struct Vector {
    key: u128,
    plain: u128,
    cipher: u128,
}

const VECTORS: [Vector; 8] = [
    Vector {
        key: 0x00000000000000000000000000000000,
        plain: 0x00000000000000000000000000000000,
        cipher: 0xc002be5e64c78a72ab9a3439518352aa,
    },
    Vector {
        key: 0x00000000000000000000000000000000,
        plain: 0x00000000000000000000000000000007,
        cipher: 0x6f7d7746eaf0d97a154079f6bd846438,
    },
    Vector {
        key: 0x00000000000000000000000000000000,
        plain: 0x70000000000000000000000000000000,
        cipher: 0x1ba3363734c09a29f67c23bbb2cccc05,
    },
    Vector {
        key: 0x00000000000000000000000000000000,
        plain: 0x44444444444444444444444444444444,
        cipher: 0x7ad3303667b2af6deef434dd110d7fb8,
    },
    Vector {
        key: 0xffffffffffffffffffffffffffffffff,
        plain: 0x11111111111111111111111111111111,
        cipher: 0x806f0cf45b94f0370206975fe78ac10f,
    },
    Vector {
        key: 0x76543210032032032032032032032032,
        plain: 0x789a789a789a789a789a789a789a789a,
        cipher: 0xae654b5333b876584f8e8dd54f4e490a,
    },
    Vector {
        key: 0x23023023023023023023023001234567,
        plain: 0xb6e4789ab6e4789ab6e4789ab6e4789a,
        cipher: 0x3dbbdf7fe254cc0be396a753442dccad,
    },
    Vector {
        key: 0x5920effb52bc61e33a98425321e76915,
        plain: 0xe6517531abf63f3d7805e126943a081c,
        cipher: 0xfc7e61fee3d587308ca7bc594ebf3244,
    },
];

fn run(cipher: Cipher, key: u128, block: u128) -> u128 {
    let mut out = [0u8; 16];
    engines::call(cipher, &key.to_be_bytes(), &block.to_be_bytes(), &mut out).unwrap();
    u128::from_be_bytes(out)
}

fn main(rt: HostRuntime) -> io::Result<()> {
    for (i, v) in VECTORS.iter().enumerate() {
        for (name, cipher, block) in [
            ("encrypt table", Cipher::EncryptTable, v.plain),
            ("decrypt table", Cipher::DecryptTable, v.cipher),
            ("encrypt packed", Cipher::EncryptPacked, v.plain),
            ("decrypt packed", Cipher::DecryptPacked, v.cipher),
        ] {
            println!(rt; "{} {name} {:032x}", i + 1, run(cipher, v.key, block))?;
        }
    }
    Ok(())
}
