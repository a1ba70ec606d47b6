//! CBC in place, from a zero block.

ghost use Rattle.std.specs.Prelude.{◌≡◌, ℕ, ◌%◌, List, length};
ghost use Rattle.aes_modes.specs.Modes.{AreOctets, cbc_of, cbc_plain_of};

use gf_aes::{CipherBlock, KeySchedule};

/// Encrypts whole blocks of 16 octets in place, chained from a zero block (SP 800-38A, 6.2).
pub fn cbc_encrypt(key: &KeySchedule, octets: &mut [u8])
    requires { length octets.old % 16 ≡ 0 }
    ensures { octets.new ≡ cbc_of key.now octets.old }
{
    let mut chain = CipherBlock::zero();
    for i in 0..octets.len() / 16 {
        let block = &mut octets[16 * i..16 * i + 16];
        chain.add(&CipherBlock::from_octets(block));
        key.encrypt(&mut chain);
        chain.store(block);
    }
}

/// Decrypts whole blocks of 16 octets in place, chained from a zero block (SP 800-38A, 6.2).
pub fn cbc_decrypt(key: &KeySchedule, octets: &mut [u8])
    requires { length octets.old % 16 ≡ 0 }
    ensures value { octets.new ≡ cbc_plain_of key.now octets.old }
    ensures undoes { (plain : List ℕ) → AreOctets plain → length plain % 16 ≡ 0
        → octets.old ≡ cbc_of key.now plain → octets.new ≡ plain }
{
    let mut before = CipherBlock::zero();
    for i in 0..octets.len() / 16 {
        let block = &mut octets[16 * i..16 * i + 16];
        let encrypted = CipherBlock::from_octets(block);
        let mut plain = CipherBlock::from_octets(block);
        key.decrypt(&mut plain);
        plain.add(&before);
        plain.store(block);
        before = encrypted;
    }
}

#[cfg(test)]
mod tests {
    use super::*;
    use gf_aes::KeyLength;

    // The first two blocks of the examples of SP 800-38A, appendix F.2, from a zero block; what they
    // encrypt to is OpenSSL's answer.
    const TEXT: [u8; 32] = [
        0x6b, 0xc1, 0xbe, 0xe2, 0x2e, 0x40, 0x9f, 0x96, 0xe9, 0x3d, 0x7e, 0x11, 0x73, 0x93, 0x17,
        0x2a, 0xae, 0x2d, 0x8a, 0x57, 0x1e, 0x03, 0xac, 0x9c, 0x9e, 0xb7, 0x6f, 0xac, 0x45, 0xaf,
        0x8e, 0x51,
    ];

    const KEY_16: [u8; 16] = [
        0x2b, 0x7e, 0x15, 0x16, 0x28, 0xae, 0xd2, 0xa6, 0xab, 0xf7, 0x15, 0x88, 0x09, 0xcf, 0x4f,
        0x3c,
    ];

    const KEY_24: [u8; 24] = [
        0x8e, 0x73, 0xb0, 0xf7, 0xda, 0x0e, 0x64, 0x52, 0xc8, 0x10, 0xf3, 0x2b, 0x80, 0x90, 0x79,
        0xe5, 0x62, 0xf8, 0xea, 0xd2, 0x52, 0x2c, 0x6b, 0x7b,
    ];

    const KEY_32: [u8; 32] = [
        0x60, 0x3d, 0xeb, 0x10, 0x15, 0xca, 0x71, 0xbe, 0x2b, 0x73, 0xae, 0xf0, 0x85, 0x7d, 0x77,
        0x81, 0x1f, 0x35, 0x2c, 0x07, 0x3b, 0x61, 0x08, 0xd7, 0x2d, 0x98, 0x10, 0xa3, 0x09, 0x14,
        0xdf, 0xf4,
    ];

    fn schedule(key_len: usize) -> Result<KeySchedule, KeyLength> {
        match key_len {
            16 => KeySchedule::new(&KEY_16),
            24 => KeySchedule::new(&KEY_24),
            _ => KeySchedule::new(&KEY_32),
        }
    }

    #[test]
    fn two_blocks_both_ways(rt: HostRuntime) {
        let cases = [
            (
                16,
                [
                    0x3a, 0xd7, 0x7b, 0xb4, 0x0d, 0x7a, 0x36, 0x60, 0xa8, 0x9e, 0xca, 0xf3, 0x24,
                    0x66, 0xef, 0x97, 0xb1, 0x48, 0xc1, 0x7f, 0x30, 0x9e, 0xe6, 0x92, 0x28, 0x7a,
                    0xe5, 0x7c, 0xf1, 0x2a, 0xdd, 0x49,
                ],
            ),
            (
                24,
                [
                    0xbd, 0x33, 0x4f, 0x1d, 0x6e, 0x45, 0xf2, 0x5f, 0xf7, 0x12, 0xa2, 0x14, 0x57,
                    0x1f, 0xa5, 0xcc, 0x0f, 0x77, 0x1e, 0x2a, 0x4f, 0x0f, 0xbe, 0x32, 0x3c, 0xb4,
                    0x14, 0x6a, 0x0d, 0x1b, 0x86, 0xd9,
                ],
            ),
            (
                32,
                [
                    0xf3, 0xee, 0xd1, 0xbd, 0xb5, 0xd2, 0xa0, 0x3c, 0x06, 0x4b, 0x5a, 0x7e, 0x3d,
                    0xb1, 0x81, 0xf8, 0xe3, 0xc4, 0x8b, 0x48, 0x36, 0x5c, 0xfb, 0x14, 0xdc, 0x9a,
                    0xaa, 0x37, 0xb1, 0xab, 0xc1, 0x5c,
                ],
            ),
        ];
        for (key_len, encrypted) in cases {
            if let Ok(key) = schedule(key_len) {
                let mut octets = TEXT;
                cbc_encrypt(&key, &mut octets);
                assert_eq!(rt; octets, encrypted, "{key_len}");
                cbc_decrypt(&key, &mut octets);
                assert_eq!(rt; octets, TEXT, "{key_len}");
            } else {
                panic!(rt; "a key of {key_len} octets is refused");
            }
        }
    }
}
