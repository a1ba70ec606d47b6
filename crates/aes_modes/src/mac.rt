//! CMAC, the message authentication code.

ghost use Rattle.std.specs.Prelude.{◌≡◌, ◌<◌, ◌≤◌, length, take};
ghost use Rattle.aes_modes.specs.Modes.{cmac_of, last_block, next_subkey, padded, shifted_left};

use gf_aes::{CipherBlock, KeySchedule};

/// A block, one bit to the left (SP 800-38B, 6.1).
fn shifted_left(block: &[u8; 16]) -> [u8; 16]
    ensures { result ≡ shifted_left block.now }
{
    let mut shifted = [0u8; 16];
    for i in 0..15 {
        shifted[i] = block[i] % 128 * 2 + block[i + 1] / 128;
    }
    shifted[15] = block[15] % 128 * 2;
    shifted
}

/// The next subkey (SP 800-38B, 6.1).
fn next_subkey(block: &[u8; 16]) -> [u8; 16]
    ensures { result ≡ next_subkey block.now }
{
    let mut subkey = shifted_left(block);
    if block[0] >= 128 {
        subkey[15] ^= 0x87;
    }
    subkey
}

/// What is left of a text for its last block, padded to a whole one (SP 800-38B, 6.2).
fn padded(rest: &[u8]) -> [u8; 16]
    requires { length rest.now < 16 }
    ensures { result ≡ padded rest.now }
{
    let mut block = [0u8; 16];
    block[..rest.len()].copy_from_slice(rest);
    block[rest.len()] = 0x80;
    block
}

/// The last block of a text, from its octets, after the subkey is added (SP 800-38B, 6.2).
pub fn last_block(key: &KeySchedule, rest: &[u8]) -> CipherBlock
    requires { length rest.now ≤ 16 }
    ensures { result ≡ last_block key.now rest.now }
{
    let mut zero = CipherBlock::zero();
    key.encrypt(&mut zero);
    let first = next_subkey(&zero.to_octets());
    if rest.len() == 16 {
        let mut block = CipherBlock::from_octets(&first);
        block.add(&CipherBlock::from_octets(rest));
        block
    } else {
        let mut block = CipherBlock::from_octets(&next_subkey(&first));
        block.add(&CipherBlock::from_octets(&padded(rest)));
        block
    }
}

/// The CMAC of a text of any length (SP 800-38B, 6.2).
pub fn cmac(key: &KeySchedule, octets: &[u8]) -> [u8; 16]
    ensures { result ≡ cmac_of key.now octets.now }
{
    let before = octets.len().saturating_sub(1) / 16;
    let mut chain = CipherBlock::zero();
    for i in 0..before {
        chain.add(&CipherBlock::from_octets(&octets[16 * i..16 * i + 16]));
        key.encrypt(&mut chain);
    }
    chain.add(&last_block(key, &octets[16 * before..]));
    key.encrypt(&mut chain);
    chain.to_octets()
}

/// The first 8 octets of the CMAC (SP 800-38B, 6.2).
pub fn cmac8(key: &KeySchedule, octets: &[u8]) -> [u8; 8]
    ensures { result ≡ take 8 (cmac_of key.now octets.now) }
{
    let [a, b, c, d, e, f, g, h, ..] = cmac(key, octets);
    [a, b, c, d, e, f, g, h]
}

#[cfg(test)]
mod tests {
    use super::*;
    use gf_aes::KeyLength;

    // SP 800-38B, appendix D, whose text is that of the examples of SP 800-38A.
    const TEXT: [u8; 64] = [
        0x6b, 0xc1, 0xbe, 0xe2, 0x2e, 0x40, 0x9f, 0x96, 0xe9, 0x3d, 0x7e, 0x11, 0x73, 0x93, 0x17,
        0x2a, 0xae, 0x2d, 0x8a, 0x57, 0x1e, 0x03, 0xac, 0x9c, 0x9e, 0xb7, 0x6f, 0xac, 0x45, 0xaf,
        0x8e, 0x51, 0x30, 0xc8, 0x1c, 0x46, 0xa3, 0x5c, 0xe4, 0x11, 0xe5, 0xfb, 0xc1, 0x19, 0x1a,
        0x0a, 0x52, 0xef, 0xf6, 0x9f, 0x24, 0x45, 0xdf, 0x4f, 0x9b, 0x17, 0xad, 0x2b, 0x41, 0x7b,
        0xe6, 0x6c, 0x37, 0x10,
    ];

    const KEY_16: [u8; 16] = [
        0x2b, 0x7e, 0x15, 0x16, 0x28, 0xae, 0xd2, 0xa6, 0xab, 0xf7, 0x15, 0x88, 0x09, 0xcf, 0x4f,
        0x3c,
    ];

    const KEY_24: [u8; 24] = [
        0x8e, 0x73, 0xb0, 0xf7, 0xda, 0x0e, 0x64, 0x52, 0xc8, 0x10, 0xf3, 0x2b, 0x80, 0x90, 0x79,
        0xe5, 0x62, 0xf8, 0xea, 0xd2, 0x52, 0x2c, 0x6b, 0x7b,
    ];

    const KEY_32: [u8; 32] = [
        0x60, 0x3d, 0xeb, 0x10, 0x15, 0xca, 0x71, 0xbe, 0x2b, 0x73, 0xae, 0xf0, 0x85, 0x7d, 0x77,
        0x81, 0x1f, 0x35, 0x2c, 0x07, 0x3b, 0x61, 0x08, 0xd7, 0x2d, 0x98, 0x10, 0xa3, 0x09, 0x14,
        0xdf, 0xf4,
    ];

    fn schedule(key_len: usize) -> Result<KeySchedule, KeyLength> {
        match key_len {
            16 => KeySchedule::new(&KEY_16),
            24 => KeySchedule::new(&KEY_24),
            _ => KeySchedule::new(&KEY_32),
        }
    }

    #[test]
    fn example_codes(rt: HostRuntime) {
        let cases = [
            (
                16,
                0,
                [
                    0xbb, 0x1d, 0x69, 0x29, 0xe9, 0x59, 0x37, 0x28, 0x7f, 0xa3, 0x7d, 0x12, 0x9b,
                    0x75, 0x67, 0x46,
                ],
            ),
            (
                16,
                16,
                [
                    0x07, 0x0a, 0x16, 0xb4, 0x6b, 0x4d, 0x41, 0x44, 0xf7, 0x9b, 0xdd, 0x9d, 0xd0,
                    0x4a, 0x28, 0x7c,
                ],
            ),
            (
                16,
                40,
                [
                    0xdf, 0xa6, 0x67, 0x47, 0xde, 0x9a, 0xe6, 0x30, 0x30, 0xca, 0x32, 0x61, 0x14,
                    0x97, 0xc8, 0x27,
                ],
            ),
            (
                16,
                64,
                [
                    0x51, 0xf0, 0xbe, 0xbf, 0x7e, 0x3b, 0x9d, 0x92, 0xfc, 0x49, 0x74, 0x17, 0x79,
                    0x36, 0x3c, 0xfe,
                ],
            ),
            (
                24,
                0,
                [
                    0xd1, 0x7d, 0xdf, 0x46, 0xad, 0xaa, 0xcd, 0xe5, 0x31, 0xca, 0xc4, 0x83, 0xde,
                    0x7a, 0x93, 0x67,
                ],
            ),
            (
                24,
                16,
                [
                    0x9e, 0x99, 0xa7, 0xbf, 0x31, 0xe7, 0x10, 0x90, 0x06, 0x62, 0xf6, 0x5e, 0x61,
                    0x7c, 0x51, 0x84,
                ],
            ),
            (
                24,
                40,
                [
                    0x8a, 0x1d, 0xe5, 0xbe, 0x2e, 0xb3, 0x1a, 0xad, 0x08, 0x9a, 0x82, 0xe6, 0xee,
                    0x90, 0x8b, 0x0e,
                ],
            ),
            (
                24,
                64,
                [
                    0xa1, 0xd5, 0xdf, 0x0e, 0xed, 0x79, 0x0f, 0x79, 0x4d, 0x77, 0x58, 0x96, 0x59,
                    0xf3, 0x9a, 0x11,
                ],
            ),
            (
                32,
                0,
                [
                    0x02, 0x89, 0x62, 0xf6, 0x1b, 0x7b, 0xf8, 0x9e, 0xfc, 0x6b, 0x55, 0x1f, 0x46,
                    0x67, 0xd9, 0x83,
                ],
            ),
            (
                32,
                16,
                [
                    0x28, 0xa7, 0x02, 0x3f, 0x45, 0x2e, 0x8f, 0x82, 0xbd, 0x4b, 0xf2, 0x8d, 0x8c,
                    0x37, 0xc3, 0x5c,
                ],
            ),
            (
                32,
                40,
                [
                    0xaa, 0xf3, 0xd8, 0xf1, 0xde, 0x56, 0x40, 0xc2, 0x32, 0xf5, 0xb1, 0x69, 0xb9,
                    0xc9, 0x11, 0xe6,
                ],
            ),
            (
                32,
                64,
                [
                    0xe1, 0x99, 0x21, 0x90, 0x54, 0x9f, 0x6e, 0xd5, 0x69, 0x6a, 0x2c, 0x05, 0x6c,
                    0x31, 0x54, 0x10,
                ],
            ),
        ];
        for (key_len, text_len, code) in cases {
            let text = TEXT.get(..text_len).unwrap_or(&[]);
            if let Ok(key) = schedule(key_len) {
                assert_eq!(rt; cmac(&key, text), code, "{key_len}, {text_len}");
                assert_eq!(rt;
                    Some(cmac8(&key, text).as_slice()),
                    code.get(..8),
                    "{key_len}, {text_len}"
                );
            } else {
                panic!(rt; "a key of {key_len} octets is refused");
            }
        }
    }
}
