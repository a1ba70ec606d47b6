//! CMAC over a text that comes piece by piece.

ghost use Rattle.std.specs.Prelude.{◌≡◌, [], ◌∷◌, ◌++◌, List, ℕ, take, length};
ghost use Rattle.gf_aes.specs.Cipher.{aes_encrypts, xor_lists};
ghost use Rattle.aes_modes.specs.Modes.{cmac_of};
ghost use Rattle.aes_modes.specs.Streams.{state_after};

use crate::mac::last_block;
use arrayvec::ArrayVec;
use gf_aes::{CipherBlock, KeySchedule};
use std::marker::Model;

/// The CMAC of a text that is taken piece by piece, under one key, and never stands together in memory
/// (SP 800-38B, 6.2).
#[derive(Drop)]
pub struct MacStream {
    chain: CipherBlock,
    held: ArrayVec<u8, 16>,
}

impl Model for MacStream {
    ghost use Rattle.aes_modes.specs.Streams.{MacState};

    ghost Value = { MacState };

    ghost view = { λ m. record { chain = m.chain; held = m.held.items } };
}

impl MacStream {
    /// Nothing is taken yet.
    pub fn new() -> MacStream
        ensures { (key : List ℕ) → result ≡ state_after key [] }
    {
        MacStream {
            chain: CipherBlock::zero(),
            held: ArrayVec::new(),
        }
    }

    /// Takes the next octets of the text.
    pub fn take(&mut self, key: &KeySchedule, octets: &[u8])
        ensures { (text : List ℕ) → self.old ≡ state_after key.now text → self.new ≡ state_after key.now (text ++ octets.now) }
    {
        for octet in octets {
            self.put(key, *octet);
        }
    }

    /// Takes one octet.
    fn put(&mut self, key: &KeySchedule, octet: u8)
        ensures { (text : List ℕ) → self.old ≡ state_after key.now text → self.new ≡ state_after key.now (text ++ octet ∷ []) }
    {
        if self.held.is_full() {
            self.put_behind(key, octet);
        } else {
            self.held.push(octet);
        }
    }

    /// Takes one octet behind a whole block, which goes into the chain.
    fn put_behind(&mut self, key: &KeySchedule, octet: u8)
        requires { length self.old.held ≡ 16 }
        ensures chain { self.new.chain ≡ aes_encrypts key.now (xor_lists self.old.chain self.old.held) }
        ensures held { self.new.held ≡ octet ∷ [] }
    {
        self.chain
            .add(&CipherBlock::from_octets(self.held.as_slice()));
        key.encrypt(&mut self.chain);
        self.held.clear();
        self.held.push(octet);
    }

    /// The first 8 octets of the CMAC of the text that was taken.
    pub fn code8(self, key: &KeySchedule) -> [u8; 8]
        ensures { (text : List ℕ) → self ≡ state_after key.now text → result ≡ take 8 (cmac_of key.now text) }
    {
        let [a, b, c, d, e, f, g, h, ..] = self.code(key);
        [a, b, c, d, e, f, g, h]
    }

    /// The CMAC of the text that was taken.
    fn code(self, key: &KeySchedule) -> [u8; 16]
        ensures { (text : List ℕ) → self ≡ state_after key.now text → result ≡ cmac_of key.now text }
    {
        let mut chain = self.chain;
        chain.add(&last_block(key, self.held.as_slice()));
        key.encrypt(&mut chain);
        chain.to_octets()
    }
}

#[cfg(test)]
mod tests {
    use super::*;

    // The last example of SP 800-38B, appendix D.1, whose text is that of the examples of SP 800-38A.
    const TEXT: [u8; 64] = [
        0x6b, 0xc1, 0xbe, 0xe2, 0x2e, 0x40, 0x9f, 0x96, 0xe9, 0x3d, 0x7e, 0x11, 0x73, 0x93, 0x17,
        0x2a, 0xae, 0x2d, 0x8a, 0x57, 0x1e, 0x03, 0xac, 0x9c, 0x9e, 0xb7, 0x6f, 0xac, 0x45, 0xaf,
        0x8e, 0x51, 0x30, 0xc8, 0x1c, 0x46, 0xa3, 0x5c, 0xe4, 0x11, 0xe5, 0xfb, 0xc1, 0x19, 0x1a,
        0x0a, 0x52, 0xef, 0xf6, 0x9f, 0x24, 0x45, 0xdf, 0x4f, 0x9b, 0x17, 0xad, 0x2b, 0x41, 0x7b,
        0xe6, 0x6c, 0x37, 0x10,
    ];

    const KEY: [u8; 16] = [
        0x2b, 0x7e, 0x15, 0x16, 0x28, 0xae, 0xd2, 0xa6, 0xab, 0xf7, 0x15, 0x88, 0x09, 0xcf, 0x4f,
        0x3c,
    ];

    #[test]
    fn texts_in_two_pieces(rt: HostRuntime) {
        let cases: [(usize, [u8; 8]); 4] = [
            (0, [0xbb, 0x1d, 0x69, 0x29, 0xe9, 0x59, 0x37, 0x28]),
            (16, [0x07, 0x0a, 0x16, 0xb4, 0x6b, 0x4d, 0x41, 0x44]),
            (40, [0xdf, 0xa6, 0x67, 0x47, 0xde, 0x9a, 0xe6, 0x30]),
            (64, [0x51, 0xf0, 0xbe, 0xbf, 0x7e, 0x3b, 0x9d, 0x92]),
        ];
        let key = match KeySchedule::new(&KEY) {
            Ok(key) => key,
            Err(_) => return,
        };
        for (len, code) in cases {
            let text = TEXT.get(..len).unwrap_or(&[]);
            for cut in [0, 1, 15, 16, 17, 40] {
                let first = text.get(..cut).unwrap_or(text);
                let second = text.get(cut..).unwrap_or(&[]);
                let mut mac = MacStream::new();
                mac.take(&key, first);
                mac.take(&key, second);
                assert_eq!(rt; mac.code8(&key), code, "{len}, {cut}");
            }
        }
    }
}
