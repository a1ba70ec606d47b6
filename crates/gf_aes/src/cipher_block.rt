//! A block between two uses of the cipher.

ghost use Rattle.std.specs.Prelude.{◌≡◌, length, replicate};
ghost use Rattle.gf_aes.specs.Cipher.{block_of, xor_lists};

use crate::kernel::word;
use std::marker::Model;

/// A block of 16 octets, kept as two halves of two columns each. Contracts see the octets.
// Four words side by side would have LLVM work on them as one vector, which it then fills and empties
// word by word around each table.
#[derive(Drop)]
pub struct CipherBlock {
    halves: [u64; 2],
}

impl Model for CipherBlock {
    ghost use Rattle.std.specs.Prelude.{ℕ, List};
    ghost use Rattle.gf_aes.specs.Cipher.{block_of, columns_of};

    ghost Value = { List ℕ };

    ghost view = { λ b. block_of (columns_of b.halves) };
}

impl CipherBlock {
    /// The block of four columns, each a word.
    #[inline(always)]
    pub(crate) fn of(columns: [u32; 4]) -> CipherBlock
        ensures { result ≡ block_of columns }
    {
        let [a, b, c, d] = columns;
        CipherBlock {
            halves: [
                u64::from(a) * 0x1_0000_0000 + u64::from(b),
                u64::from(c) * 0x1_0000_0000 + u64::from(d),
            ],
        }
    }

    /// The four columns, each a word.
    #[inline(always)]
    pub(crate) fn columns(&self) -> [u32; 4]
        ensures { block_of result ≡ self.now }
    {
        let [left, right] = self.halves;
        [
            (left / 0x1_0000_0000) as u32,
            (left % 0x1_0000_0000) as u32,
            (right / 0x1_0000_0000) as u32,
            (right % 0x1_0000_0000) as u32,
        ]
    }

    /// The block of 16 zeros.
    pub fn zero() -> CipherBlock
        ensures { result ≡ replicate 16 0 }
    {
        CipherBlock { halves: [0; 2] }
    }

    /// The block of 16 octets.
    #[inline]
    pub fn from_octets(octets: &[u8]) -> CipherBlock
        requires { length octets.now ≡ 16 }
        ensures { result ≡ octets.now }
    {
        CipherBlock::of([
            word(octets[0], octets[1], octets[2], octets[3]),
            word(octets[4], octets[5], octets[6], octets[7]),
            word(octets[8], octets[9], octets[10], octets[11]),
            word(octets[12], octets[13], octets[14], octets[15]),
        ])
    }

    /// Adds another block, each octet to the octet at its place (FIPS 197, 4.1).
    #[inline]
    pub fn add(&mut self, other: &CipherBlock)
        ensures { self.new ≡ xor_lists self.old other.now }
    {
        let [left, right] = self.halves;
        let [other_left, other_right] = other.halves;
        self.halves = [left ^ other_left, right ^ other_right];
    }

    /// Writes the block over 16 octets.
    #[inline]
    pub fn store(&self, octets: &mut [u8])
        requires { length octets.old ≡ 16 }
        ensures { octets.new ≡ self.now }
    {
        let [left, right] = self.halves;
        octets[..8].copy_from_slice(&left.to_be_bytes());
        octets[8..].copy_from_slice(&right.to_be_bytes());
    }

    /// The 16 octets.
    #[inline]
    pub fn to_octets(&self) -> [u8; 16]
        ensures { result ≡ self.now }
    {
        let [a, b, c, d] = self.columns();
        let [a0, a1, a2, a3] = a.to_be_bytes();
        let [b0, b1, b2, b3] = b.to_be_bytes();
        let [c0, c1, c2, c3] = c.to_be_bytes();
        let [d0, d1, d2, d3] = d.to_be_bytes();
        [
            a0, a1, a2, a3, b0, b1, b2, b3, c0, c1, c2, c3, d0, d1, d2, d3,
        ]
    }
}
