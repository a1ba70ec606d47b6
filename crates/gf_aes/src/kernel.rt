//! What the octets of a word give to a round, through the tables.

ghost use Rattle.std.specs.Prelude.{◌≡◌, [], ◌∷◌, map, slice_index};
ghost use Rattle.gf_aes.specs.Field.{inverse_sub_byte, sub_byte};
ghost use Rattle.gf_aes.specs.Cipher.{diagonal, inverse_mix_column, multiples, octet, octets, sub_word, word_of, xor_lists};

use crate::tables::{INVERSE_MIX, INVERSE_S_BOX, MIX, S_BOX, SUB};

#[inline(always)]
fn octet_0(word: u32) -> usize
    ensures { result ≡ octet word 0 }
{
    (word >> 24) as usize
}

#[inline(always)]
fn octet_1(word: u32) -> usize
    ensures { result ≡ octet word 1 }
{
    (word >> 16 & 0xff) as usize
}

#[inline(always)]
fn octet_2(word: u32) -> usize
    ensures { result ≡ octet word 2 }
{
    (word >> 8 & 0xff) as usize
}

#[inline(always)]
fn octet_3(word: u32) -> usize
    ensures { result ≡ octet word 3 }
{
    (word & 0xff) as usize
}

/// The word of four octets, the first highest.
#[inline(always)]
pub(crate) fn word(a: u8, b: u8, c: u8, d: u8) -> u32
    ensures { result ≡ word_of a b c d }
{
    u32::from_be_bytes([a, b, c, d])
}

/// SubWord (FIPS 197, 5.2).
#[inline(always)]
pub(crate) fn sub_word(w: u32) -> u32
    ensures { result ≡ sub_word w }
{
    word(
        S_BOX[octet_0(w)],
        S_BOX[octet_1(w)],
        S_BOX[octet_2(w)],
        S_BOX[octet_3(w)],
    )
}

/// The columns that MixColumns makes of a word's octets after the S-box, each from one octet alone.
#[inline(always)]
pub(crate) fn mix_entries(w: u32) -> [u32; 4]
    ensures first { octets (slice_index result 0) ≡ multiples 2 1 1 3 (sub_byte (octet w 0)) }
    ensures second { octets (slice_index result 1) ≡ multiples 3 2 1 1 (sub_byte (octet w 1)) }
    ensures third { octets (slice_index result 2) ≡ multiples 1 3 2 1 (sub_byte (octet w 2)) }
    ensures fourth { octets (slice_index result 3) ≡ multiples 1 1 3 2 (sub_byte (octet w 3)) }
{
    // Of the orders tried, the one with which the cipher was fastest.
    let second = MIX[1][octet_1(w)];
    let fourth = MIX[3][octet_3(w)];
    let first = MIX[0][octet_0(w)];
    let third = MIX[2][octet_2(w)];
    [first, second, third, fourth]
}

/// A word's octets after the S-box, each at its place in a word of its own.
#[inline(always)]
pub(crate) fn sub_entries(w: u32) -> [u32; 4]
    ensures first { octets (slice_index result 0) ≡ sub_byte (octet w 0) ∷ 0 ∷ 0 ∷ 0 ∷ [] }
    ensures second { octets (slice_index result 1) ≡ 0 ∷ sub_byte (octet w 1) ∷ 0 ∷ 0 ∷ [] }
    ensures third { octets (slice_index result 2) ≡ 0 ∷ 0 ∷ sub_byte (octet w 2) ∷ 0 ∷ [] }
    ensures fourth { octets (slice_index result 3) ≡ 0 ∷ 0 ∷ 0 ∷ sub_byte (octet w 3) ∷ [] }
{
    [
        SUB[0][octet_0(w)],
        SUB[1][octet_1(w)],
        SUB[2][octet_2(w)],
        SUB[3][octet_3(w)],
    ]
}

/// A word of a round of the inverse cipher, where `key` has been through InvMixColumns.
#[inline(always)]
pub(crate) fn inverse_round_word(a: u32, b: u32, c: u32, d: u32, key: u32) -> u32
    ensures { octets result
        ≡ xor_lists (inverse_mix_column (map inverse_sub_byte (diagonal a b c d))) (octets key) }
{
    INVERSE_MIX[0][octet_0(a)]
        ^ INVERSE_MIX[1][octet_1(b)]
        ^ INVERSE_MIX[2][octet_2(c)]
        ^ INVERSE_MIX[3][octet_3(d)]
        ^ key
}

/// A word of the last round of the inverse cipher, which has no InvMixColumns.
#[inline(always)]
pub(crate) fn inverse_last_word(a: u32, b: u32, c: u32, d: u32, key: u32) -> u32
    ensures { octets result ≡ xor_lists (map inverse_sub_byte (diagonal a b c d)) (octets key) }
{
    word(
        INVERSE_S_BOX[octet_0(a)],
        INVERSE_S_BOX[octet_1(b)],
        INVERSE_S_BOX[octet_2(c)],
        INVERSE_S_BOX[octet_3(d)],
    ) ^ key
}

/// InvMixColumns of one word. The S-box undoes the inverse S-box within the tables.
pub(crate) fn inverse_mix_word(w: u32) -> u32
    ensures { octets result ≡ inverse_mix_column (octets w) }
{
    INVERSE_MIX[0][S_BOX[octet_0(w)] as usize]
        ^ INVERSE_MIX[1][S_BOX[octet_1(w)] as usize]
        ^ INVERSE_MIX[2][S_BOX[octet_2(w)] as usize]
        ^ INVERSE_MIX[3][S_BOX[octet_3(w)] as usize]
}
