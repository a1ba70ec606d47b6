//! The key schedule, made once for a key.

ghost use Rattle.std.specs.Prelude.{◌≡◌, ℕ, ◌+◌, ◌*◌, ◌<◌, ◌≤◌, ◌↔◌, List, IfOk, IsOk, length, take};
ghost use Rattle.gf_aes.specs.Field.{IsField};
ghost use Rattle.gf_aes.specs.Cipher.{IsBlock, IsKeyLength, IsMixed, aes_decrypts, aes_encrypts, key_step, key_words, next_word, rot_word, round_count};

use crate::cipher;
use crate::cipher_block::CipherBlock;
use crate::kernel::{inverse_mix_word, sub_word, word};
use std::error::Error;
use std::fmt;
use std::marker::Model;

/// A key's length is not 16, 24 or 32 octets.
#[derive(Clone, Copy, Debug, PartialEq, Eq)]
pub struct KeyLength;

impl fmt::Display for KeyLength {
    fn fmt<W: fmt::Write>(&self, f: &mut fmt::Formatter<W>) -> fmt::Result {
        write!(f, "a key has 16, 24 or 32 octets")
    }
}

impl Error for KeyLength {}

/// Rcon (FIPS 197, 5.2): the first octet of the constant of each turn of the key, from turn 1 on.
static ROUND_CONSTANTS: [u8; 11] = [
    0x00, 0x01, 0x02, 0x04, 0x08, 0x10, 0x20, 0x40, 0x80, 0x1b, 0x36,
];

/// A key of 16, 24 or 32 octets, expanded for both directions. Contracts see the key.
#[derive(Drop)]
pub struct KeySchedule {
    rounds: usize,
    words: [u32; 60],
    // The words of the inner rounds after InvMixColumns, each at its place in `words`.
    mixed: [u32; 60],
}

impl Model for KeySchedule {
    ghost use Rattle.std.specs.Prelude.{ℕ, List};

    ghost Value = { List ℕ };

    ghost use Rattle.gf_aes.specs.KeySchedule.{IsExpanded, key_of};

    ghost view = { key_of };

    ghost invariant = { IsExpanded };
}

/// RotWord (FIPS 197, 5.2).
fn rot_word(w: u32) -> u32
    ensures { result ≡ rot_word w }
{
    w.rotate_left(8)
}

/// What the key expansion adds at word `i` of a key of `key_len` words, from the word before it.
fn key_step(key_len: usize, i: usize, before: u32) -> u32
    requires some { 4 ≤ key_len }
    requires later { key_len ≤ i }
    requires within { i < 11 * key_len }
    ensures { result ≡ key_step key_len i before }
{
    if i % key_len == 0 {
        sub_word(rot_word(before)) ^ word(ROUND_CONSTANTS[i / key_len], 0, 0, 0)
    } else if key_len > 6 && i % key_len == 4 {
        sub_word(before)
    } else {
        before
    }
}

/// Word `i` of the key expansion, from those before it.
fn next_word(key: &[u8], words: &[u32; 60], i: usize) -> u32
    requires length { IsKeyLength (length key.now) }
    requires within { i < 4 * round_count key.now + 4 }
    ensures { result ≡ next_word key.now (take i words.now) i }
{
    let key_len = key.len() / 4;
    if i < key_len {
        word(key[4 * i], key[4 * i + 1], key[4 * i + 2], key[4 * i + 3])
    } else {
        words[i - key_len] ^ key_step(key_len, i, words[i - 1])
    }
}

/// Writes the key expansion to the front of `words`.
fn expand(key: &[u8], words: &mut [u32; 60])
    requires { IsKeyLength (length key.now) }
    ensures { take (4 * round_count key.now + 4) words.new ≡ key_words key.now }
{
    let count = 4 * (key.len() / 4 + 6) + 4;
    for i in 0..count {
        words[i] = next_word(key, words, i);
    }
}

/// Writes the words of the inner rounds after InvMixColumns to their places in `mixed`.
fn mix(words: &[u32; 60], rounds: usize, mixed: &mut [u32; 60])
    requires { rounds ≤ 14 }
    ensures { IsMixed words.now mixed.new rounds }
{
    for i in 4..4 * rounds {
        mixed[i] = inverse_mix_word(words[i]);
    }
}

impl KeySchedule {
    /// The schedule of a key, refused exactly where its length is not 16, 24 or 32 octets.
    pub fn new(key: &[u8]) -> Result<KeySchedule, KeyLength>
        ensures key { IfOk result (λ schedule. schedule ≡ key.now) }
        ensures refused { IsOk result ↔ IsKeyLength (length key.now) }
    {
        if key.len() != 16 && key.len() != 24 && key.len() != 32 {
            return Err(KeyLength);
        }
        let rounds = key.len() / 4 + 6;
        let mut words = [0; 60];
        expand(key, &mut words);
        let mut mixed = [0; 60];
        mix(&words, rounds, &mut mixed);
        Ok(KeySchedule {
            rounds,
            words,
            mixed,
        })
    }

    /// Encrypts a block in place: AES (FIPS 197, 5.1).
    #[inline(always)]
    pub fn encrypt(&self, block: &mut CipherBlock)
        ensures { block.new ≡ aes_encrypts self.now block.old }
    {
        let mut columns = block.columns();
        cipher::encrypt(&self.words, self.rounds, &mut columns);
        *block = CipherBlock::of(columns);
    }

    /// Decrypts a block in place: the inverse of AES (FIPS 197, 5.3).
    pub fn decrypt(&self, block: &mut CipherBlock)
        ensures value { block.new ≡ aes_decrypts self.now block.old }
        ensures undoes { (plain : List ℕ) → IsBlock plain
            → block.old ≡ aes_encrypts self.now plain → block.new ≡ plain }
    {
        let mut columns = block.columns();
        cipher::decrypt(&self.words, &self.mixed, self.rounds, &mut columns);
        *block = CipherBlock::of(columns);
    }

    /// The block after AES (FIPS 197, 5.1).
    pub fn encrypt_block(&self, block: [u8; 16]) -> [u8; 16]
        ensures value { result ≡ aes_encrypts self.now block }

        // A law of the definition: its octets are the elements of a field.
        ensures field { IsField }
    {
        let mut state = CipherBlock::from_octets(&block);
        self.encrypt(&mut state);
        state.to_octets()
    }

    /// The block that AES turns into this one (FIPS 197, 5.3).
    pub fn decrypt_block(&self, block: [u8; 16]) -> [u8; 16]
        ensures value { result ≡ aes_decrypts self.now block }
        ensures undoes { (plain : List ℕ) → IsBlock plain
            → block ≡ aes_encrypts self.now plain → result ≡ plain }
    {
        let mut state = CipherBlock::from_octets(&block);
        self.decrypt(&mut state);
        state.to_octets()
    }
}

#[cfg(test)]
mod tests {
    use super::*;

    const BLOCK: [u8; 16] = [
        0x00, 0x11, 0x22, 0x33, 0x44, 0x55, 0x66, 0x77, 0x88, 0x99, 0xaa, 0xbb, 0xcc, 0xdd, 0xee,
        0xff,
    ];

    const KEY: [u8; 32] = [
        0, 1, 2, 3, 4, 5, 6, 7, 8, 9, 10, 11, 12, 13, 14, 15, 16, 17, 18, 19, 20, 21, 22, 23, 24,
        25, 26, 27, 28, 29, 30, 31,
    ];

    // FIPS 197, appendix C.
    #[test]
    fn example_vectors_both_ways(rt: HostRuntime) {
        let cases = [
            (
                16,
                [
                    0x69, 0xc4, 0xe0, 0xd8, 0x6a, 0x7b, 0x04, 0x30, 0xd8, 0xcd, 0xb7, 0x80, 0x70,
                    0xb4, 0xc5, 0x5a,
                ],
            ),
            (
                24,
                [
                    0xdd, 0xa9, 0x7c, 0xa4, 0x86, 0x4c, 0xdf, 0xe0, 0x6e, 0xaf, 0x70, 0xa0, 0xec,
                    0x0d, 0x71, 0x91,
                ],
            ),
            (
                32,
                [
                    0x8e, 0xa2, 0xb7, 0xca, 0x51, 0x67, 0x45, 0xbf, 0xea, 0xfc, 0x49, 0x90, 0x4b,
                    0x49, 0x60, 0x89,
                ],
            ),
        ];
        for (key_len, encrypted) in cases {
            if let Ok(schedule) = KeySchedule::new(KEY.get(..key_len).unwrap_or(&[])) {
                assert_eq!(rt; schedule.encrypt_block(BLOCK), encrypted, "{key_len}");
                assert_eq!(rt; schedule.decrypt_block(encrypted), BLOCK, "{key_len}");
            } else {
                panic!(rt; "a key of {key_len} octets is refused");
            }
        }
    }

    #[test]
    fn other_key_lengths_are_refused(rt: HostRuntime) {
        for key_len in [0, 15, 17, 20, 23, 25, 28, 31] {
            assert!(rt;
                KeySchedule::new(KEY.get(..key_len).unwrap_or(&[])).is_err(),
                "{key_len}"
            );
        }
    }
}
