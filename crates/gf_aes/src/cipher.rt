//! The cipher and the inverse cipher over the four columns of a block, each a word.

ghost use Rattle.std.specs.Prelude.{◌≡◌, ◌%◌, ◌≤◌};
ghost use Rattle.gf_aes.specs.Cipher.{IsMixed, add_round_key, block_of, cipher, inverse_cipher, mix_columns, shift_rows, sub_bytes};

use crate::kernel::{inverse_last_word, inverse_round_word, mix_entries, sub_entries};

/// Round `r` of the cipher, with all its steps (FIPS 197, 5.1).
#[inline(always)]
fn round(words: &[u32; 60], r: usize, block: &mut [u32; 4])
    requires { r ≤ 14 }
    ensures { block_of block.new
        ≡ add_round_key words.now (mix_columns (shift_rows (sub_bytes (block_of block.old)))) r }
{
    // The key's words first, and one column used up before the next, so that all stay in registers
    // and little is left to add once the last column is there.
    let k = 4 * r;
    let key = [words[k], words[k + 1], words[k + 2], words[k + 3]];
    let a = mix_entries(block[0]);
    let b = mix_entries(block[1]);
    let c = mix_entries(block[2]);
    let d = mix_entries(block[3]);
    *block = [
        a[0] ^ b[1] ^ c[2] ^ d[3] ^ key[0],
        b[0] ^ c[1] ^ d[2] ^ a[3] ^ key[1],
        c[0] ^ d[1] ^ a[2] ^ b[3] ^ key[2],
        d[0] ^ a[1] ^ b[2] ^ c[3] ^ key[3],
    ];
}

/// The last round, which has no MixColumns (FIPS 197, 5.1).
#[inline(always)]
fn last_round(words: &[u32; 60], r: usize, block: &mut [u32; 4])
    requires { r ≤ 14 }
    ensures { block_of block.new
        ≡ add_round_key words.now (shift_rows (sub_bytes (block_of block.old))) r }
{
    let k = 4 * r;
    let last_key = [words[k], words[k + 1], words[k + 2], words[k + 3]];
    let a = sub_entries(block[0]);
    let b = sub_entries(block[1]);
    let c = sub_entries(block[2]);
    let d = sub_entries(block[3]);
    *block = [
        a[0] ^ b[1] ^ c[2] ^ d[3] ^ last_key[0],
        b[0] ^ c[1] ^ d[2] ^ a[3] ^ last_key[1],
        c[0] ^ d[1] ^ a[2] ^ b[3] ^ last_key[2],
        d[0] ^ a[1] ^ b[2] ^ c[3] ^ last_key[3],
    ];
}

/// Encrypts a block with the key words of `rounds` rounds (FIPS 197, 5.1).
#[inline(always)]
pub(crate) fn encrypt(words: &[u32; 60], rounds: usize, block: &mut [u32; 4])
    requires some { 2 ≤ rounds }
    requires most { rounds ≤ 14 }
    requires even { rounds % 2 ≡ 0 }
    ensures { block_of block.new ≡ cipher words.now rounds (block_of block.old) }
{
    *block = [
        block[0] ^ words[0],
        block[1] ^ words[1],
        block[2] ^ words[2],
        block[3] ^ words[3],
    ];
    round(words, 1, block);
    // Two rounds a turn, so that no column is moved between registers at its end.
    for turn in 0..rounds / 2 - 1 {
        round(words, 2 * turn + 2, block);
        round(words, 2 * turn + 3, block);
    }
    last_round(words, rounds, block);
}

/// Decrypts a block by the equivalent inverse cipher (FIPS 197, 5.3.5): `mixed` are the key words
/// of the inner rounds after InvMixColumns.
pub(crate) fn decrypt(words: &[u32; 60], mixed: &[u32; 60], rounds: usize, block: &mut [u32; 4])
    requires some { 1 ≤ rounds }
    requires most { rounds ≤ 14 }
    requires mixed { IsMixed words.now mixed.now rounds }
    ensures { block_of block.new ≡ inverse_cipher words.now rounds (block_of block.old) }
{
    let k = 4 * rounds;
    let mut a = block[0] ^ words[k];
    let mut b = block[1] ^ words[k + 1];
    let mut c = block[2] ^ words[k + 2];
    let mut d = block[3] ^ words[k + 3];
    for r in 0..rounds - 1 {
        let k = 4 * (rounds - (r + 1));
        let next_a = inverse_round_word(a, d, c, b, mixed[k]);
        let next_b = inverse_round_word(b, a, d, c, mixed[k + 1]);
        let next_c = inverse_round_word(c, b, a, d, mixed[k + 2]);
        let next_d = inverse_round_word(d, c, b, a, mixed[k + 3]);
        a = next_a;
        b = next_b;
        c = next_c;
        d = next_d;
    }
    *block = [
        inverse_last_word(a, d, c, b, words[0]),
        inverse_last_word(b, a, d, c, words[1]),
        inverse_last_word(c, b, a, d, words[2]),
        inverse_last_word(d, c, b, a, words[3]),
    ];
}
