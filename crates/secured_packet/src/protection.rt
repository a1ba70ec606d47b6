//! What command and response packets have in common: padding, ciphering, and the cryptographic checksum.

ghost use Rattle.std.specs.Prelude.{◌≡◌, ℕ, ◌+◌, ◌-◌, ◌%◌, ◌≤◌, ◌++◌, IsTrue, length, take, drop};
ghost use Rattle.aes_modes.specs.Modes.{cbc_of, cbc_plain_of};
ghost use Rattle.secured_packet.specs.Secured.{checksum_of, deciphered, padding_len, sent};

use crate::fields::PacketBuf;
use aes_modes::{cbc_decrypt, cbc_encrypt, cmac8};
use gf_aes::KeySchedule;

/// How many octets of padding stand behind so many: ciphered, the least that make whole blocks of 16; else none.
pub fn padding_len(ciphered: bool, len: usize) -> u8
    ensures value { result ≡ padding_len ciphered len }
    ensures few { result ≤ 15 }
{
    if ciphered {
        ((16 - len % 16) % 16) as u8
    } else {
        0
    }
}

/// Ciphers what stands from the place `at` on, where it is to be ciphered.
pub fn cipher(ciphered: bool, key: &KeySchedule, out: &mut PacketBuf, at: usize)
    requires within { at ≤ length out.old.items }
    requires blocks { IsTrue ciphered → (length out.old.items - at) % 16 ≡ 0 }
    ensures octets { out.new.items ≡ take at out.old.items ++ sent ciphered key.now (drop at out.old.items) }
    ensures len { length out.new.items ≡ length out.old.items }
    ensures undone { deciphered ciphered key.now (sent ciphered key.now (drop at out.old.items)) ≡ drop at out.old.items }
{
    if ciphered {
        encrypt(key, &mut out.as_mut_slice()[at..]);
    }
}

fn encrypt(key: &KeySchedule, octets: &mut [u8])
    requires { length octets.old % 16 ≡ 0 }
    ensures octets { octets.new ≡ cbc_of key.now octets.old }
    ensures undone { cbc_plain_of key.now (cbc_of key.now octets.old) ≡ octets.old }
{
    cbc_encrypt(key, octets);
}

/// Undoes the ciphering of whole octets, where they are ciphered.
pub fn decipher(ciphered: bool, key: &KeySchedule, octets: &mut [u8])
    requires { IsTrue ciphered → length octets.old % 16 ≡ 0 }
    ensures { octets.new ≡ deciphered ciphered key.now octets.old }
{
    if ciphered {
        cbc_decrypt(key, octets);
    }
}

/// Puts the cryptographic checksum of all that stands from the place `from` on, in the place of the first 8 octets, behind
/// the next `front` octets.
pub fn put_checksum(key: &KeySchedule, out: &mut PacketBuf, from: usize, front: usize)
    requires within { from ≤ 8 }
    requires room { front + 8 ≤ length out.old.items }
    ensures octets { out.new.items ≡ take front (drop 8 out.old.items) ++ checksum_of key.now (drop from out.old.items) ++ drop (front + 8) out.old.items }
    ensures len { length out.new.items ≡ length out.old.items }
    ensures eight { length (checksum_of key.now (drop from out.old.items)) ≡ 8 }
{
    let checksum = cmac8(key, &out.as_slice()[from..]);
    place(out.as_mut_slice(), &checksum, front);
}

/// Puts a checksum, in the place of the 8 octets in front, behind the next `front` octets.
fn place(packet: &mut [u8], checksum: &[u8; 8], front: usize)
    requires { front + 8 ≤ length packet.old }
    ensures octets { packet.new ≡ take front (drop 8 packet.old) ++ checksum.now ++ drop (front + 8) packet.old }
    ensures eight { length checksum.now ≡ 8 }
{
    packet[..8].copy_from_slice(checksum);
    packet[..front + 8].rotate_left(8);
}

/// Takes the cryptographic checksum, the 8 octets behind `front` others, to the front: what it is over stands behind it.
pub fn take_checksum(packet: &mut [u8], front: usize) -> [u8; 8]
    requires { front + 8 ≤ length packet.old }
    ensures checksum { result ≡ take 8 (drop front packet.old) }
    ensures others { drop 8 packet.new ≡ take front packet.old ++ drop (front + 8) packet.old }
{
    packet[..front + 8].rotate_left(front);
    let mut checksum = [0; 8];
    checksum.copy_from_slice(&packet[..8]);
    checksum
}
