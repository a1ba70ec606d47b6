//! The checks of a packet before anything of it is copied: its octets are deciphered and put under the checksum block by
//! block.

ghost use Rattle.std.specs.Prelude.{◌≡◌, ◌+◌, ◌*◌, ◌/◌, ◌%◌, ◌≤◌, ◌++◌, ℕ, List, IsTrue, drop, length, slice_index};
ghost use Rattle.aes_modes.specs.Modes.{block_before, cbc_plain_of, plain_block};
ghost use Rattle.aes_modes.specs.Streams.{state_after};
ghost use Rattle.secured_packet.specs.Secured.{deciphered, has_checksum};

use aes_modes::{Keys, MacStream};
use gf_aes::{CipherBlock, KeySchedule};

/// Whether the 8 octets behind the first `front` of what may be ciphered are the cryptographic checksum that belongs to
/// the packet: of `prefix` and `head`, which never are ciphered, and of all others, before ciphering.
///
/// It wants no memory.
pub fn is_authentic(
    keys: &Keys,
    ciphered: bool,
    prefix: &[u8],
    head: &[u8],
    octets: &[u8],
    front: usize,
) -> bool
    requires front { front ≤ 8 }
    requires long { front + 8 ≤ length octets.now }
    requires blocks { IsTrue ciphered → length octets.now % 16 ≡ 0 }

    ensures authentic { result ≡ has_checksum keys.now.kid (prefix.now ++ head.now) front (deciphered ciphered keys.now.kic octets.now) }
    ensures len { length (deciphered ciphered keys.now.kic octets.now) ≡ length octets.now }
{
    let mac = begin(keys.kid(), prefix, head);
    if ciphered {
        is_authentic_ciphered(keys, mac, octets, front)
    } else {
        is_authentic_plain(keys.kid(), mac, octets, front)
    }
}

/// PCNTR: the octet behind the five of CNTR, with which what may be ciphered begins.
pub fn padding_in(ciphered: bool, kic: &KeySchedule, octets: &[u8]) -> u8
    requires long { 6 ≤ length octets.now }
    requires blocks { IsTrue ciphered → length octets.now % 16 ≡ 0 }
    ensures { result ≡ slice_index (deciphered ciphered kic.now octets.now) 5 }
{
    if ciphered {
        first_padding(kic, octets)
    } else {
        octets[5]
    }
}

fn first_padding(kic: &KeySchedule, octets: &[u8]) -> u8
    requires some { 16 ≤ length octets.now }
    requires blocks { length octets.now % 16 ≡ 0 }
    ensures { result ≡ slice_index (cbc_plain_of kic.now octets.now) 5 }
{
    let first = plain_block(kic, octets, 0);
    first[5]
}

fn begin(kid: &KeySchedule, prefix: &[u8], head: &[u8]) -> MacStream
    ensures { result ≡ state_after kid.now (prefix.now ++ head.now) }
{
    let mut mac = MacStream::new();
    mac.take(kid, prefix);
    mac.take(kid, head);
    mac
}

fn is_authentic_plain(kid: &KeySchedule, mac: MacStream, octets: &[u8], front: usize) -> bool
    requires front { front ≤ 8 }
    requires long { front + 8 ≤ length octets.now }
    ensures { (before : List ℕ) → mac ≡ state_after kid.now before → result ≡ has_checksum kid.now before front octets.now }
{
    let mut mac = mac;
    mac.take(kid, &octets[..front]);
    mac.take(kid, &octets[front + 8..]);
    let mut checksum = [0; 8];
    checksum.copy_from_slice(&octets[front..front + 8]);
    checksum == mac.code8(kid)
}

fn is_authentic_ciphered(keys: &Keys, mac: MacStream, octets: &[u8], front: usize) -> bool
    requires front { front ≤ 8 }
    requires some { 16 ≤ length octets.now }
    requires blocks { length octets.now % 16 ≡ 0 }
    ensures authentic { (before : List ℕ) → mac ≡ state_after keys.now.kid before → result ≡ has_checksum keys.now.kid before front (cbc_plain_of keys.now.kic octets.now) }
    ensures len { length (cbc_plain_of keys.now.kic octets.now) ≡ length octets.now }
{
    let mut mac = mac;
    let first = plain_block(keys.kic(), octets, 0);
    mac.take(keys.kid(), &first[..front]);
    mac.take(keys.kid(), &first[front + 8..]);
    take_later_blocks(&mut mac, keys, octets);
    let mut checksum = [0; 8];
    checksum.copy_from_slice(&first[front..front + 8]);
    checksum == mac.code8(keys.kid())
}

/// Puts all blocks but the first under the checksum.
fn take_later_blocks(mac: &mut MacStream, keys: &Keys, octets: &[u8])
    requires first { length (plain_block keys.now.kic octets.now 0) ≡ 16 }
    requires some { 16 ≤ length octets.now }
    ensures taken { (text : List ℕ) → mac.old ≡ state_after keys.now.kid text → mac.new ≡ state_after keys.now.kid (text ++ drop 16 (cbc_plain_of keys.now.kic octets.now)) }
    ensures len { length (cbc_plain_of keys.now.kic octets.now) ≡ 16 * (length octets.now / 16) }
{
    for i in 1..octets.len() / 16 {
        mac.take(keys.kid(), &plain_block(keys.kic(), octets, i));
    }
}

/// A block, from 0, as it was before ciphering (SP 800-38A, 6.2).
fn plain_block(kic: &KeySchedule, octets: &[u8], i: usize) -> [u8; 16]
    requires { 16 * i + 16 ≤ length octets.now }
    ensures { result ≡ plain_block kic.now octets.now i }
{
    let mut block = CipherBlock::from_octets(&octets[16 * i..16 * i + 16]);
    kic.decrypt(&mut block);
    block.add(&block_before(octets, i));
    block.to_octets()
}

fn block_before(octets: &[u8], i: usize) -> CipherBlock
    requires { 16 * i ≤ length octets.now }
    ensures { result ≡ block_before octets.now i }
{
    if i == 0 {
        CipherBlock::zero()
    } else {
        CipherBlock::from_octets(&octets[16 * (i - 1)..16 * i])
    }
}
