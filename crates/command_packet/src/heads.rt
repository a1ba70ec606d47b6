//! What stands in front of a command packet.

ghost use Rattle.std.specs.Prelude.{◌≡◌, ◌≤◌, length, slice_index, true, IfSome};
ghost use Rattle.command_packet.specs.Carried.{has_form, kvn_in, says_ciphered, security_in};

use ota_core::{Spi, read_kic, read_kid, read_spi};
use secured_packet::fields::len_of;

/// CHL: the number of octets from SPI to the end of CC, 21.
pub const HEADER_LEN: u8 = 0x15;

/// The key version number that a packet names, where its form is right, SPI, KIc and KID are of the profile, and KIc
/// and KID name one keyset.
pub fn kvn_of(packet: &[u8]) -> Option<u8>
    ensures { result ≡ kvn_in packet.now }
{
    if !has_form(packet) {
        return None;
    }
    match security_of(packet) {
        Some((_, kvn)) => Some(kvn),
        None => None,
    }
}

/// Whether CPL and CHL are right, and what is ciphered is whole blocks.
pub fn has_form(packet: &[u8]) -> bool
    ensures form { result ≡ has_form packet.now }
    ensures long { result ≡ true → 24 ≤ length packet.now }
{
    match packet {
        [a, b, header_len, security, ..] => {
            packet.len() >= 24
                && usize::from(len_of([*a, *b])) == packet.len() - 2
                && *header_len == HEADER_LEN
                && (!says_ciphered(*security) || (packet.len() - 10) % 16 == 0)
        }
        _ => false,
    }
}

/// SPI and the key version number of a packet, where they are of the profile and KIc and KID name one keyset.
pub fn security_of(packet: &[u8]) -> Option<(Spi, u8)>
    requires { 24 ≤ length packet.now }
    ensures security { result ≡ security_in packet.now }
    ensures ciphered { IfSome result (λ security. security.0.ciphered ≡ says_ciphered (slice_index packet.now 3)) }
{
    match packet {
        [_, _, _, first, second, kic, kid, ..] => {
            match (read_spi([*first, *second]), read_kic(*kic), read_kid(*kid)) {
                (Ok(spi), Ok(kic), Ok(kid)) if kic == kid => Some((spi, kic)),
                _ => None,
            }
        }
        _ => None,
    }
}

fn says_ciphered(octet: u8) -> bool
    ensures { result ≡ says_ciphered octet }
{
    octet / 4 % 2 == 1
}
