//! What a response packet is by its front.

ghost use Rattle.std.specs.Prelude.{◌≡◌, ◌-◌, ◌%◌, ◌^◌, ◌<◌, ◌≤◌, length, true};
ghost use Rattle.response_packet.specs.declared.fronts.Front.TheVariants.{Secured};
ghost use Rattle.response_packet.specs.Opened.{front_in, has_blocks};

use crate::building::{PLAIN_LEN, SECURED_LEN};
use secured_packet::fields::len_of;

/// What a packet is by its lengths.
#[derive(Clone, Copy, Debug, PartialEq, Eq)]
pub enum Front {
    /// No response packet.
    NoForm,
    /// One in the unsecured form, with this status code.
    Plain(u8),
    /// One with CC.
    Secured,
}

/// What a packet is by RPL, RHL and, with CC, the octets that are ciphered.
pub fn front_of(ciphered: bool, packet: &[u8]) -> Front
    ensures front { result ≡ front_in ciphered packet.now }
    ensures long { result ≡ Front.Secured → 21 ≤ length packet.now }
    ensures short { result ≡ Front.Secured → length packet.now < 2 ^ 17 }
    ensures blocks { result ≡ Front.Secured → ciphered ≡ true → (length packet.now - 6) % 16 ≡ 0 }
{
    match packet {
        [a, b, header_len, _, _, _, _, _, _, _, _, _, status, ..] => {
            if usize::from(len_of([*a, *b])) != packet.len() - 2 {
                return Front::NoForm;
            }
            if *header_len == PLAIN_LEN {
                return Front::Plain(*status);
            }
            if *header_len == SECURED_LEN && has_blocks(ciphered, packet) {
                return Front::Secured;
            }
            Front::NoForm
        }
        _ => Front::NoForm,
    }
}

fn has_blocks(ciphered: bool, packet: &[u8]) -> bool
    ensures { result ≡ has_blocks ciphered packet.now }
{
    packet.len() >= 21 && (!ciphered || (packet.len() - 6) % 16 == 0)
}
