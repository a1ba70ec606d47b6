//! How a packet is cut into messages.

ghost use Rattle.std.specs.Prelude.{◌≡◌, ◌⊎◌, ◌+◌, ◌/◌, ◌%◌, ◌≤◌, ◌++◌, [], ◌∷◌, length};
ghost use Rattle.sms_segments.specs.Header.{is_wide_reference};
ghost use Rattle.sms_segments.specs.Cut.{first_header, first_room, later_header, later_room, longest, octets_at, piece_of, pieces_count};

use crate::headers::is_wide_reference;
use arrayvec::ArrayVec;
use ota_core::Reference;

/// The user data of a message: at most 140 octets (3GPP TS 23.040, 9.2.3.24).
type Message = ArrayVec<u8, 140>;

/// How many octets of a packet stand in its only message.
const ONLY_ROOM: usize = 137;

/// How many octets of a packet stand in the first of several messages.
fn first_room(wide: bool) -> usize
    ensures { result ≡ first_room wide }
{
    if wide { 131 } else { 132 }
}

/// How many octets of a packet stand in a later message.
fn later_room(wide: bool) -> usize
    ensures room { result ≡ later_room wide }
    ensures some { 1 ≤ result }
    ensures fits { result ≤ 134 }
{
    if wide { 133 } else { 134 }
}

/// How many messages a packet of `len` octets takes, each filled before the next: 1 to 255. `wide` says whether their
/// reference has two octets; a packet has at most 34,168 octets, and 33,913 with a wide reference.
///
/// 3GPP TS 23.040, 9.2.3.24.1 and 9.2.3.24.8.
pub fn pieces_of(len: usize, wide: bool) -> u32
    requires some { 1 ≤ len }
    requires fits { len ≤ longest wide }

    ensures count { result ≡ pieces_count len wide }
    ensures some { 1 ≤ result }
    ensures fits { result ≤ 255 }
{
    if len <= ONLY_ROOM {
        return 1;
    }
    if wide {
        1 + ((len - 131 + 132) / 133) as u32
    } else {
        1 + ((len - 132 + 133) / 134) as u32
    }
}

/// The message at a place, from 1, of a packet: its user data header and its octets of the packet.
///
/// `element` names what the packet is: 70 in hexadecimal a command packet, 71 a response packet
/// (3GPP TS 31.115, 4.2 and 4.4). The reference tells the pieces of one packet from those of another.
pub fn piece(packet: &[u8], element: u8, reference: Reference, place: u8) -> ArrayVec<u8, 140>
    requires element { (element ≡ 0x70) ⊎ (element ≡ 0x71) }
    requires some { 1 ≤ length packet.now }
    requires fits { length packet.now ≤ longest (is_wide_reference reference) }
    requires from_one { 1 ≤ place }
    requires within { place ≤ pieces_count (length packet.now) (is_wide_reference reference) }

    ensures { result.items ≡ piece_of packet.now element reference place }
{
    let wide = is_wide_reference(reference);
    let total = pieces_of(packet.len(), wide) as u8;
    let octets = octets_at(packet, wide, total, place);
    if total == 1 {
        joined(&[0x02, element, 0x00], octets)
    } else if place == 1 {
        first_piece(element, reference, total, octets)
    } else {
        later_piece(reference, total, place, octets)
    }
}

/// The first of several messages.
fn first_piece(element: u8, reference: Reference, total: u8, octets: &[u8]) -> Message
    requires { length octets.now ≤ first_room (is_wide_reference reference) }
    ensures { result.items ≡ first_header element reference total ++ octets.now }
{
    match reference {
        Reference::Short(reference) => joined(
            &[0x07, 0x00, 0x03, reference, total, 0x01, element, 0x00],
            octets,
        ),
        Reference::Wide(reference) => {
            let [high, low] = halves(reference);
            joined(
                &[0x08, 0x08, 0x04, high, low, total, 0x01, element, 0x00],
                octets,
            )
        }
    }
}

/// A later one of several messages.
fn later_piece(reference: Reference, total: u8, place: u8, octets: &[u8]) -> Message
    requires { length octets.now ≤ later_room (is_wide_reference reference) }
    ensures { result.items ≡ later_header reference total place ++ octets.now }
{
    match reference {
        Reference::Short(reference) => joined(&[0x05, 0x00, 0x03, reference, total, place], octets),
        Reference::Wide(reference) => {
            let [high, low] = halves(reference);
            joined(&[0x06, 0x08, 0x04, high, low, total, place], octets)
        }
    }
}

/// The two octets of a reference, the high one first.
fn halves(reference: u16) -> [u8; 2]
    ensures { result ≡ reference / 256 ∷ reference % 256 ∷ [] }
{
    [(reference / 256) as u8, (reference % 256) as u8]
}

/// The octets of a packet that stand in the message at a place, from 1, of so many.
fn octets_at(packet: &[u8], wide: bool, total: u8, place: u8) -> &[u8]
    requires total { total ≡ pieces_count (length packet.now) wide }
    requires from_one { 1 ≤ place }
    requires within { place ≤ total }
    ensures octets { result.now ≡ octets_at wide total packet.now place }
    ensures only { total ≡ 1 → length result.now ≤ 137 }
    ensures first { ¬ (total ≡ 1) → place ≡ 1 → length result.now ≤ first_room wide }
    ensures later { ¬ (place ≡ 1) → length result.now ≤ later_room wide }
{
    if total == 1 {
        packet
    } else if place == 1 {
        &packet[..first_room(wide)]
    } else {
        let rest = &packet[first_room(wide) + later_room(wide) * (usize::from(place) - 2)..];
        &rest[..later_room(wide).min(rest.len())]
    }
}

/// A message of these octets, one behind the other.
fn joined(header: &[u8], octets: &[u8]) -> Message
    requires { length header.now + length octets.now ≤ 140 }
    ensures { result.items ≡ header.now ++ octets.now }
{
    let mut message = ArrayVec::new();
    let _ = message.try_extend_from_slice(header);
    let _ = message.try_extend_from_slice(octets);
    message
}
