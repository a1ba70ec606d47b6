//! Which user data headers are read.

ghost use Rattle.std.specs.Prelude.{◌≡◌, ◌+◌, ◌*◌, ◌<◌, ◌≤◌, length, true, IfSome};
ghost use Rattle.ota_core.specs.declared.references.Reference.TheVariants.{Short, Wide};
ghost use Rattle.sms_segments.specs.Header.{first_in, first_wide_in, has_wide, header_len, header_of, is_only, is_wide, is_wide_reference, later_in, later_wide_in, part_in, short_part_in, wide_part_in, IsPlaced};

use ota_core::Reference;

/// The greatest number of octets of a message (3GPP TS 23.040, 9.2.3.24).
const MESSAGE_LEN: usize = 140;

/// The element of a command packet (3GPP TS 31.115, 4.2).
const COMMAND_PACKET: u8 = 0x70;

/// The element of a response packet (3GPP TS 31.115, 4.4).
const RESPONSE_PACKET: u8 = 0x71;

/// What the user data header says of its message (3GPP TS 23.040, 9.2.3.24; 3GPP TS 31.115, 4).
#[derive(Clone, Copy, Debug, PartialEq, Eq)]
pub enum Header {
    /// It is the only one of its packet.
    Only,
    /// It is one of several.
    Part {
        reference: Reference,
        /// How many there are.
        total: u8,
        /// Its place among them, from 1.
        place: u8,
    },
}

impl Header {
    /// How many octets the header has.
    pub fn len(&self) -> usize
        ensures { result ≡ header_len self.now }
    {
        match self {
            Header::Only => 3,
            Header::Part {
                reference: Reference::Short(_),
                place: 1,
                ..
            } => 8,
            Header::Part {
                reference: Reference::Short(_),
                ..
            } => 6,
            Header::Part {
                reference: Reference::Wide(_),
                place: 1,
                ..
            } => 9,
            Header::Part {
                reference: Reference::Wide(_),
                ..
            } => 7,
        }
    }
}

/// Whether a reference has two octets (3GPP TS 23.040, 9.2.3.24.8).
pub fn is_wide_reference(reference: Reference) -> bool
    ensures { result ≡ is_wide_reference reference }
{
    match reference {
        Reference::Short(_) => false,
        Reference::Wide(_) => true,
    }
}

/// Whether a message has the header of a piece of a command packet or of a response packet, and its reference has two
/// octets (3GPP TS 23.040, 9.2.3.24.8; 3GPP TS 31.115, 4).
pub fn is_wide(message: &[u8]) -> bool
    ensures { result ≡ is_wide message.now }
{
    has_wide(COMMAND_PACKET, message) || has_wide(RESPONSE_PACKET, message)
}

fn has_wide(element: u8, message: &[u8]) -> bool
    ensures { result ≡ has_wide (header_of element message.now) }
{
    match header_of(element, message) {
        Some(Header::Part { reference, .. }) => is_wide_reference(reference),
        _ => false,
    }
}

/// The header of a message for this element, where it is in the grammar.
pub fn header_of(element: u8, message: &[u8]) -> Option<Header>
    ensures header { result ≡ header_of element message.now }
    ensures placed { IfSome result IsPlaced }
    ensures octets { IfSome result (λ header. header_len header < length message.now) }
    ensures short { IfSome result (λ header. length message.now ≤ 140) }
{
    if message.len() > MESSAGE_LEN {
        return None;
    }
    if is_only(element, message) {
        return Some(Header::Only);
    }
    part_in(element, message)
}

fn is_only(element: u8, message: &[u8]) -> bool
    ensures only { result ≡ is_only element message.now }
    ensures octets { result ≡ true → 3 < length message.now }
{
    match message {
        [a, b, c, _, ..] => *a == 0x02 && *b == element && *c == 0x00,
        _ => false,
    }
}

/// The header of one of several messages.
fn part_in(element: u8, message: &[u8]) -> Option<Header>
    ensures part { result ≡ part_in element message.now }
    ensures placed { IfSome result IsPlaced }
    ensures octets { IfSome result (λ header. header_len header < length message.now) }
{
    short_part_in(element, message).or(wide_part_in(element, message))
}

fn short_part_in(element: u8, message: &[u8]) -> Option<Header>
    ensures part { result ≡ short_part_in element message.now }
    ensures placed { IfSome result IsPlaced }
    ensures octets { IfSome result (λ header. header_len header < length message.now) }
{
    first_in(element, message).or(later_in(message))
}

fn wide_part_in(element: u8, message: &[u8]) -> Option<Header>
    ensures part { result ≡ wide_part_in element message.now }
    ensures placed { IfSome result IsPlaced }
    ensures octets { IfSome result (λ header. header_len header < length message.now) }
{
    first_wide_in(element, message).or(later_wide_in(message))
}

fn first_in(element: u8, message: &[u8]) -> Option<Header>
    ensures first { result ≡ first_in element message.now }
    ensures placed { IfSome result IsPlaced }
    ensures octets { IfSome result (λ header. header_len header < length message.now) }
{
    match message {
        [0x07, 0x00, 0x03, reference, total, 0x01, e, 0x00, _, ..]
            if *e == element && *total >= 1 => { Some(part(*reference, *total, 1)) }
        [0x07, e, 0x00, 0x00, 0x03, reference, total, 0x01, _, ..]
            if *e == element && *total >= 1 => { Some(part(*reference, *total, 1)) }
        _ => None,
    }
}

fn later_in(message: &[u8]) -> Option<Header>
    ensures later { result ≡ later_in message.now }
    ensures placed { IfSome result IsPlaced }
    ensures octets { IfSome result (λ header. header_len header < length message.now) }
{
    match message {
        [0x05, 0x00, 0x03, reference, total, place, _, ..] if *place >= 2 && *place <= *total => {
            Some(part(*reference, *total, *place))
        }
        _ => None,
    }
}

/// A piece of a packet with a reference of one octet.
fn part(reference: u8, total: u8, place: u8) -> Header
    ensures { result ≡ Header.Part (Short reference) total place }
{
    Header::Part {
        reference: Reference::Short(reference),
        total,
        place,
    }
}

fn first_wide_in(element: u8, message: &[u8]) -> Option<Header>
    ensures first { result ≡ first_wide_in element message.now }
    ensures placed { IfSome result IsPlaced }
    ensures octets { IfSome result (λ header. header_len header < length message.now) }
{
    match message {
        [0x08, 0x08, 0x04, high, low, total, 0x01, e, 0x00, _, ..]
            if *e == element && *total >= 1 => { Some(wide_part(*high, *low, *total, 1)) }
        [0x08, e, 0x00, 0x08, 0x04, high, low, total, 0x01, _, ..]
            if *e == element && *total >= 1 => { Some(wide_part(*high, *low, *total, 1)) }
        _ => None,
    }
}

fn later_wide_in(message: &[u8]) -> Option<Header>
    ensures later { result ≡ later_wide_in message.now }
    ensures placed { IfSome result IsPlaced }
    ensures octets { IfSome result (λ header. header_len header < length message.now) }
{
    match message {
        [0x06, 0x08, 0x04, high, low, total, place, _, ..] if *place >= 2 && *place <= *total => {
            Some(wide_part(*high, *low, *total, *place))
        }
        _ => None,
    }
}

/// A piece of a packet with a reference of two octets.
fn wide_part(high: u8, low: u8, total: u8, place: u8) -> Header
    ensures { result ≡ Header.Part (Wide (high * 256 + low)) total place }
{
    Header::Part {
        reference: Reference::Wide(u16::from(high) * 256 + u16::from(low)),
        total,
        place,
    }
}
