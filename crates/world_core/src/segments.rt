//! The pieces of packets that left.

ghost use Rattle.std.specs.Prelude.{◌≡◌, slice_get, MatchResult, None, Some};
ghost use Rattle.std.specs.Option.{option_map, option_and_then};
ghost use Rattle.world_core.specs.Packet.{packet_at};
ghost use Rattle.world_core.specs.Condition.{is_piece_of, are_pieces_of, is_at_place, has_place, has_places, first_reservation, place_refusal, packet_whole_at, whole_packet};
ghost use Rattle.world_core.specs.Effect.{piece_of};

use crate::packets::{ReservedPacket, packet_at};
use crate::refusals::NotAllowed;
use ota_core::{CardId, Entry};

/// A message that left: a piece of the packet of a reservation.
#[derive(Clone, Copy, Debug, PartialEq, Eq)]
pub struct Sent {
    /// The card that it is for.
    pub card: CardId,
    /// The reservation's position in the history, from 0.
    pub reservation: u64,
    /// The piece's place in the packet, from 1.
    pub place: u8,
}

/// The piece that leaves, where there is such a reservation and such a place of its packet.
pub(crate) fn piece_at(history: &[Entry], reservation: u64, place: u8) -> Result<Sent, NotAllowed>
    ensures { MatchResult result (λ piece. (place_refusal place (packet_at history.now reservation) ≡ None) × (option_map (piece_of reservation place) (packet_at history.now reservation) ≡ Some piece)) (λ refusal. place_refusal place (packet_at history.now reservation) ≡ Some refusal) }
{
    match packet_at(history, reservation) {
        Some(packet) => {
            if place < 1 || u64::from(place) > packet.pieces() {
                return Err(NotAllowed::BadPlace);
            }
            Ok(Sent {
                card: packet.keyset.card,
                reservation,
                place,
            })
        }
        None => Err(NotAllowed::NoReservation),
    }
}

/// The packet that the pieces make whole at the card. They can be of no reservation but that of the first one.
#[tactic(auto, using(crate::proofs::WholePackets::whole_of_first))]
pub(crate) fn whole_packet<'a>(
    history: &'a [Entry],
    sent: &[Sent],
    card: CardId,
    pieces: &[u64],
) -> Option<ReservedPacket<'a>>
    ensures { result ≡ whole_packet history.now sent.now card pieces.now }
{
    whole_of_first(history, sent, card, pieces)
}

fn whole_of_first<'a>(
    history: &'a [Entry],
    sent: &[Sent],
    card: CardId,
    pieces: &[u64],
) -> Option<ReservedPacket<'a>>
    ensures { result ≡ option_and_then (packet_whole_at history.now sent.now card pieces.now) (first_reservation sent.now pieces.now) }
{
    let reservation = match first_reservation(sent, pieces) {
        Some(reservation) => reservation,
        None => return None,
    };
    let packet = match packet_at(history, reservation) {
        Some(packet) => packet,
        None => return None,
    };
    if are_pieces_of(sent, card, reservation, pieces) && has_places(sent, pieces, packet.pieces()) {
        return Some(packet);
    }
    None
}

fn first_reservation(sent: &[Sent], pieces: &[u64]) -> Option<u64>
    ensures { result ≡ first_reservation sent.now pieces.now }
{
    match pieces.first() {
        Some(piece) => match sent.get(*piece as usize) {
            Some(message) => Some(message.reservation),
            None => None,
        },
        None => None,
    }
}

fn are_pieces_of(sent: &[Sent], card: CardId, reservation: u64, pieces: &[u64]) -> bool
    ensures { result ≡ are_pieces_of sent.now card pieces.now reservation }
{
    pieces
        .iter()
        .all(|piece| is_piece_of(sent, card, reservation, *piece))
}

fn is_piece_of(sent: &[Sent], card: CardId, reservation: u64, piece: u64) -> bool
    ensures { result ≡ is_piece_of card reservation (slice_get sent.now piece) }
{
    match sent.get(piece as usize) {
        Some(message) => message.card.0 == card.0 && message.reservation == reservation,
        None => false,
    }
}

/// Whether each place from 1 to the last is among the pieces.
#[tactic(auto, using(crate::proofs::WholePackets::places_step))]
fn has_places(sent: &[Sent], pieces: &[u64], last: u64) -> bool
    ensures { result ≡ has_places sent.now pieces.now last }
{
    let mut place = last;
    while place > 0 {
        if !has_place(sent, pieces, place) {
            return false;
        }
        place -= 1;
    }
    true
}

fn has_place(sent: &[Sent], pieces: &[u64], place: u64) -> bool
    ensures { result ≡ has_place sent.now pieces.now place }
{
    pieces.iter().any(|piece| is_at_place(sent, place, *piece))
}

fn is_at_place(sent: &[Sent], place: u64, piece: u64) -> bool
    ensures { result ≡ is_at_place place (slice_get sent.now piece) }
{
    match sent.get(piece as usize) {
        Some(message) => u64::from(message.place) == place,
        None => false,
    }
}
