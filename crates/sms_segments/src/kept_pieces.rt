//! The pieces that are kept of packets that aren't whole.

ghost use Rattle.std.specs.Prelude.{◌≡◌, ◌≤◌, [], length, IsOk, OnOk, OnErr, vec_capacity};
ghost use Rattle.std.specs.Option.{option_map};
ghost use Rattle.sms_segments.specs.Assembled.{is_whole, joined, with_piece};
ghost use Rattle.sms_segments.specs.declared.concatenations.Concatenation.{Concatenation};
ghost use Rattle.sms_segments.specs.Kept.{FitsAt, kept_in, kept_with, kept_without};

use crate::concatenations::Concatenation;
use arrayvec::ArrayVec;
use ota_core::Memory;
use std::alloc::Global;
use std::collections::HashMap;
use std::marker::Model;

/// Where a piece belongs.
#[derive(Clone, Copy, Debug, PartialEq, Eq, Hash)]
pub struct Place {
    pub of: Concatenation,
    /// Its place in its packet, from 1.
    pub place: u8,
}

/// Pieces, each found by its packet and its place. Contracts see what is kept of each packet at each place, and for how many
/// more there surely is room.
#[derive(Drop)]
pub struct KeptPieces {
    pieces: HashMap<Place, ArrayVec<u8, 134>>,
}

impl Model for KeptPieces {
    ghost use Rattle.std.specs.HashMap.{spare};
    ghost use Rattle.sms_segments.specs.Kept.{AllFit, Holding};

    ghost Value = { Holding };

    ghost view = { λ kept. record { pieces = kept.pieces.entries; room = spare kept.pieces } };

    ghost invariant = { λ kept. AllFit kept.pieces.entries };
}

/// The octets that are kept at a place.
fn octets_at<'a>(pieces: &'a HashMap<Place, ArrayVec<u8, 134>>, at: &Place) -> Option<&'a [u8]>
    ensures { option_map (λ found. found.now) result ≡ kept_in pieces.now.entries at.now.of at.now.place }
{
    match pieces.get(at) {
        Some(piece) => Some(piece.as_slice()),
        None => None,
    }
}

/// The octets at a place of the packet of which a piece arrives, where there are any.
fn octets_with<'a>(
    pieces: &'a HashMap<Place, ArrayVec<u8, 134>>,
    arrival: &Place,
    octets: &'a [u8],
    place: u8,
) -> Option<&'a [u8]>
    ensures { option_map (λ found. found.now) result ≡ with_piece arrival.now.place octets.now (kept_in pieces.now.entries arrival.now.of) place }
{
    if place == arrival.place {
        return Some(octets);
    }
    octets_at(
        pieces,
        &Place {
            of: arrival.of,
            place,
        },
    )
}

impl KeptPieces {
    /// None.
    pub fn new(alloc: Global) -> KeptPieces
        ensures { result.pieces ≡ [] }
    {
        KeptPieces {
            pieces: HashMap::new(alloc),
        }
    }

    /// Makes room for one more.
    pub fn make_room(&mut self) -> Result<(), Memory>
        ensures ok { OnOk result (1 ≤ self.new.room) }
        ensures pieces { (of : Concatenation) → kept_in self.new.pieces of ≡ kept_in self.old.pieces of }
    {
        self.pieces.reserve(1)?;
        Ok(())
    }

    /// Whether the piece that arrives fills the last place of its packet.
    pub fn is_whole(&self, arrival: &Place, octets: &[u8]) -> bool
        ensures { result ≡ is_whole arrival.now.of.total (with_piece arrival.now.place octets.now (kept_in self.now.pieces arrival.now.of)) }
    {
        let mut place = arrival.of.total;
        while place > 0 {
            if octets_with(&self.pieces, arrival, octets, place).is_none() {
                return false;
            }
            place -= 1;
        }
        true
    }

    /// Keeps the piece that arrives, in the place of one that is there already.
    pub fn keep(&mut self, arrival: Place, octets: &[u8]) -> Result<(), Memory>
        requires { FitsAt arrival.of arrival.place octets.now }
        ensures ok { OnOk result ((of : Concatenation) → kept_in self.new.pieces of ≡ kept_with arrival.of arrival.place octets.now self.old.pieces of) }
        ensures err { OnErr result (self.new.pieces ≡ self.old.pieces) }
        ensures room { 1 ≤ self.old.room → IsOk result }
    {
        let mut kept = ArrayVec::new();
        let _ = kept.try_extend_from_slice(octets);
        match self.pieces.insert(arrival, kept) {
            Ok(_) => Ok(()),
            Err(_) => Err(Memory),
        }
    }

    /// Drops all that is kept of a packet.
    pub fn forget(&mut self, of: &Concatenation)
        ensures { (other : Concatenation) → kept_in self.new.pieces other ≡ kept_without of.now self.old.pieces other }
    {
        for before in 0..of.total {
            self.pieces.remove(&Place {
                of: *of,
                place: before + 1,
            });
        }
    }

    /// How many octets the packet has that the arriving piece makes whole.
    fn joined_len(&self, arrival: &Place, octets: &[u8]) -> usize
        requires { FitsAt arrival.now.of arrival.now.place octets.now }
        ensures len { result ≡ length (joined arrival.now.of.total (with_piece arrival.now.place octets.now (kept_in self.now.pieces arrival.now.of))) }
        ensures most { result ≤ 34168 }
    {
        let mut len = 0;
        for before in 0..arrival.of.total {
            if let Some(next) = octets_with(&self.pieces, arrival, octets, before + 1) {
                len += next.len();
            }
        }
        len
    }

    /// Puts the packet together that the arriving piece makes whole, in a vector that is empty.
    pub fn join(&self, arrival: &Place, octets: &[u8], packet: &mut Vec<u8>) -> Result<(), Memory>
        requires fits { FitsAt arrival.now.of arrival.now.place octets.now }
        requires empty { packet.old.items ≡ [] }
        ensures ok { OnOk result (packet.new.items ≡ joined arrival.now.of.total (with_piece arrival.now.place octets.now (kept_in self.now.pieces arrival.now.of))) }
        ensures short { OnOk result (length packet.new.items ≤ 34168) }
        ensures room { 34168 ≤ vec_capacity packet.old → IsOk result }
    {
        packet.reserve(self.joined_len(arrival, octets))?;
        for before in 0..arrival.of.total {
            if let Some(next) = octets_with(&self.pieces, arrival, octets, before + 1) {
                packet.extend_from_slice(next)?;
            }
        }
        Ok(())
    }
}
