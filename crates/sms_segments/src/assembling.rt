//! Packets from messages.

ghost use Rattle.std.specs.Prelude.{◌≡◌, [], ◌∷◌, ◌≤◌, List, IfOk, IsOk, OnOk, OnErr, None, length, vec_capacity};
ghost use Rattle.sms_segments.specs.Header.{header_of};

use crate::concatenations::Concatenation;
use crate::headers::{Header, header_of};
use crate::kept_pieces::{KeptPieces, Place};
use ota_core::{CardId, Memory, Octets};
use std::alloc::Global;
use std::marker::Model;
use std::mem::replace;

/// The most octets of a packet in 255 messages (3GPP TS 23.040, 9.2.3.24.1).
const LONGEST_PACKET: usize = 34_168;

/// What a message is answered.
#[derive(Debug, Drop)]
pub enum Push {
    /// It makes this packet whole.
    Whole(Octets),
    /// It is a piece of a packet that isn't whole yet.
    More,
    /// Its user data header isn't one of a packet for this element.
    NotOurs,
}

/// Puts packets together from the messages of any number of cards, in whatever order they come.
///
/// Of each packet, named by its card, its reference and its total, the last piece of each place is kept. The
/// packet is whole at the piece that fills the last place, and is then forgotten (3GPP TS 23.040,
/// 9.2.3.24.1). A message that is the only one of its packet is whole by itself. The pieces of a packet are found by its
/// name, and its octets are copied once, into the packet that is handed out.
#[derive(Drop)]
pub struct Assembler {
    element: u8,
    pieces: KeptPieces,
    /// Room for the next packet that is whole.
    packet: Vec<u8>,
    alloc: Global,
}

impl Model for Assembler {
    ghost use Rattle.std.specs.Prelude.{vec_capacity};
    ghost use Rattle.sms_segments.specs.Kept.{Kept, room_for};

    ghost Value = { Kept };

    ghost view = { λ a. record { element = a.element; pieces = a.pieces.pieces; room = room_for a.pieces.room (vec_capacity a.packet) } };
}

impl Assembler {
    ghost use Rattle.sms_segments.specs.declared.concatenations.Concatenation.{Concatenation};
    ghost use Rattle.sms_segments.specs.Assembled.{OfCard, answer_to, if_whole, with_piece};
    ghost use Rattle.sms_segments.specs.Kept.{FitsAt, IfWhole, Keeps, kept_after, kept_in};

    /// An assembler of packets for this element (3GPP TS 31.115, 4.2 and 4.4), with nothing kept yet.
    pub fn new(alloc: Global, element: u8) -> Assembler
        ensures element { result.element ≡ element }
        ensures keeps { Keeps element [] result.pieces }
    {
        Assembler {
            element,
            pieces: KeptPieces::new(alloc),
            packet: Vec::new(alloc),
            alloc,
        }
    }

    /// Makes room for one push, so that it doesn't answer that memory is wanting.
    pub fn make_room(&mut self) -> Result<(), Memory>
        ensures room { OnOk result (1 ≤ self.new.room) }
        ensures element { self.new.element ≡ self.old.element }
        ensures pieces { (of : Concatenation) → kept_in self.new.pieces of ≡ kept_in self.old.pieces of }
    {
        self.pieces.make_room()?;
        self.packet.clear();
        self.packet.reserve(LONGEST_PACKET)?;
        Ok(())
    }

    /// Takes the next message of a card.
    pub fn push(&mut self, card: CardId, message: &[u8]) -> Result<Push, Memory>
        ensures answer { (past : List OfCard) → Keeps self.old.element past self.old.pieces → IfOk result (λ push. push ≡ answer_to self.old.element past (record { card = card; octets = message.now })) }
        ensures keeps { (past : List OfCard) → Keeps self.old.element past self.old.pieces → OnOk result (Keeps self.old.element (record { card = card; octets = message.now } ∷ past) self.new.pieces) }
        ensures short { IfOk result (λ push. IfWhole push (λ packet. length packet ≤ 34168)) }
        ensures outside { header_of self.old.element message.now ≡ None → result ≡ Ok Push.NotOurs }
        ensures not_ours { result ≡ Ok Push.NotOurs → header_of self.old.element message.now ≡ None }
        ensures unchanged { result ≡ Ok Push.NotOurs → self.new ≡ self.old }
        ensures element { self.new.element ≡ self.old.element }
        ensures err { OnErr result (self.new.pieces ≡ self.old.pieces) }
        ensures room { 1 ≤ self.old.room → IsOk result }
    {
        let header = match header_of(self.element, message) {
            Some(header) => header,
            None => return Ok(Push::NotOurs),
        };
        let octets = &message[header.len()..];
        match header {
            Header::Only => Ok(Push::Whole(self.copied(octets)?)),
            Header::Part {
                reference,
                total,
                place,
            } => {
                let of = Concatenation {
                    card,
                    reference,
                    total,
                };
                self.take(&Place { of, place }, octets)
            }
        }
    }

    /// Takes a piece of a packet.
    fn take(&mut self, arrival: &Place, octets: &[u8]) -> Result<Push, Memory>
        requires { FitsAt arrival.now.of arrival.now.place octets.now }
        ensures answer { IfOk result (λ push. push ≡ if_whole arrival.now.of.total (with_piece arrival.now.place octets.now (kept_in self.old.pieces arrival.now.of))) }
        ensures short { IfOk result (λ push. IfWhole push (λ packet. length packet ≤ 34168)) }
        ensures keeps { OnOk result ((of : Concatenation) → kept_in self.new.pieces of ≡ kept_after arrival.now.of arrival.now.place octets.now self.old.pieces of) }
        ensures element { self.new.element ≡ self.old.element }
        ensures err { OnErr result (self.new.pieces ≡ self.old.pieces) }
        ensures room { 1 ≤ self.old.room → IsOk result }
    {
        if !self.pieces.is_whole(arrival, octets) {
            self.pieces.keep(*arrival, octets)?;
            return Ok(Push::More);
        }
        let mut packet = self.take_room();
        self.pieces.join(arrival, octets, &mut packet)?;
        self.pieces.forget(&arrival.of);
        Ok(Push::Whole(Octets::from(packet)))
    }

    /// The packet that stands in its only message.
    fn copied(&mut self, octets: &[u8]) -> Result<Octets, Memory>
        requires { length octets.now ≤ 137 }
        ensures octets { IfOk result (λ packet. packet ≡ octets.now) }
        ensures element { self.new.element ≡ self.old.element }
        ensures pieces { self.new.pieces ≡ self.old.pieces }
        ensures room { 1 ≤ self.old.room → IsOk result }
    {
        let mut packet = self.take_room();
        packet.extend_from_slice(octets)?;
        Ok(Octets::from(packet))
    }

    /// The room for the next packet.
    fn take_room(&mut self) -> Vec<u8>
        ensures empty { result.items ≡ [] }
        ensures room { 1 ≤ self.old.room → 34168 ≤ vec_capacity result }
        ensures element { self.new.element ≡ self.old.element }
        ensures pieces { self.new.pieces ≡ self.old.pieces }
    {
        let mut room = replace(&mut self.packet, Vec::new(self.alloc));
        room.clear();
        room
    }
}
