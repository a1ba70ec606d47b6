//! How a card meets a message.

ghost use Rattle.std.specs.Prelude.{◌≡◌, ◌≢◌, true, false, List, [], Err, IfOk};
ghost use Rattle.card_store.specs.Content.{Content};
ghost use Rattle.disk_model.specs.Disk.{Tells};
ghost use Rattle.receiving_entity.specs.Card.{CardValue, IsCard};
ghost use Rattle.sms_segments.specs.Assembled.{OfCard};
ghost use Rattle.air_sim.specs.CardRuns.{AreLogged, IsStill, LogGrows, reply_in};
ghost use Rattle.air_sim.specs.Pieces.{is_carried, message_of};
ghost use Rattle.std.specs.Option.{option_map};
ghost use Rattle.sms_segments.specs.Cut.{longest};
ghost use Rattle.air_sim.specs.Meeting.{IsArmedBy, IsRefusedBy, Meets, MeetsOn, Restarts, reply_of};

use crate::schedules::Cut;
use arrayvec::ArrayVec;
use card_store::StoreErr;
use disk_model::{DiskFault, SimCalls};
use ota_core::Memory;
use receiving_entity::{Card, CardErr};
use site_model::Departure;
use sms_segments::{is_wide_reference, piece, pieces_of};
use std::alloc::Global;

/// The user data of a message: at most 140 octets (3GPP TS 23.040, 9.2.3.24).
pub type Message = ArrayVec<u8, 140>;

/// The information element of a command packet (3GPP TS 31.115, 4.2).
const COMMAND_PACKET: u8 = 0x70;

/// A message comes to a card. One that is off is restarted first, and a power cut is armed just before the message is handed
/// over. The messages of its answer; none after a power cut, where its store is full, or where the restart was refused.
pub(crate) fn meet<D: SimCalls>(
    alloc: Global,
    card: &mut Card<D>,
    message: &[u8],
    cut: Option<Cut>,
) -> Result<Vec<Message>, Memory>
    ensures meets { Meets D.DiskCalls.told D.DiskCalls.counts card.old card.new message.now cut (reply_in result) }
    ensures facts { card.new.store.facts ≡ card.old.store.facts }
    ensures tells { D.DiskCalls.told.tells card.new.store.disk ≡ D.DiskCalls.told.tells card.old.store.disk }
    ensures grows { Tells D.DiskCalls.told card.old.store.disk → LogGrows D.DiskCalls.told card.old card.new }
    ensures logged { Tells D.DiskCalls.told card.old.store.disk → IfOk result (λ messages. messages.items ≢ [] → AreLogged D.DiskCalls.told card.old card.new message.now) }
{
    if !card.is_off() {
        return take(alloc, card, message, cut);
    }
    match restart(card) {
        Ok(true) => take(alloc, card, message, cut),
        Ok(false) => Ok(Vec::new(alloc)),
        Err(want) => Err(want),
    }
}

/// A message comes to a card that isn't off.
fn take<D: SimCalls>(
    alloc: Global,
    card: &mut Card<D>,
    message: &[u8],
    cut: Option<Cut>,
) -> Result<Vec<Message>, Memory>
    requires known { (content : Content) × (past : List OfCard) × IsCard D.DiskCalls.told card.old content past }
    ensures meets { MeetsOn D.DiskCalls.told D.DiskCalls.counts card.old card.new message.now cut (reply_in result) }
    ensures facts { card.new.store.facts ≡ card.old.store.facts }
    ensures tells { D.DiskCalls.told.tells card.new.store.disk ≡ D.DiskCalls.told.tells card.old.store.disk }
    ensures grows { Tells D.DiskCalls.told card.old.store.disk → LogGrows D.DiskCalls.told card.old card.new }
    ensures logged { Tells D.DiskCalls.told card.old.store.disk → (content : Content) (past : List OfCard) (before : CardValue D) → IsCard D.DiskCalls.told card.old content past → IsStill D.DiskCalls.told before card.old content past → IfOk result (λ messages. messages.items ≢ [] → AreLogged D.DiskCalls.told before card.new message.now) }
{
    arm(card, cut);
    match card.receive(message) {
        Ok(messages) => Ok(messages),
        Err(error) => dropped(alloc, error),
    }
}

/// What the port has of a card that gave no messages: none, unless memory was wanting.
fn dropped(alloc: Global, error: CardErr) -> Result<Vec<Message>, Memory>
    ensures reply { reply_in result ≡ reply_of (Err error) }
    ensures none { IfOk result (λ messages. messages.items ≡ []) }
{
    match error {
        CardErr::Memory => Err(Memory),
        CardErr::PowerCut => Ok(Vec::new(alloc)),
        CardErr::Full { .. } => Ok(Vec::new(alloc)),
        CardErr::Off => Ok(Vec::new(alloc)),
    }
}

/// Arms the power cut, where there is one.
fn arm<D: SimCalls>(card: &mut Card<D>, cut: Option<Cut>)
    ensures arms { IsArmedBy D.DiskCalls.told D.DiskCalls.counts cut card.old card.new }
    ensures facts { card.new.store.facts ≡ card.old.store.facts }
    ensures tells { D.DiskCalls.told.tells card.new.store.disk ≡ D.DiskCalls.told.tells card.old.store.disk }
    ensures grows { Tells D.DiskCalls.told card.old.store.disk → LogGrows D.DiskCalls.told card.old card.new }
    ensures stands { (content : Content) (past : List OfCard) → IsCard D.DiskCalls.told card.old content past → IsCard D.DiskCalls.told card.new content past }
{
    if let Some(cut) = cut {
        card.arm(cut.call, cut.image);
    }
}

/// Restarts a card that is off. Whether it came back.
fn restart<D: SimCalls>(card: &mut Card<D>) -> Result<bool, Memory>
    ensures restarts { Restarts D.DiskCalls.told card.old card.new result }
    ensures facts { card.new.store.facts ≡ card.old.store.facts }
    ensures tells { D.DiskCalls.told.tells card.new.store.disk ≡ D.DiskCalls.told.tells card.old.store.disk }
    ensures grows { Tells D.DiskCalls.told card.old.store.disk → LogGrows D.DiskCalls.told card.old card.new }
{
    match card.restart() {
        Ok(()) => Ok(true),
        Err(error) => refused(error),
    }
}

/// What a refused restart is: want of memory, or the card is off still.
fn refused(error: StoreErr) -> Result<bool, Memory>
    ensures { IsRefusedBy error result }
{
    match error {
        StoreErr::Memory => Err(Memory),
        StoreErr::DiskFault(DiskFault::Memory) => Err(Memory),
        StoreErr::DiskFault(DiskFault::Failed) => Ok(false),
        StoreErr::NotALog => Ok(false),
        StoreErr::OtherHead(_) => Ok(false),
        StoreErr::Damaged(_) => Ok(false),
        StoreErr::Full { .. } => Ok(false),
    }
}

/// The message of a piece (3GPP TS 23.040, 9.2.3.24; 3GPP TS 31.115, 4.2). None where no message carries it: the packet has no
/// octets or more than those of 255 messages, or the place is none of theirs.
pub(crate) fn message_of(departure: &Departure) -> Option<Message>
    ensures { option_map (λ message. message.items) result ≡ message_of departure.now }
{
    if !is_carried(departure) {
        return None;
    }
    Some(piece(
        departure.packet.as_slice(),
        COMMAND_PACKET,
        departure.reference,
        departure.place,
    ))
}

/// How many octets a packet of 255 messages has at most, by the kind of its reference (3GPP TS 23.040, 9.2.3.24.1 and
/// 9.2.3.24.8).
fn longest(wide: bool) -> usize
    ensures { result ≡ longest wide }
{
    if wide { 33_913 } else { 34_168 }
}

/// Whether messages carry the packet, and the place is one of theirs.
fn is_carried(departure: &Departure) -> bool
    ensures { result ≡ is_carried departure.now }
{
    let wide = is_wide_reference(departure.reference);
    let octets = departure.packet.as_slice().len();
    octets >= 1
        && octets <= longest(wide)
        && departure.place >= 1
        && u32::from(departure.place) <= pieces_of(octets, wide)
}
