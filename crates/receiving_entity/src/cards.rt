//! A card.

ghost use Rattle.std.specs.Prelude.{◌≡◌, ◌≤◌, ◌↔◌, length, true, false, List, [], map, is_err, IsOk, Err, None, IfOk, IfErr, OnOk, OnErr};
ghost use Rattle.card_store.specs.Content.{Content};
ghost use Rattle.card_store.specs.Parts.{store_head};
ghost use Rattle.card_store.specs.Replay.{Holds};
ghost use Rattle.card_store.specs.Store.{card_line, IsBeforeOrOpened, IsLeftByRefusal, IsNotFull, StandsFor, StoreCause, StoreRefuses, UnlessFault};
ghost use Rattle.disk_model.specs.Disk.{DiskRun, Tells, image_now};
ghost use Rattle.gate_log.specs.Reading.{parts_of};
ghost use Rattle.sms_segments.specs.Assembled.{OfCard};
ghost use Rattle.receiving_entity.specs.Card.{IsCard, is_passed_over, packet_by};
ghost use Rattle.receiving_entity.specs.Opening.{disk_in, error_in, IsIssued};
ghost use Rattle.receiving_entity.specs.Receiving.{CardCause, HasCalled, IsNotOff, IsOnTheWay, KeepsAfter, Reacts, octets_in, reaction, reaction_to};
ghost use Rattle.receiving_entity.specs.Verdict.{verdict};
ghost use Rattle.receiving_entity.specs.declared.card_errors.CardErr.TheVariants.{Off};

use crate::answers::Message;
use crate::card_errors::CardErr;
use crate::stops::Stop;
use crate::taking::react;
use arrayvec::ArrayVec;
use card_store::{CardLine, CardStore, StoreErr};
use disk_model::{DiskCalls, Image, SimCalls};
use ota_core::CardFacts;
use sms_segments::{Assembler, Push, is_wide};
use std::alloc::Global;
use std::marker::Model;

/// The information element of a command packet (3GPP TS 31.115, 4.2).
const COMMAND_PACKET: u8 = 0x70;

/// A simulated UICC at the far end of the messages: it puts packets together, answers each, and keeps its counters, its
/// files and its registry on a disk.
///
/// Contracts see its store, what it keeps of packets that aren't whole yet, and whether it is off. It is off once the power
/// was cut, or memory was wanting once a device call was made, or a restart was refused, until a restart answers Ok.
#[derive(Drop)]
pub struct Card<D: DiskCalls> {
    alloc: Global,
    facts: CardFacts,
    store: CardStore<D>,
    assembler: Assembler,
    off: bool,
}

impl<D: DiskCalls> Model for Card<D> {
    ghost use Rattle.std.specs.Prelude.{◌≡◌, true, false, List};
    ghost use Rattle.card_store.specs.Store.{store_code};
    ghost use Rattle.card_store.specs.contracts.issued_facts.IssuedFacts as the_facts;
    ghost use Rattle.card_store.specs.contracts.kept.Kept as the_kept;
    ghost use Rattle.sms_segments.specs.Assembled.{OfCard};
    ghost use Rattle.sms_segments.specs.Kept.{Keeps};
    ghost use Rattle.sms_segments.specs.contracts.assembling.Assembler as the_assembler;
    ghost use Rattle.receiving_entity.specs.Card.{CardValue, card_code};

    ghost Value = { CardValue D };

    ghost coded = { card_code (store_code D.code the_facts.the_row.coded the_kept.the_row.coded) the_assembler.the_row.coded };

    ghost view = { λ c. record { store = c.store; kept = c.assembler; off = c.off } };

    ghost invariant = { λ c. (c.store.facts ≡ c.facts) × (c.assembler.element ≡ 0x70) × (c.off ≡ false → c.store.ready ≡ true) × (past : List OfCard) × Keeps 0x70 past c.assembler.pieces };
}

impl<D: DiskCalls> Card<D> {
    /// Issues a card with these facts on a disk. A disk on which there is no store yet gets an empty one; else the card is
    /// the one that its store stands for. A refusal hands the disk back; it is never `Full`.
    pub fn issue(alloc: Global, disk: D, facts: CardFacts) -> Result<Card<D>, (D, StoreErr)>
        ensures opened { Tells D.told disk → IfOk result (IsIssued D.told (D.told.seen disk)) }
        ensures begins { IfOk result (λ card. (content : Content) × IsCard D.told card content []) }
        ensures facts { IfOk result (λ card. (card.store.facts ≡ facts) × (card.off ≡ false)) }
        ensures refused { Tells D.told disk → IfErr result (λ refusal. StoreRefuses facts (parts_of store_head (D.told.seen disk)) refusal.1) }
        ensures left { Tells D.told disk → IfErr result (λ refusal. UnlessFault (error_in result) (IsLeftByRefusal (D.told.seen disk) (D.told.seen refusal.0))) }
        ensures moments { Tells D.told disk → DiskRun D.told disk (disk_in result) (IsBeforeOrOpened D.told disk) }
        ensures tells { D.told.tells (disk_in result) ≡ D.told.tells disk }
        ensures cause { StoreCause (D.counts disk) (D.counts (disk_in result)) (error_in result) }
        ensures not_full { IfErr result (λ refusal. IsNotFull refusal.1) }
    {
        let store = CardStore::open(alloc, disk, &facts)?;
        Ok(Card {
            alloc,
            facts,
            store,
            assembler: Assembler::new(alloc, COMMAND_PACKET),
            off: false,
        })
    }

    /// Takes one message, of at most 140 octets with its user data header, and gives the messages of the answer: none where
    /// no packet became whole. A card that isn't wide passes over a message with a reference of two octets.
    ///
    /// A packet is answered by the first rule that applies:
    ///
    /// | Condition | Answer |
    /// |---|---|
    /// | it names no keyset, or none of the card's; or it is authentic and has more padding than octets | 06, unsecured |
    /// | its cryptographic checksum is wrong | 01, unsecured |
    /// | its SPI is below the keyset's level | 0A |
    /// | the stored counter is the greatest | 04 |
    /// | its counter isn't above the stored one | 02 |
    /// | it is to be one higher, and is more than one higher | 03 |
    /// | the store has no room for the counter and all commands | none: `Full`, and the packet is dropped |
    /// | its TAR is neither of the card's | 09 |
    /// | its body is longer than the card's buffer | 07 |
    /// | else | 00 with the compact response |
    ///
    /// With the last three the counter is stored first, and each command is durable before the next: four device calls for
    /// the counter, four for each command, and no other. `PowerCut`, and `Memory` once a device call was made, leave the
    /// card off; its disk holds the card as it was, or with the counter and the first commands of the script. `Memory` before
    /// the first device call leaves the store as it was: a packet that had become whole is dropped, else the kept pieces
    /// stay. `Off` is answered exactly where the card is off.
    ///
    /// ETSI TS 102 225, 5.1 and 5.2; 3GPP TS 31.115, 4; ETSI TS 102 226, 5.2.1.2.
    pub fn receive(&mut self, message: &[u8]) -> Result<Vec<ArrayVec<u8, 140>>, CardErr>
        ensures off { self.old.off ≡ true → (result ≡ Err Off) × (self.new ≡ self.old) }
        ensures on { self.old.off ≡ false → IfErr result IsNotOff }
        ensures passed_over { self.old.off ≡ false → is_passed_over self.old.store.facts message.now ≡ true → (self.new ≡ self.old) × IfOk result (λ messages. messages.items ≡ []) × IsOk result }
        ensures reacts { (content : Content) (past : List OfCard) → IsCard D.told self.old content past → Reacts D.told self.old.store self.new.store content (reaction self.old.store.facts content past message.now) self.new.off (octets_in result) }
        ensures keeps { (content : Content) (past : List OfCard) → IsCard D.told self.old content past → KeepsAfter self.old.store.facts past message.now self.new self.new.off result }
        ensures empty { (content : Content) (past : List OfCard) → IsCard D.told self.old content past → IfOk result (λ messages. messages.items ≡ [] ↔ packet_by self.old.store.facts past message.now ≡ None) }
        ensures moments { Tells D.told self.old.store.disk → (content : Content) (past : List OfCard) → IsCard D.told self.old content past → DiskRun D.told self.old.store.disk self.new.store.disk (IsOnTheWay self.old.store.facts content (reaction self.old.store.facts content past message.now)) }
        ensures begun { Tells D.told self.old.store.disk → (content : Content) (past : List OfCard) → IsCard D.told self.old content past → self.new.off ≡ true → HasCalled (D.told.clock self.old.store.disk) (D.told.clock self.new.store.disk) (D.counts self.old.store.disk) (D.counts self.new.store.disk) }
        ensures ready { self.new.off ≡ false → self.new.store.ready ≡ true }
        ensures facts { self.new.store.facts ≡ self.old.store.facts }
        ensures tells { D.told.tells self.new.store.disk ≡ D.told.tells self.old.store.disk }
        ensures cause { CardCause (D.counts self.old.store.disk) (D.counts self.new.store.disk) result }
    {
        if self.off {
            return Err(CardErr::Off);
        }
        if is_passed_over(&self.facts, message) {
            return Ok(Vec::new(self.alloc));
        }
        self.take_message(message)
    }

    /// Takes a message that isn't passed over.
    fn take_message(&mut self, message: &[u8]) -> Result<Vec<Message>, CardErr>
        requires on { self.old.off ≡ false }
        requires taken { is_passed_over self.old.store.facts message.now ≡ false }
        ensures reacts { (content : Content) (past : List OfCard) → IsCard D.told self.old content past → Reacts D.told self.old.store self.new.store content (reaction self.old.store.facts content past message.now) self.new.off (octets_in result) }
        ensures keeps { (content : Content) (past : List OfCard) → IsCard D.told self.old content past → KeepsAfter self.old.store.facts past message.now self.new self.new.off result }
        ensures moments { Tells D.told self.old.store.disk → (content : Content) (past : List OfCard) → IsCard D.told self.old content past → DiskRun D.told self.old.store.disk self.new.store.disk (IsOnTheWay self.old.store.facts content (reaction self.old.store.facts content past message.now)) }
        ensures begun { Tells D.told self.old.store.disk → (content : Content) (past : List OfCard) → IsCard D.told self.old content past → self.new.off ≡ true → HasCalled (D.told.clock self.old.store.disk) (D.told.clock self.new.store.disk) (D.counts self.old.store.disk) (D.counts self.new.store.disk) }
        ensures ready { self.new.off ≡ false → self.new.store.ready ≡ true }
        ensures facts { self.new.store.facts ≡ self.old.store.facts }
        ensures tells { D.told.tells self.new.store.disk ≡ D.told.tells self.old.store.disk }
        ensures cause { CardCause (D.counts self.old.store.disk) (D.counts self.new.store.disk) result }
        ensures not_off { IfErr result IsNotOff }
    {
        match self.assembler.push(self.facts.card, message) {
            Ok(Push::Whole(packet)) => self.take_packet(packet.as_slice()),
            Ok(Push::More) => Ok(Vec::new(self.alloc)),
            Ok(Push::NotOurs) => Ok(Vec::new(self.alloc)),
            Err(_) => Err(CardErr::Memory),
        }
    }

    /// Answers a packet that became whole.
    fn take_packet(&mut self, packet: &[u8]) -> Result<Vec<Message>, CardErr>
        requires on { self.old.off ≡ false }
        requires short { length packet.now ≤ 34168 }
        ensures reacts { (content : Content) → StandsFor D.told self.old.store content → Reacts D.told self.old.store self.new.store content (reaction_to (verdict self.old.store.facts content packet.now)) self.new.off (octets_in result) }
        ensures moments { Tells D.told self.old.store.disk → (content : Content) → StandsFor D.told self.old.store content → DiskRun D.told self.old.store.disk self.new.store.disk (IsOnTheWay self.old.store.facts content (reaction_to (verdict self.old.store.facts content packet.now))) }
        ensures begun { Tells D.told self.old.store.disk → (content : Content) → StandsFor D.told self.old.store content → self.new.off ≡ true → HasCalled (D.told.clock self.old.store.disk) (D.told.clock self.new.store.disk) (D.counts self.old.store.disk) (D.counts self.new.store.disk) }
        ensures ready { self.new.off ≡ false → self.new.store.ready ≡ true }
        ensures kept { self.new.kept ≡ self.old.kept }
        ensures facts { self.new.store.facts ≡ self.old.store.facts }
        ensures tells { D.told.tells self.new.store.disk ≡ D.told.tells self.old.store.disk }
        ensures cause { CardCause (D.counts self.old.store.disk) (D.counts self.new.store.disk) result }
        ensures not_off { IfErr result IsNotOff }
    {
        match react(self.alloc, &mut self.store, packet) {
            Ok(messages) => Ok(messages),
            Err(Stop::Dropped(error)) => Err(error),
            Err(Stop::Cut(error)) => {
                self.off = true;
                Err(error)
            }
        }
    }

    /// Opens the store again on its disk, and forgets the packets that aren't whole yet and the answers that weren't sent. A
    /// card that was off isn't after Ok; after a refusal it is off, and what it lends stands. It is never `Full`.
    pub fn restart(&mut self) -> Result<(), StoreErr>
        ensures opened { Tells D.told self.old.store.disk → OnOk result (IsIssued D.told (D.told.seen self.old.store.disk) self.new) }
        ensures content { Tells D.told self.old.store.disk → (content : Content) → Holds self.old.store.facts content (D.told.seen self.old.store.disk) → OnOk result (IsCard D.told self.new content []) }
        ensures begins { OnOk result ((content : Content) × IsCard D.told self.new content []) }
        ensures off { self.new.off ≡ is_err result }
        ensures refused { Tells D.told self.old.store.disk → IfErr result (StoreRefuses self.old.store.facts (parts_of store_head (D.told.seen self.old.store.disk))) }
        ensures left { Tells D.told self.old.store.disk → OnErr result (UnlessFault result (IsLeftByRefusal (D.told.seen self.old.store.disk) (D.told.seen self.new.store.disk))) }
        ensures lent { OnErr result (self.new.store.shown ≡ self.old.store.shown) }
        ensures facts { self.new.store.facts ≡ self.old.store.facts }
        ensures moments { Tells D.told self.old.store.disk → DiskRun D.told self.old.store.disk self.new.store.disk (IsBeforeOrOpened D.told self.old.store.disk) }
        ensures tells { D.told.tells self.new.store.disk ≡ D.told.tells self.old.store.disk }
        ensures cause { StoreCause (D.counts self.old.store.disk) (D.counts self.new.store.disk) result }
        ensures not_full { IfErr result IsNotFull }
    {
        self.off = true;
        self.assembler = Assembler::new(self.alloc, COMMAND_PACKET);
        self.store.reopen()?;
        self.off = false;
        Ok(())
    }

    /// The facts with which the card was issued.
    pub fn facts(&self) -> &CardFacts
        ensures { result.now ≡ self.now.store.facts }
    {
        &self.facts
    }

    /// Whether the card is off. One that isn't stands for a content, and for messages that it took.
    pub fn is_off(&self) -> bool
        ensures off { result ≡ self.now.off }
        ensures known { result ≡ false → (content : Content) × (past : List OfCard) × IsCard D.told self.now content past }
    {
        // That its store stands for a content is what the store's lines say.
        let _lines = self.store.lines();
        self.off
    }

    /// The lines of the card's log, oldest first: those of its store. `finished` says that all commands ran, or one ended
    /// the script, or the status is 07 or 09. Of a card that is off it says nothing.
    pub fn log(&self) -> &[CardLine]
        ensures lines { result.now ≡ self.now.store.shown.lines }
        ensures log { (content : Content) (past : List OfCard) → IsCard D.told self.now content past → result.now ≡ map card_line content.log }
    {
        self.store.lines()
    }

    /// The store.
    pub fn store(&self) -> &CardStore<D>
        ensures { result.now ≡ self.now.store }
    {
        &self.store
    }

    /// Gives the disk.
    pub fn into_disk(self) -> D
        ensures { result ≡ self.store.disk }
    {
        self.store.into_disk()
    }
}

impl<D: SimCalls> Card<D> {
    /// Makes the `call`-th device call from now, counted from 1, fail, and this image of the disk stand afterwards. Nothing
    /// else changes.
    pub fn arm(&mut self, call: u32, image: Image)
        ensures same { self.new ≡ record self.old { store = record self.old.store { disk = self.new.store.disk } } }
        ensures content { Tells D.told self.old.store.disk → D.told.seen self.new.store.disk ≡ D.told.seen self.old.store.disk }
        ensures moments { Tells D.told self.old.store.disk → DiskRun D.told self.old.store.disk self.new.store.disk (image_now D.told self.old.store.disk) }
        ensures clock { Tells D.told self.old.store.disk → D.told.clock self.new.store.disk ≡ D.told.clock self.old.store.disk }
        ensures tells { D.told.tells self.new.store.disk ≡ D.told.tells self.old.store.disk }
        ensures counts { D.counts self.new.store.disk ≡ D.counts self.old.store.disk }
        ensures stands { (content : Content) (past : List OfCard) → IsCard D.told self.old content past → IsCard D.told self.new content past }
    {
        self.store.arm(call, image);
    }
}

/// Whether a card passes over a message.
fn is_passed_over(facts: &CardFacts, message: &[u8]) -> bool
    ensures { result ≡ is_passed_over facts.now message.now }
{
    !facts.wide && is_wide(message)
}
