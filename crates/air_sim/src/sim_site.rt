//! A site whose cards are simulated.

ghost use Rattle.std.specs.Prelude.{◌≡◌, true, map};
ghost use Rattle.air_sim.specs.CardRuns.{is_answered};
ghost use Rattle.air_sim.specs.Wants.{unless_want};
ghost use Rattle.air_sim.specs.Cards.{are_distinct, facts_of};

use crate::deliveries::{Message, message_of};
use crate::lines::Lines;
use crate::made_messages::MadeMessages;
use crate::notes::{Delivery, Note};
use crate::parts::Parts;
use crate::schedules::{Act, Cut, Schedule};
use crate::site_cards::SiteCards;
use crate::traces::Trace;
use arrayvec::ArrayVec;
use disk_model::{DiskCalls, DiskFault, Image, MemDisk, SimCalls};
use ota_core::{CardId, Memory, Octets, Reference};
use receiving_entity::Card;
use site_model::{Departure, Port, SiteCalls, SiteFault};
use std::alloc::Global;

/// A site over the disk of a lane's journal, with simulated cards and a schedule.
///
/// It keeps what was sent, the messages of the answers that its cards made, and in proofs alone what it was at each moment.
#[derive(Drop)]
pub struct SimSite<D: DiskCalls> {
    alloc: Global,
    parts: Parts<D>,
    past: Trace<Parts<D>, Note>,
    schedule: Schedule,
    // how far the schedule has come: the next act, and in order the next piece
    next_act: usize,
    next_piece: usize,
    failing: Vec<u64>,
    calls: u64,
    polls: u64,
    empty_polls: u64,
    faults: u64,
    wants: u64,
}

impl<D: DiskCalls> SimSite<D> {
    ghost use Rattle.std.specs.Prelude.{length, slice_get, MatchOption, None};
    ghost use Rattle.air_sim.specs.Told.{port_of};
    ghost use Rattle.air_sim.specs.Views.{IsFresh, IsPieceAt};

    /// A site of which nothing was asked yet. The numbers of its cards differ.
    pub fn new(alloc: Global, journal: D, cards: Vec<Card<D>>, schedule: Schedule) -> SimSite<D>
        requires distinct { are_distinct (map facts_of cards.items) ≡ true }
        ensures parts { (result.parts.journal ≡ journal) × (result.parts.cards.items ≡ cards.items) }
        ensures schedule { result.schedule ≡ schedule }
        ensures fresh { IsFresh result }
        ensures facts { (port_of D.told result).facts ≡ map facts_of cards.items }
    {
        let parts = Parts {
            journal,
            cards: SiteCards::new(cards),
            sent: Vec::new(alloc),
            messages: MadeMessages::new(alloc),
        };
        SimSite {
            alloc,
            parts,
            past: Trace::new(),
            schedule,
            next_act: 0,
            next_piece: 0,
            failing: Vec::new(alloc),
            calls: 0,
            polls: 0,
            empty_polls: 0,
            faults: 0,
            wants: 0,
        }
    }

    /// The same site, whose calls of the port with these numbers, from 1, fail without effect, in place of those listed before.
    pub fn failing(self, calls: Vec<u64>) -> SimSite<D>
        ensures { result ≡ record self { failing = calls } }
    {
        let mut site = self;
        site.failing = calls;
        site
    }

    /// The disk of the journal.
    pub fn journal(&self) -> &D
        ensures { result.now ≡ self.now.parts.journal }
    {
        &self.parts.journal
    }

    /// The cards.
    pub fn cards(&self) -> &[Card<D>]
        ensures { result.now ≡ self.now.parts.cards.items }
    {
        self.parts.cards.as_slice()
    }

    /// How many pieces were sent.
    pub fn sent_count(&self) -> u64
        ensures { result ≡ length self.now.parts.sent.items }
    {
        self.parts.sent.len() as u64
    }

    /// The piece at this position, from 0, of those that were sent: its card, its packet, the reference and its place. None
    /// exactly past their end.
    pub fn sent_at(&self, at: u64) -> Option<(CardId, &[u8], Reference, u8)>
        ensures { MatchOption result (slice_get self.now.parts.sent.items at ≡ None) (λ piece. IsPieceAt self.now.parts.sent.items at piece.0 piece.1.now piece.2 piece.3) }
    {
        match self.parts.sent.get(at as usize) {
            Some(piece) => Some((
                piece.card,
                piece.packet.as_slice(),
                piece.reference,
                piece.place,
            )),
            None => None,
        }
    }

    /// How often the port was asked for a message.
    pub fn polls(&self) -> u64
        ensures { result ≡ self.now.polls }
    {
        self.polls
    }
}

impl SimSite<MemDisk> {
    ghost use Rattle.std.specs.Prelude.{◌≡◌, IfErr, IfOk};
    ghost use Rattle.disk_model.specs.MemDisk.{mem_told};
    ghost use Rattle.air_sim.specs.Stops.{IsStopped};
    ghost use Rattle.air_sim.specs.Told.{port_of};

    /// The site after a stop of the gateway that leaves this image of its journal. Its cards and its lists stay.
    pub fn stop(self, image: Image) -> Result<SimSite<MemDisk>, (SimSite<MemDisk>, Memory)>
        ensures stopped { IfOk result (λ site. IsStopped self site image) }
        ensures lists { IfOk result (λ site. port_of mem_told site ≡ port_of mem_told self) }
        ensures back { IfErr result (λ refusal. refusal.0 ≡ self) }
    {
        match self.parts.journal.stopped(image) {
            Ok(journal) => {
                let mut site = self;
                site.past = site.past.and(&site.parts, &Note::Quiet);
                site.parts.journal = journal;
                Ok(site)
            }
            Err(_) => Err((self, Memory)),
        }
    }
}

impl<D: DiskCalls> DiskCalls for SimSite<D> {
    ghost use Rattle.air_sim.specs.Told.{sim_told, sim_counts};
    ghost use Rattle.air_sim.specs.ToldLaws.{site_seen_is_image};

    type Beside = Port;

    type Choice = Lines;

    ghost told = { sim_told D.told };

    ghost counts = { sim_counts D.counts };

    ghost seen_is_image = { site_seen_is_image D.told D.seen_is_image };

    fn len(&mut self) -> Result<u64, DiskFault> {
        let past = self.past.and(&self.parts, &Note::Quiet);
        let outcome = self.parts.journal.len();
        pass(&mut self.past, past, &outcome);
        outcome
    }

    fn read_at(&mut self, at: u64, into: &mut [u8]) -> Result<usize, DiskFault> {
        let past = self.past.and(&self.parts, &Note::Quiet);
        let outcome = self.parts.journal.read_at(at, into);
        pass(&mut self.past, past, &outcome);
        outcome
    }

    fn write_at(&mut self, at: u64, from: &[u8]) -> Result<(), DiskFault> {
        let past = self.past.and(&self.parts, &Note::Quiet);
        let outcome = self.parts.journal.write_at(at, from);
        pass(&mut self.past, past, &outcome);
        outcome
    }

    fn cut(&mut self, len: u64) -> Result<(), DiskFault> {
        let past = self.past.and(&self.parts, &Note::Quiet);
        let outcome = self.parts.journal.cut(len);
        pass(&mut self.past, past, &outcome);
        outcome
    }

    fn sync(&mut self) -> Result<(), DiskFault> {
        let past = self.past.and(&self.parts, &Note::Quiet);
        let outcome = self.parts.journal.sync();
        pass(&mut self.past, past, &outcome);
        outcome
    }
}

/// A moment passes with a call of the disk. A call that found no memory is none.
fn pass<A, B, T>(past: &mut Trace<A, B>, then: Trace<A, B>, outcome: &Result<T, DiskFault>)
    ensures { past.new.items ≡ unless_want outcome.now past.old.items then.items }
{
    match outcome {
        Err(DiskFault::Memory) => {}
        _ => *past = then,
    }
}

impl<D: SimCalls> SiteCalls for SimSite<D> {
    ghost use Rattle.std.specs.Prelude.{◌≡◌, ◌+◌, [], ◌∷◌, ◌++◌, IfNone, IfOk, IfSome, OnOk};
    ghost use Rattle.disk_model.specs.Disk.{Tells};
    ghost use Rattle.site_model.specs.Cards.{Keeps};
    ghost use Rattle.site_model.specs.Causes.{CountsEmpty, HasSiteCause, empty_polls};
    ghost use Rattle.site_model.specs.Port.{IsPolling, IsSending};
    ghost use Rattle.site_model.specs.Runs.{PortRun};
    ghost use Rattle.air_sim.specs.Lines.{lines_for};
    ghost use Rattle.air_sim.specs.Polls.{PollsAsScheduled};
    ghost use Rattle.air_sim.specs.PortCalls.{SendsPiece};
    ghost use Rattle.air_sim.specs.Told.{port_of, sim_counts, sim_told};
    ghost use Rattle.air_sim.specs.ToldLaws.{has_choice};

    ghost port = { λ port. port };

    ghost lines = { lines_for };

    ghost has_choice = { has_choice D.DiskCalls.told D.DiskCalls.seen_is_image };

    fn send(
        &mut self,
        card: CardId,
        packet: &[u8],
        reference: Reference,
        place: u8,
    ) -> Result<(), SiteFault>
        ensures sent { Tells (sim_told D.told) self.old → OnOk result ((port_of D.told self.new).sent ≡ (port_of D.told self.old).sent ++ record { card = card; packet = packet.now; reference = reference; place = place } ∷ []) }
        ensures moments { Tells (sim_told D.told) self.old → PortRun (sim_told D.told) self.old self.new (λ beside. IsSending (port_of D.told self.old) beside (record { card = card; packet = packet.now; reference = reference; place = place })) }
        ensures keeps { Tells (sim_told D.told) self.old → Keeps (sim_told D.told) (λ port. port) lines_for self.old self.new }
        ensures content { Tells (sim_told D.told) self.old → (sim_told D.told).seen self.new ≡ (sim_told D.told).seen self.old }
        ensures tells { (sim_told D.told).tells self.new ≡ (sim_told D.told).tells self.old }
        ensures empty_polls { empty_polls (sim_counts D.counts self.new) ≡ empty_polls (sim_counts D.counts self.old) }
        ensures cause { HasSiteCause (sim_counts D.counts self.old) (sim_counts D.counts self.new) result }
        ensures sends { SendsPiece self.old self.new (record { card = card; packet = packet.now; reference = reference; place = place }) result }
    {
        self.begin_call()?;
        let past = self.past.and(&self.parts, &Note::Quiet);
        match self.keep_piece(card, packet, reference, place) {
            Ok(()) => {
                self.past = past;
                Ok(())
            }
            Err(_) => Err(self.want()),
        }
    }

    fn poll(&mut self) -> Result<Option<(CardId, ArrayVec<u8, 140>)>, SiteFault>
        ensures given { Tells (sim_told D.told) self.old → IfOk result (λ message. IfSome message (λ m. (port_of D.told self.new).given ≡ (port_of D.told self.old).given ++ (m.0, m.1.items) ∷ [])) }
        ensures nothing { Tells (sim_told D.told) self.old → IfOk result (λ message. IfNone message ((port_of D.told self.new).given ≡ (port_of D.told self.old).given)) }
        ensures polled { Tells (sim_told D.told) self.old → OnOk result ((port_of D.told self.new).polls ≡ (port_of D.told self.old).polls + 1) }
        ensures moments { Tells (sim_told D.told) self.old → PortRun (sim_told D.told) self.old self.new (λ beside. IsPolling (port_of D.told self.old) beside) }
        ensures keeps { Tells (sim_told D.told) self.old → Keeps (sim_told D.told) (λ port. port) lines_for self.old self.new }
        ensures content { Tells (sim_told D.told) self.old → (sim_told D.told).seen self.new ≡ (sim_told D.told).seen self.old }
        ensures tells { (sim_told D.told).tells self.new ≡ (sim_told D.told).tells self.old }
        ensures empty { CountsEmpty (sim_counts D.counts self.old) (sim_counts D.counts self.new) result }
        ensures cause { HasSiteCause (sim_counts D.counts self.old) (sim_counts D.counts self.new) result }
        ensures schedule { PollsAsScheduled D.told D.counts self.old self.new result }
    {
        self.begin_call()?;
        self.answer_poll()
    }
}

impl<D: SimCalls> SimSite<D> {
    ghost use Rattle.std.specs.Prelude.{◌≡◌, ◌<◌, [], ◌∷◌, ◌++◌, IfOk, IfSome, Some, length, slice_get};
    ghost use Rattle.std.specs.Option.{option_map};
    ghost use Rattle.disk_model.specs.Counts.{HasRisen};
    ghost use Rattle.site_model.specs.Causes.{CountsEmpty, HasSiteCause};
    ghost use Rattle.air_sim.specs.Acts.{acts_of};
    ghost use Rattle.air_sim.specs.CardRuns.{reply_in};
    ghost use Rattle.air_sim.specs.Cards.{place_in};
    ghost use Rattle.air_sim.specs.Handing.{HandsMessage, HandsPiece, MeetsIn, addressed_by};
    ghost use Rattle.air_sim.specs.Messages.{IsNextOf, KeepsAnswer};
    ghost use Rattle.air_sim.specs.Polls.{AnswersPoll, HandsInOrder, IsListed, IsMadeAt, IsOrderly, PollsBy, progress_of};
    ghost use Rattle.air_sim.specs.PortCalls.{BeginsCall, KeepsPiece, counted};
    ghost use Rattle.air_sim.specs.Told.{sim_counts};
    ghost use Rattle.air_sim.specs.Working.{PollRuns, Works, handed, progressed};

    /// Counts a call of the port, and answers the fault of one that is listed to fail.
    fn begin_call(&mut self) -> Result<(), SiteFault>
        ensures { BeginsCall self.old self.new result }
    {
        self.calls = self.calls.saturating_add(1);
        if self.failing.contains(&self.calls) {
            self.faults = self.faults.saturating_add(1);
            return Err(SiteFault::Failed);
        }
        Ok(())
    }

    /// Counts a want of memory.
    fn want(&mut self) -> SiteFault
        ensures fault { result ≡ SiteFault.Memory }
        ensures counted { self.new ≡ record self.old { wants = counted self.old.wants } }
        ensures rises { HasRisen self.old.wants self.new.wants }
    {
        self.wants = self.wants.saturating_add(1);
        SiteFault::Memory
    }

    /// Keeps a piece that is handed to the port.
    fn keep_piece(
        &mut self,
        card: CardId,
        packet: &[u8],
        reference: Reference,
        place: u8,
    ) -> Result<(), Memory>
        ensures { KeepsPiece self.old self.new (record { card = card; packet = packet.now; reference = reference; place = place }) result }
    {
        let packet = Octets::from_slice(self.alloc, packet)?;
        self.parts.sent.push(Departure {
            card,
            packet,
            reference,
            place,
        })?;
        Ok(())
    }

    /// What a poll answers that isn't listed to fail.
    fn answer_poll(&mut self) -> Result<Option<(CardId, Message)>, SiteFault>
        ensures runs { PollRuns D.DiskCalls.told self.old self.new result }
        ensures answers { AnswersPoll D.DiskCalls.told D.DiskCalls.counts self.old self.new result }
        ensures cause { HasSiteCause (sim_counts D.DiskCalls.counts self.old) (sim_counts D.DiskCalls.counts self.new) result }
        ensures empty { CountsEmpty (sim_counts D.DiskCalls.counts self.old) (sim_counts D.DiskCalls.counts self.new) result }
        ensures calls { self.new.calls ≡ self.old.calls }
        ensures faults { self.new.faults ≡ self.old.faults }
    {
        match self.next() {
            Ok(Some(position)) => Ok(Some(self.give(position))),
            Ok(None) => {
                self.give_none();
                Ok(None)
            }
            Err(_) => Err(self.want()),
        }
    }

    /// What a poll does by its schedule, up to the message that it gives: that message's position; None where it gives none.
    fn next(&mut self) -> Result<Option<u64>, Memory>
        ensures works { Works D.DiskCalls.told self.old self.new }
        ensures goes { PollsBy D.DiskCalls.told D.DiskCalls.counts (progress_of self.old) (progress_of self.new) self.old.schedule result }
        ensures there { IfOk result (λ next. IfSome next (λ position. position < length self.new.parts.messages.items)) }
        ensures same { self.new ≡ progressed self.old self.new }
    {
        match self.schedule {
            Schedule::Orderly => self.next_in_order(),
            Schedule::Listed(_) => self.next_listed(),
        }
    }

    /// In order: the next message, once pieces were handed over until a card answered.
    fn next_in_order(&mut self) -> Result<Option<u64>, Memory>
        ensures works { Works D.DiskCalls.told self.old self.new }
        ensures goes { IsOrderly D.DiskCalls.told D.DiskCalls.counts (progress_of self.old) (progress_of self.new) result }
        ensures there { IfOk result (λ next. IfSome next (λ position. position < length self.new.parts.messages.items)) }
        ensures same { self.new ≡ progressed self.old self.new }
    {
        if self.parts.messages.has_next() {
            return Ok(self.next_message());
        }
        match self.hand_over_in_order() {
            Ok(()) => Ok(self.next_message()),
            Err(want) => Err(want),
        }
    }

    /// The next message that wasn't given.
    fn next_message(&mut self) -> Option<u64>
        ensures next { IsNextOf self.old.parts.messages self.new.parts.messages result }
        ensures works { Works D.DiskCalls.told self.old self.new }
        ensures same { self.new ≡ record self.old { parts = record self.old.parts { messages = self.new.parts.messages } } }
    {
        self.parts.messages.take_next()
    }

    /// Hands over the pieces that are left until a card answers.
    fn hand_over_in_order(&mut self) -> Result<(), Memory>
        ensures works { Works D.DiskCalls.told self.old self.new }
        ensures hands { HandsInOrder D.DiskCalls.told D.DiskCalls.counts (progress_of self.old) (progress_of self.new) result }
        ensures same { self.new ≡ progressed self.old self.new }
        ensures next { self.new.parts.messages.next ≡ self.old.parts.messages.next }
    {
        let made = self.parts.messages.count();
        for position in self.next_piece..self.parts.sent.len() {
            self.next_piece = position + 1;
            self.hand_over(position as u64, None)?;
            if self.parts.messages.count() > made {
                return Ok(());
            }
        }
        Ok(())
    }

    /// By the list: the position of the message that the next act gives, once the pieces ahead of it were handed over.
    fn next_listed(&mut self) -> Result<Option<u64>, Memory>
        ensures works { Works D.DiskCalls.told self.old self.new }
        ensures goes { IsListed D.DiskCalls.told D.DiskCalls.counts (progress_of self.old) (progress_of self.new) (acts_of self.old.schedule) result }
        ensures there { IfOk result (λ next. IfSome next (λ position. position < length self.new.parts.messages.items)) }
        ensures same { self.new ≡ progressed self.old self.new }
    {
        for index in self.next_act..self.schedule.len() {
            self.next_act = index + 1;
            match self.schedule.act(index) {
                Act::Deliver { sent, cut } => self.hand_over(sent, cut)?,
                Act::Give { made } => return Ok(self.made_position(made)),
                Act::Pass => return Ok(None),
            }
        }
        Ok(None)
    }

    /// The position, where it is one of a message that a card made.
    fn made_position(&self, made: u64) -> Option<u64>
        ensures { IsMadeAt (length self.now.parts.messages.items) made result }
    {
        if made < self.parts.messages.count() as u64 {
            Some(made)
        } else {
            None
        }
    }

    /// Hands the piece at this position of those that were sent to its card, if they are there, and keeps the messages of the
    /// answer.
    fn hand_over(&mut self, position: u64, cut: Option<Cut>) -> Result<(), Memory>
        ensures works { Works D.DiskCalls.told self.old self.new }
        ensures hands { HandsPiece D.DiskCalls.told D.DiskCalls.counts self.old.parts self.new.parts position cut result }
        ensures same { self.new ≡ handed self.old self.new }
        ensures next { self.new.parts.messages.next ≡ self.old.parts.messages.next }
    {
        match self.addressed(position) {
            Some((card, message)) => self.hand_to(card, message, cut),
            None => Ok(()),
        }
    }

    /// The card and the message of the piece at this position, where a message carries it.
    fn addressed(&self, position: u64) -> Option<(CardId, Message)>
        ensures { option_map (λ it. (it.0, it.1.items)) result ≡ addressed_by (slice_get self.now.parts.sent.items position) }
    {
        let piece = self.parts.sent.get(position as usize)?;
        let message = message_of(piece)?;
        Some((piece.card, message))
    }

    /// Hands a message to the card with this number, if it is there, and keeps the messages of the answer.
    fn hand_to(&mut self, card: CardId, message: Message, cut: Option<Cut>) -> Result<(), Memory>
        ensures works { Works D.DiskCalls.told self.old self.new }
        ensures hands { HandsMessage D.DiskCalls.told D.DiskCalls.counts self.old.parts self.new.parts card message.items cut result }
        ensures same { self.new ≡ handed self.old self.new }
        ensures next { self.new.parts.messages.next ≡ self.old.parts.messages.next }
    {
        match self.place_of(card) {
            Some(place) => self.hand_at(card, place, message, cut),
            None => Ok(()),
        }
    }

    /// The place of the card with this number.
    fn place_of(&mut self, card: CardId) -> Option<usize>
        ensures place { result ≡ place_in card.0 self.old.parts.cards.items }
        ensures same { self.new ≡ self.old }
    {
        self.parts.cards.place_of(self.alloc, card)
    }

    /// Hands a message to the card at this place, and keeps the messages of the answer.
    fn hand_at(
        &mut self,
        card: CardId,
        place: usize,
        message: Message,
        cut: Option<Cut>,
    ) -> Result<(), Memory>
        requires there { place_in card.0 self.old.parts.cards.items ≡ Some place }
        ensures works { Works D.DiskCalls.told self.old self.new }
        ensures hands { HandsMessage D.DiskCalls.told D.DiskCalls.counts self.old.parts self.new.parts card message.items cut result }
        ensures same { self.new ≡ handed self.old self.new }
        ensures next { self.new.parts.messages.next ≡ self.old.parts.messages.next }
    {
        match self.meet(card, place, message, cut) {
            Ok(answer) => self.keep_answer(card, answer),
            Err(want) => Err(want),
        }
    }

    /// A message comes to the card at this place, in a moment of its own.
    fn meet(
        &mut self,
        card: CardId,
        place: usize,
        message: Message,
        cut: Option<Cut>,
    ) -> Result<Vec<Message>, Memory>
        requires there { place_in card.0 self.old.parts.cards.items ≡ Some place }
        ensures works { Works D.DiskCalls.told self.old self.new }
        ensures meets { MeetsIn D.DiskCalls.told D.DiskCalls.counts self.old.parts.cards.items self.new.parts.cards.items card.0 message.items cut (reply_in result) }
        ensures same { self.new ≡ record self.old { parts = record self.old.parts { cards = self.new.parts.cards }; past = self.new.past } }
    {
        self.past = self.past.and(&self.parts, &Note::Quiet);
        let answer = self
            .parts
            .cards
            .meet(self.alloc, place, message.as_slice(), cut);
        let delivery = Delivery {
            card,
            message,
            answered: has_messages(&answer),
        };
        self.past = self.past.and(&self.parts, &Note::AtWork(delivery));
        answer
    }

    /// Keeps the messages of an answer.
    fn keep_answer(&mut self, card: CardId, answer: Vec<Message>) -> Result<(), Memory>
        ensures keeps { KeepsAnswer self.old.parts.messages self.new.parts.messages card answer.items result }
        ensures works { Works D.DiskCalls.told self.old self.new }
        ensures same { self.new ≡ record self.old { parts = record self.old.parts { messages = self.new.parts.messages } } }
    {
        self.parts.messages.add(self.alloc, card, answer)
    }

    /// Gives the message at this position of those that the cards made.
    fn give(&mut self, position: u64) -> (CardId, Message)
        requires there { position < length self.old.parts.messages.items }
        ensures message { slice_get self.old.parts.messages.items position ≡ Some result }
        ensures past { self.new.past.items ≡ self.old.past.items ++ (self.old.parts, Note.Gave position) ∷ [] }
        ensures same { self.new ≡ record self.old { past = self.new.past; polls = counted self.old.polls } }
    {
        let given = self.parts.messages.message(position);
        self.past = self.past.and(&self.parts, &Note::Gave(position));
        self.polls = self.polls.saturating_add(1);
        given
    }

    /// Gives none.
    fn give_none(&mut self)
        ensures past { self.new.past.items ≡ self.old.past.items ++ (self.old.parts, Note.Polled) ∷ [] }
        ensures same { self.new ≡ record self.old { past = self.new.past; polls = counted self.old.polls; empty_polls = counted self.old.empty_polls } }
        ensures rises { HasRisen self.old.empty_polls self.new.empty_polls }
    {
        self.past = self.past.and(&self.parts, &Note::Polled);
        self.polls = self.polls.saturating_add(1);
        self.empty_polls = self.empty_polls.saturating_add(1);
    }
}

/// Whether a card answered.
fn has_messages(answer: &Result<Vec<Message>, Memory>) -> bool
    ensures { result ≡ is_answered answer.now }
{
    match answer {
        Ok(messages) => !messages.is_empty(),
        Err(_) => false,
    }
}
