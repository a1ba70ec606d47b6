//! The parts of a world, and what each event answers and changes.

ghost use Rattle.std.specs.Prelude.{◌≡◌, ◌⊎◌, nat_lt, true, false, IfOk, IfErr, OnOk, OnErr, IsSome, length};
ghost use Rattle.std.specs.Option.{option_copied};
ghost use Rattle.world_core.specs.Card.{log_of, find_card};
ghost use Rattle.world_core.specs.WorldState.{issued};
ghost use Rattle.world_core.specs.Condition.{begin_refusal, seal_refusal, leave_refusal, deliver_refusal, give_refusal, stop_refusal, start_refusal, cut_refusal, step_wants_memory, may_want_memory, refusal_of, whole_packet};
ghost use Rattle.world_core.specs.Effect.{begun, sealed, left, stepped, delivered, gave, stopped, started, world_step};
ghost use Rattle.world_core.specs.Run.{Answers, IsOutcome};

use crate::answers::{Made, add_answer, are_answered};
use crate::card_steps::CardStep;
use crate::cards::{Card, add_line, find_card, issue, log_of};
use crate::events::Event;
use crate::journals::Journal;
use crate::lines::Line;
use crate::packets::ReservedPacket;
use crate::receiving::{answer_of, line_of, may_step};
use crate::refusals::NotAllowed;
use crate::segments::{Sent, piece_at, whole_packet};
use ota_core::{CardFacts, CardId, Entry, Memory};
use std::alloc::Global;
use std::marker::Model;

#[derive(Debug, Drop)]
pub(crate) struct Parts {
    journal: Journal,
    is_up: bool,
    sent: Vec<Sent>,
    cards: Vec<Card>,
    made: Vec<Made>,
    given: Vec<u64>,
}

impl Model for Parts {
    ghost use Rattle.world_core.specs.WorldState.{WorldState};

    ghost Value = { WorldState };

    ghost view = { λ p. record { history = p.journal.history; batch = p.journal.batch; up = p.is_up; sent = p.sent.items; cards = p.cards.items; made = p.made.items; given = p.given.items } };
}

impl Parts {
    /// A world whose cards are new.
    pub(crate) fn new(alloc: Global, cards: Vec<CardFacts>) -> Result<Parts, Memory>
        ensures { IfOk result (λ parts. parts ≡ issued cards.items) }
    {
        let cards = issue(alloc, cards)?;
        Ok(Parts {
            journal: Journal::new(alloc),
            is_up: true,
            sent: Vec::new(alloc),
            cards,
            made: Vec::new(alloc),
            given: Vec::new(alloc),
        })
    }

    pub(crate) fn history(&self) -> &[Entry]
        ensures { result.now ≡ self.now.history }
    {
        self.journal.history()
    }

    pub(crate) fn sent(&self) -> &[Sent]
        ensures { result.now ≡ self.now.sent }
    {
        self.sent.as_slice()
    }

    pub(crate) fn made(&self) -> &[Made]
        ensures { result.now ≡ self.now.made }
    {
        self.made.as_slice()
    }

    pub(crate) fn given(&self) -> &[u64]
        ensures { result.now ≡ self.now.given }
    {
        self.given.as_slice()
    }

    pub(crate) fn log_of(&self, card: CardId) -> &[Line]
        ensures { result.now ≡ log_of self.now.cards card }
    {
        log_of(self.cards.as_slice(), card)
    }

    /// One event.
    pub(crate) fn step(&mut self, event: &Event) -> Result<(), NotAllowed>
        ensures { Answers (refusal_of self.old event.now) (may_want_memory event.now) (world_step self.old event.now) self.old self.new result }
    {
        match event {
            Event::Begin(batch) => self.begin(batch.as_slice()),
            Event::Seal => self.seal(),
            Event::Leave { reservation, place } => self.leave(*reservation, *place),
            Event::Deliver { card, pieces, step } => self.deliver(*card, pieces.as_slice(), step),
            Event::Give { made } => self.give(*made),
            Event::Stop { kept } => self.stop(*kept),
            Event::Start => self.start(),
            Event::PowerCut(card) => self.cut_power(*card),
        }
    }

    fn begin(&mut self, batch: &[Entry]) -> Result<(), NotAllowed>
        ensures { Answers (begin_refusal self.old batch.now) (nat_lt 0 (length batch.now)) (begun self.old batch.now) self.old self.new result }
    {
        if !self.is_up {
            return Err(NotAllowed::Down);
        }
        if self.journal.is_writing() {
            return Err(NotAllowed::BatchOpen);
        }
        let is_answered = are_answered(self.made.as_slice(), self.given.as_slice(), batch);
        self.journal.begin(batch)?;
        if !is_answered {
            self.journal.discard();
            return Err(NotAllowed::NoAnswer);
        }
        Ok(())
    }

    fn seal(&mut self) -> Result<(), NotAllowed>
        ensures { Answers (seal_refusal self.old) false (sealed self.old) self.old self.new result }
    {
        if !self.is_up {
            return Err(NotAllowed::Down);
        }
        if !self.journal.is_writing() {
            return Err(NotAllowed::NoBatch);
        }
        self.journal.seal();
        Ok(())
    }

    fn leave(&mut self, reservation: u64, place: u8) -> Result<(), NotAllowed>
        ensures { Answers (leave_refusal self.old reservation place) true (left self.old reservation place) self.old self.new result }
    {
        if !self.is_up {
            return Err(NotAllowed::Down);
        }
        if self.journal.is_writing() {
            return Err(NotAllowed::BatchOpen);
        }
        let piece = piece_at(self.journal.history(), reservation, place)?;
        if self.sent.push(piece).is_err() {
            return Err(NotAllowed::Memory);
        }
        Ok(())
    }

    fn deliver(&mut self, card: CardId, pieces: &[u64], step: &CardStep) -> Result<(), NotAllowed>
        ensures { Answers (deliver_refusal self.old card pieces.now step.now) (step_wants_memory step.now) (delivered self.old card pieces.now step.now) self.old self.new result }
    {
        let (line, answer) = self.outcome(card, pieces, step)?;
        self.add(card, line, answer)
    }

    /// The line and the answer that the step adds, where the card may make it.
    fn outcome(
        &self,
        card: CardId,
        pieces: &[u64],
        step: &CardStep,
    ) -> Result<(Option<Line>, Option<Made>), NotAllowed>
        ensures { let packet = whole_packet self.now.history self.now.sent card pieces.now in IsOutcome card step.now (find_card card self.now.cards) packet result }
    {
        let alloc = *self.made.allocator();
        let state = find_card(self.cards.as_slice(), card);
        let packet = whole_packet(self.journal.history(), self.sent.as_slice(), card, pieces);
        outcome_of(alloc, card, state, packet, step)
    }

    fn add(
        &mut self,
        card: CardId,
        line: Option<Line>,
        answer: Option<Made>,
    ) -> Result<(), NotAllowed>
        ensures added { OnOk result (self.new ≡ stepped self.old card line answer) }
        ensures refused { IfErr result (λ refusal. (refusal ≡ NotAllowed.Memory) × (IsSome line ⊎ IsSome answer)) }
        ensures unchanged { OnErr result (self.new ≡ self.old) }
    {
        let before = self.made.len();
        add_answer(&mut self.made, answer)?;
        if add_line(self.cards.as_mut_slice(), card, line).is_err() {
            self.made.truncate(before);
            return Err(NotAllowed::Memory);
        }
        Ok(())
    }

    fn give(&mut self, position: u64) -> Result<(), NotAllowed>
        ensures { Answers (give_refusal self.old position) true (gave self.old position) self.old self.new result }
    {
        if !self.is_up {
            return Err(NotAllowed::Down);
        }
        if position >= self.made.len() as u64 {
            return Err(NotAllowed::NoAnswer);
        }
        if self.given.push(position).is_err() {
            return Err(NotAllowed::Memory);
        }
        Ok(())
    }

    fn stop(&mut self, kept: bool) -> Result<(), NotAllowed>
        ensures { Answers (stop_refusal self.old) false (stopped self.old kept) self.old self.new result }
    {
        if !self.is_up {
            return Err(NotAllowed::Down);
        }
        if kept {
            self.journal.seal();
        } else {
            self.journal.discard();
        }
        self.is_up = false;
        Ok(())
    }

    fn start(&mut self) -> Result<(), NotAllowed>
        ensures { Answers (start_refusal self.old) false (started self.old) self.old self.new result }
    {
        if self.is_up {
            return Err(NotAllowed::Up);
        }
        self.is_up = true;
        Ok(())
    }

    fn cut_power(&self, card: CardId) -> Result<(), NotAllowed>
        ensures { Answers (cut_refusal self.now card) false self.now self.now self.now result }
    {
        if find_card(self.cards.as_slice(), card).is_none() {
            return Err(NotAllowed::NoCard);
        }
        Ok(())
    }
}

fn outcome_of(
    alloc: Global,
    card: CardId,
    state: Option<&Card>,
    packet: Option<ReservedPacket<'_>>,
    step: &CardStep,
) -> Result<(Option<Line>, Option<Made>), NotAllowed>
    ensures { IsOutcome card step.now (option_copied state.entry) packet.entry result }
{
    let state = match state {
        Some(state) => state,
        None => return Err(NotAllowed::NoCard),
    };
    let packet = match packet {
        Some(packet) => packet,
        None => return Err(NotAllowed::NotWhole),
    };
    if !may_step(state, &packet, step) {
        return Err(NotAllowed::BadStep);
    }
    let line = line_of(&packet, step)?;
    let answer = answer_of(alloc, card, &packet, step)?;
    Ok((line, answer))
}
