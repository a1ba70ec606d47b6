ghost use Rattle.std.specs.Prelude.{◌≡◌, ◌≢◌, map, IfOk, IfErr, OnOk, OnErr};
ghost use Rattle.ota_core.specs.History.{IsLegal};
ghost use Rattle.ota_core.specs.Rules.{MomentsNeverFall};
ghost use Rattle.world_core.specs.Card.{log_of};
ghost use Rattle.world_core.specs.WorldState.{issued, written};
ghost use Rattle.world_core.specs.Condition.{IsAllowed};
ghost use Rattle.world_core.specs.Effect.{world_step};
ghost use Rattle.world_core.specs.Run.{IsRefusalOf, Runs, StopsAt, IsLater, Continues};
ghost use Rattle.world_core.specs.Settling.{BeginsSettlement};
ghost use Rattle.world_core.specs.Delivery.{DeliversWhole, DeliversNoWhole};
ghost use Rattle.world_core.specs.Headline.{SentIsReserved, OneCounter, AtMostOnce, TrueReports, LinesAreReserved, LogsAreSound, AnswersAreTrue, AnswersAreOwn, GivenWasMade};
ghost use Rattle.world_core.specs.Sound.{Differ};

use crate::answers::Made;
use crate::events::Event;
use crate::lines::Line;
use crate::parts::Parts;
use crate::refusals::NotAllowed;
use crate::segments::Sent;
use ota_core::{CardFacts, CardId, Entry, Memory};
use std::alloc::Global;
use std::marker::Model;

/// One lane with its cards: the durable history, the batch being written or none, whether the gateway is up, what was
/// sent, the cards, the secured answers that they made, and those that reached the gateway.
#[derive(Debug, Drop)]
pub struct World {
    parts: Parts,
}

impl Model for World {
    ghost use Rattle.world_core.specs.WorldState.{WorldState};
    ghost use Rattle.world_core.specs.Sound.{IsSound};

    ghost Value = { WorldState };

    ghost view = { λ w. w.parts };

    ghost invariant = { λ w. IsSound w.parts };
}

impl World {
    /// A world that is up, with an empty history and these cards as they were issued. Their numbers differ.
    pub fn new(alloc: Global, cards: Vec<CardFacts>) -> Result<World, Memory>
        requires { Differ (map (λ facts. facts.card) cards.items) }
        ensures { IfOk result (λ world. world ≡ issued cards.items) }
    {
        let parts = Parts::new(alloc, cards)?;
        Ok(World { parts })
    }

    /// One event.
    pub fn step(&mut self, event: &Event) -> Result<(), NotAllowed>
        ensures allowed { OnOk result (IsAllowed self.old event.now) }
        ensures effect { OnOk result (self.new ≡ world_step self.old event.now) }
        ensures refused { IfErr result (IsRefusalOf self.old event.now) }
        ensures unchanged { OnErr result (self.new ≡ self.old) }

        // A packet is delivered exactly where the pieces are of one reservation, with each place of its packet:
        ensures whole { OnOk result (DeliversWhole self.old event.now) }
        ensures not_whole { IfErr result (λ refusal. refusal ≡ NotAllowed.NotWhole → DeliversNoWhole self.old event.now) }

        // A receipt that was given may be settled where its keyset is open and its counter isn't settled:
        ensures settles { IfErr result (λ refusal. BeginsSettlement self.old event.now → refusal ≡ NotAllowed.Memory) }
        ensures later { IsLater self.old self.new }
    {
        self.parts.step(event)
    }

    /// The events in order. It stops at the first that is refused, and names its position; those before it stand.
    pub fn run(&mut self, events: &[Event]) -> Result<(), (u64, NotAllowed)>
        ensures ran { OnOk result (Runs self.old events.now self.new) }
        ensures stopped { IfErr result (StopsAt self.old events.now self.new) }
        ensures continues { OnOk result (Continues self.old events.now self.new) }
        ensures later { IsLater self.old self.new }

        // Whatever the events were:
        ensures legal { IsLegal self.new.history }
        ensures legal_with_batch { IsLegal (written self.new) }
        ensures moments { MomentsNeverFall (written self.new) }
        ensures sent_reserved { SentIsReserved self.new }
        ensures one_counter { OneCounter self.new }
        ensures at_most_once { AtMostOnce self.new }
        ensures true_reports { TrueReports self.new }
        ensures lines_reserved { LinesAreReserved self.new }
        ensures logs_sound { LogsAreSound self.new }
        ensures answers_true { AnswersAreTrue self.new }
        ensures answers_own { AnswersAreOwn self.new }
        ensures given_made { GivenWasMade self.new }
    {
        let outcome = self.run_all(events);
        let _ = &self.parts;
        outcome
    }

    /// The durable history.
    pub fn history(&self) -> &[Entry]
        ensures history { result.now ≡ self.now.history }
        ensures legal { IsLegal self.now.history }
    {
        self.parts.history()
    }

    /// The pieces that left, in order.
    pub fn sent(&self) -> &[Sent]
        ensures sent { result.now ≡ self.now.sent }
        ensures one_counter { OneCounter self.now }
    {
        self.parts.sent()
    }

    /// The secured answers that the cards made, in order.
    pub fn made(&self) -> &[Made]
        ensures made { result.now ≡ self.now.made }
        ensures answers_true { AnswersAreTrue self.now }
        ensures answers_own { AnswersAreOwn self.now }
    {
        self.parts.made()
    }

    /// The positions in `made` of the answers that reached the gateway, in order.
    pub fn given(&self) -> &[u64]
        ensures given { result.now ≡ self.now.given }
        ensures given_made { GivenWasMade self.now }
    {
        self.parts.given()
    }

    /// The log of a card, oldest line first. It is empty where the card isn't there.
    pub fn log_of(&self, card: CardId) -> &[Line]
        ensures log { result.now ≡ log_of self.now.cards card }
        ensures at_most_once { AtMostOnce self.now }
    {
        self.parts.log_of(card)
    }

    fn run_all(&mut self, events: &[Event]) -> Result<(), (u64, NotAllowed)>
        ensures ran { OnOk result (Runs self.old events.now self.new) }
        ensures stopped { IfErr result (StopsAt self.old events.now self.new) }
    {
        for (position, event) in events.iter().enumerate() {
            if let Err(refusal) = self.step(event) {
                return Err((position as u64, refusal));
            }
        }
        Ok(())
    }
}

#[cfg(test)]
mod tests;
