//! A card: its facts, and the log of the counters that it used up.

ghost use Rattle.std.specs.Prelude.{◌≡◌, ◌∷◌, ◌++◌, [], map, IfOk, IsSome, OnOk, OnErr};
ghost use Rattle.std.specs.Option.{option_copied, option_to_list};
ghost use Rattle.world_core.specs.Card.{is_card, find_card, log_of, logged, counter_of, stored_counter};

use crate::lines::Line;
use ota_core::questions::is_same_keyset;
use ota_core::{CardFacts, CardId, Counter, KeysetId, Memory};
use std::alloc::{AllocError, Global};
use std::marker::Model;

#[derive(Debug, Drop)]
pub(crate) struct Card {
    facts: CardFacts,
    log: Vec<Line>,
}

impl Model for Card {
    ghost use Rattle.world_core.specs.Card.{CardState};

    ghost Value = { CardState };

    ghost view = { λ c. record { facts = c.facts; log = c.log.items } };
}

impl Card {
    /// A card that has used up no counter.
    pub(crate) fn new(alloc: Global, facts: CardFacts) -> Card
        ensures { result ≡ record { facts = facts; log = [] } }
    {
        Card {
            facts,
            log: Vec::new(alloc),
        }
    }

    pub(crate) fn has_number(&self, card: CardId) -> bool
        ensures { result ≡ is_card card self.now }
    {
        self.facts.card.0 == card.0
    }

    pub(crate) fn facts(&self) -> &CardFacts
        ensures { result.now ≡ self.now.facts }
    {
        &self.facts
    }

    pub(crate) fn log(&self) -> &[Line]
        ensures { result.now ≡ self.now.log }
    {
        self.log.as_slice()
    }

    /// Adds a line at the end of the log.
    fn add(&mut self, line: Line) -> Result<(), Memory>
        ensures ok { OnOk result (self.new ≡ record { facts = self.old.facts; log = self.old.log ++ line ∷ [] }) }
        ensures err { OnErr result (self.new ≡ self.old) }
    {
        self.log.push(line)?;
        Ok(())
    }
}

/// The counter that is stored for the keyset, where its base is this one.
pub(crate) fn stored_counter(log: &[Line], keyset: KeysetId, base: Counter) -> Counter
    ensures { result ≡ stored_counter base keyset log.now }
{
    let mut rest = log;
    while let Some((line, before)) = rest.split_last() {
        if is_same_keyset(line.keyset, keyset) {
            return line.counter;
        }
        rest = before;
    }
    base
}

/// The card with this number.
pub(crate) fn find_card(cards: &[Card], card: CardId) -> Option<&Card>
    ensures { option_copied result ≡ find_card card cards.now }
{
    cards.iter().find(|state| state.has_number(card))
}

/// Adds a line to the log of the first card with this number.
#[tactic(auto, using(crate::proofs::Walks::logged_is_set))]
pub(crate) fn log_line(cards: &mut [Card], card: CardId, line: Line) -> Result<(), Memory>
    ensures ok { OnOk result (cards.new ≡ logged cards.old card (line ∷ [])) }
    ensures err { OnErr result (cards.new ≡ cards.old) }
{
    for state in cards.iter_mut() {
        if state.has_number(card) {
            return state.add(line);
        }
    }
    Ok(())
}

/// Adds the line, if there is one, to the log of the card with this number.
#[tactic(auto, using(crate::proofs::Walks::logged_nothing))]
pub(crate) fn add_line(cards: &mut [Card], card: CardId, line: Option<Line>) -> Result<(), Memory>
    ensures ok { OnOk result (cards.new ≡ logged cards.old card (option_to_list line)) }
    ensures wanted { OnErr result (IsSome line) }
    ensures err { OnErr result (cards.new ≡ cards.old) }
{
    match line {
        Some(line) => log_line(cards, card, line),
        None => Ok(()),
    }
}

/// The log of the card with this number, empty where it isn't there.
pub(crate) fn log_of(cards: &[Card], card: CardId) -> &[Line]
    ensures { result.now ≡ log_of cards.now card }
{
    match find_card(cards, card) {
        Some(state) => state.log(),
        None => &[],
    }
}

/// The cards with these facts, as they were issued.
pub(crate) fn issue(alloc: Global, cards: Vec<CardFacts>) -> Result<Vec<Card>, AllocError>
    ensures { IfOk result (λ states. states.items ≡ map (λ facts. record { facts = facts; log = [] }) cards.items) }
{
    cards
        .into_iter()
        .map(|facts| Card::new(alloc, facts))
        .collect(alloc)
}
