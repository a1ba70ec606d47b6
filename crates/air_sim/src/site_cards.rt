//! The cards of a site, found by their numbers.

ghost use Rattle.std.specs.Prelude.{◌≡◌, ◌<◌, IfOk, length};
ghost use Rattle.air_sim.specs.Cards.{place_in};
ghost use Rattle.air_sim.specs.SiteCards.{HasPlaces, MeetsAt};

use crate::deliveries::{Message, meet};
use crate::schedules::Cut;
use disk_model::{DiskCalls, SimCalls};
use ota_core::{CardId, Memory};
use receiving_entity::Card;
use std::alloc::Global;
use std::collections::BTreeMap;
use std::marker::Model;

/// The cards in order. Contracts see the list of them.
#[derive(Drop)]
pub(crate) struct SiteCards<D: DiskCalls> {
    cards: Vec<Card<D>>,
    /// The place of each card by its number, once one was looked for.
    places: Option<BTreeMap<u64, usize>>,
}

impl<D: DiskCalls> Model for SiteCards<D> {
    ghost use Rattle.card_store.specs.Store.{store_code};
    ghost use Rattle.card_store.specs.contracts.issued_facts.IssuedFacts as the_facts;
    ghost use Rattle.card_store.specs.contracts.kept.Kept as the_kept;
    ghost use Rattle.receiving_entity.specs.Card.{card_code};
    ghost use Rattle.sms_segments.specs.contracts.assembling.Assembler as the_assembler;
    ghost use Rattle.air_sim.specs.SiteCards.{ArePlaced, CardsValue, cards_code};

    ghost Value = { CardsValue D };

    ghost coded = { cards_code (card_code (store_code D.code the_facts.the_row.coded the_kept.the_row.coded) the_assembler.the_row.coded) };

    ghost view = { λ c. record { items = c.cards.items } };

    ghost invariant = { λ c. ArePlaced c.places c.cards.items };
}

impl<D: DiskCalls> SiteCards<D> {
    pub(crate) fn new(cards: Vec<Card<D>>) -> SiteCards<D>
        ensures { result ≡ record { items = cards.items } }
    {
        SiteCards {
            cards,
            places: None,
        }
    }

    /// The cards in order.
    pub(crate) fn as_slice(&self) -> &[Card<D>]
        ensures { result.now ≡ self.now.items }
    {
        self.cards.as_slice()
    }

    /// The place of the card with this number.
    pub(crate) fn place_of(&mut self, alloc: Global, card: CardId) -> Option<usize>
        ensures place { result ≡ place_in card.0 self.old.items }
        ensures same { self.new ≡ self.old }
    {
        self.index(alloc);
        self.find(card)
    }

    /// Finds the places of all cards, where that isn't done. They stay unknown where there is no memory for them.
    fn index(&mut self, alloc: Global)
        ensures { self.new ≡ self.old }
    {
        if self.places.is_none() {
            self.places = places_of(alloc, self.cards.as_slice()).ok();
        }
    }

    /// The place of the card with this number: the cards are gone through where their places aren't known.
    fn find(&self, card: CardId) -> Option<usize>
        ensures { result ≡ place_in card.0 self.now.items }
    {
        match &self.places {
            Some(places) => places.get(&card.0).copied(),
            None => place_among(self.cards.as_slice(), card),
        }
    }
}

impl<D: SimCalls> SiteCards<D> {
    /// A message comes to the card at this place.
    pub(crate) fn meet(
        &mut self,
        alloc: Global,
        place: usize,
        message: &[u8],
        cut: Option<Cut>,
    ) -> Result<Vec<Message>, Memory>
        requires there { place < length self.old.items }
        ensures { MeetsAt D.DiskCalls.told D.DiskCalls.counts self.old.items self.new.items place message.now cut result }
    {
        meet(alloc, &mut self.cards[place], message, cut)
    }
}

/// The place of the card with this number.
fn place_among<D: DiskCalls>(cards: &[Card<D>], card: CardId) -> Option<usize>
    ensures { result ≡ place_in card.0 cards.now }
{
    cards.iter().position(|one| one.facts().card.0 == card.0)
}

/// The place of each card by its number.
fn places_of<D: DiskCalls>(alloc: Global, cards: &[Card<D>]) -> Result<BTreeMap<u64, usize>, Memory>
    ensures { IfOk result (λ places. HasPlaces places cards.now) }
{
    let mut places = BTreeMap::new(alloc);
    for place in 0..cards.len() {
        let number = cards[place].facts().card.0;
        if !places.contains_key(&number) {
            places.insert(number, place)?;
        }
    }
    Ok(places)
}
