//! The cards that a plan lists, found by their numbers.

ghost use Rattle.std.specs.Prelude.{◌≡◌, false, [], ◌∷◌, ◌++◌, map, IsTrue, IfOk};
ghost use Rattle.std.specs.List.{list_any};
ghost use Rattle.plan_reader.specs.Plan.{is_keyset_of};
ghost use Rattle.plan_reader.specs.PlanTable.{has_number};
ghost use Rattle.plan_reader.specs.CardPlaces.{have_own_numbers, with_more};

use crate::plans::CardList;
use ota_core::{CardFacts, KeysetFacts, KeysetId, Memory};
use std::alloc::Global;
use std::collections::HashMap;
use std::marker::Model;

/// Cards in order, no two with one number. Contracts see the list of them.
#[derive(Drop)]
pub(crate) struct CardTable {
    cards: Vec<CardFacts>,
    /// The place of each card in the list, by its number.
    places: HashMap<u64, usize>,
}

impl Model for CardTable {
    ghost use Rattle.std.specs.Prelude.{List};
    ghost use Rattle.ota_core.specs.declared.cards.CardFacts.{CardFacts};
    ghost use Rattle.plan_reader.specs.CardPlaces.{IsPlaced};

    ghost Value = { List CardFacts };

    ghost view = { λ t. t.cards.items };

    ghost invariant = { λ t. IsPlaced t.places t.cards.items };
}

impl CardTable {
    pub(crate) fn new(alloc: Global) -> CardTable
        ensures { result ≡ [] }
    {
        CardTable {
            cards: Vec::new(alloc),
            places: HashMap::new(alloc),
        }
    }

    /// Whether a card has this number.
    pub(crate) fn has(&self, number: u64) -> bool
        ensures { result ≡ has_number number self.now }
    {
        self.places.contains_key(&number)
    }

    /// The table with one more card at the end.
    pub(crate) fn with_card(self, card: CardFacts) -> Result<CardTable, Memory>
        requires new { has_number card.card.0 self ≡ false }
        ensures { IfOk result (λ table. table ≡ self ++ card ∷ []) }
    {
        let CardTable {
            mut cards,
            mut places,
        } = self;
        places.insert(card.card.0, cards.len())?;
        cards.push(card)?;
        Ok(CardTable { cards, places })
    }

    /// The table with one more keyset at the end of its card's list.
    pub(crate) fn with_keyset(
        self,
        keyset: KeysetId,
        facts: KeysetFacts,
    ) -> Result<CardTable, Memory>
        requires new { list_any (is_keyset_of keyset) self ≡ false }
        ensures { IfOk result (λ table. table ≡ map (with_more keyset facts) self) }
    {
        let CardTable { mut cards, places } = self;
        if let Some(place) = places.get(&keyset.card.0) {
            cards[*place].keysets.push(keyset.kvn, facts)?;
        }
        Ok(CardTable { cards, places })
    }

    /// The cards in order.
    pub(crate) fn into_cards(self) -> CardList
        ensures cards { result ≡ self }
        ensures distinct { IsTrue (have_own_numbers result) }
    {
        CardList::from_cards(self.cards)
    }
}
