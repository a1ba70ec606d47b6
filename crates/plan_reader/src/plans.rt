ghost use Rattle.std.specs.Prelude.{◌≡◌, [], ◌∷◌, ◌++◌, OnOk, OnErr};

use crate::tables::{Field, Table};
use ota_core::{CardFacts, KeysetFacts, KeysetId, Memory};
use std::alloc::Global;
use std::marker::Model;

/// The plan of a campaign: its number, the cards that it may run on, and the keysets that are put on them later.
#[derive(Debug, Drop)]
pub struct Plan {
    pub campaign: u32,
    pub cards: CardList,
    /// The keysets that no card is issued with, in the order of their listing.
    pub later: LaterList,
}

impl Plan {
    /// The plan of campaign 0 without cards. It takes no memory.
    pub fn empty(alloc: Global) -> Plan
        ensures { result ≡ record { campaign = 0; cards = []; later = [] } }
    {
        Plan {
            campaign: 0,
            cards: CardList::from_cards(Vec::new(alloc)),
            later: LaterList::new(alloc),
        }
    }
}

/// The cards of a plan in order. Contracts see the list of their facts.
#[derive(Debug, Drop)]
pub struct CardList {
    cards: Vec<CardFacts>,
}

impl Model for CardList {
    ghost use Rattle.std.specs.Prelude.{List};
    ghost use Rattle.ota_core.specs.declared.cards.CardFacts.{CardFacts};

    ghost Value = { List CardFacts };

    ghost view = { λ l. l.cards.items };
}

impl CardList {
    pub(crate) fn from_cards(cards: Vec<CardFacts>) -> CardList
        ensures { result ≡ cards.items }
    {
        CardList { cards }
    }

    /// The cards in order.
    pub fn as_slice(&self) -> &[CardFacts]
        ensures { result.now ≡ self.now }
    {
        self.cards.as_slice()
    }

    /// The cards themselves in order.
    pub fn into_cards(self) -> Vec<CardFacts>
        ensures { result.items ≡ self }
    {
        self.cards
    }
}

/// The keysets of a plan that are put on its cards later, in order. Contracts see the list of them.
#[derive(Debug, Drop)]
pub struct LaterList {
    keysets: Vec<(KeysetId, KeysetFacts)>,
}

impl Model for LaterList {
    ghost use Rattle.std.specs.Prelude.{List};
    ghost use Rattle.ota_core.specs.Keyset.{Keyset};
    ghost use Rattle.ota_core.specs.declared.keysets.KeysetFacts.{KeysetFacts};

    ghost Value = { List (Keyset × KeysetFacts) };

    ghost view = { λ l. l.keysets.items };
}

impl LaterList {
    pub(crate) fn new(alloc: Global) -> LaterList
        ensures { result ≡ [] }
    {
        LaterList {
            keysets: Vec::new(alloc),
        }
    }

    pub(crate) fn push(&mut self, keyset: KeysetId, facts: KeysetFacts) -> Result<(), Memory>
        ensures ok { OnOk result (self.new ≡ self.old ++ (keyset, facts) ∷ []) }
        ensures err { OnErr result (self.new ≡ self.old) }
    {
        self.keysets.push((keyset, facts))?;
        Ok(())
    }

    /// The keysets in order.
    pub fn as_slice(&self) -> &[(KeysetId, KeysetFacts)]
        ensures { result.now ≡ self.now }
    {
        self.keysets.as_slice()
    }
}

/// Why the octets of a plan give none.
#[derive(Clone, Copy, Debug, PartialEq, Eq)]
pub enum PlanErr {
    /// They aren't a plan: the table that is wrong, the entry's place in it from 1 or 0 for the table as a whole, and
    /// what is wrong there.
    Refused(Table, u32, Field),
    /// Memory is wanting.
    Memory,
}

impl From<Memory> for PlanErr {
    ghost use Rattle.std.specs.Prelude.{◌≡◌};
    ghost use Rattle.plan_reader.specs.declared.plans.PlanErr.TheVariants as plan_err;

    ghost from_gives = { λ _ err. err ≡ plan_err.Memory };

    fn from(_memory: Memory) -> PlanErr {
        PlanErr::Memory
    }
}
