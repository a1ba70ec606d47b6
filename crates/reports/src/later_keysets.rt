//! The keysets that cards are to be given later.

ghost use Rattle.std.specs.Prelude.{◌≡◌, ◌++◌, ◌∷◌, [], if◌then◌else◌, ◌==◌, IfOk, OnOk};
ghost use Rattle.ota_core.specs.declared.cards.CardId.{CardId};
ghost use Rattle.reports.specs.Later.{listed_in, ListsAll};

use ota_core::{CardId, KeysetFacts, KeysetId, Memory};
use std::alloc::Global;
use std::collections::BTreeMap;
use std::marker::Model;

/// Keysets in order. Contracts see the list of them.
#[derive(Drop)]
struct Keysets {
    keysets: Vec<(KeysetId, KeysetFacts)>,
}

impl Model for Keysets {
    ghost use Rattle.std.specs.Prelude.{List};
    ghost use Rattle.ota_core.specs.Keyset.{Keyset};
    ghost use Rattle.ota_core.specs.declared.keysets.KeysetFacts.{KeysetFacts};

    ghost Value = { List (Keyset × KeysetFacts) };

    ghost view = { λ l. l.keysets.items };
}

impl Keysets {
    fn new(alloc: Global) -> Keysets
        ensures { result ≡ [] }
    {
        Keysets {
            keysets: Vec::new(alloc),
        }
    }

    fn push(&mut self, keyset: KeysetId, facts: KeysetFacts) -> Result<(), Memory>
        ensures { OnOk result (self.new ≡ self.old ++ (keyset, facts) ∷ []) }
    {
        self.keysets.push((keyset, facts))?;
        Ok(())
    }

    fn as_slice(&self) -> &[(KeysetId, KeysetFacts)]
        ensures { result.now ≡ self.now }
    {
        self.keysets.as_slice()
    }
}

/// A list of keysets with the keysets of each card. Contracts see the list.
#[derive(Drop)]
pub(crate) struct LaterKeysets<'a> {
    keysets: &'a [(KeysetId, KeysetFacts)],
    by_card: BTreeMap<CardId, Keysets>,
}

impl<'a> Model for LaterKeysets<'a> {
    ghost use Rattle.std.specs.Prelude.{List};
    ghost use Rattle.ota_core.specs.Keyset.{Keyset};
    ghost use Rattle.ota_core.specs.declared.keysets.KeysetFacts.{KeysetFacts};

    ghost Value = { List (Keyset × KeysetFacts) };

    ghost use Rattle.reports.specs.Later.{ListsAll};

    ghost view = { λ l. l.keysets.now };

    ghost invariant = { λ l. ListsAll l.keysets.now l.by_card };
}

impl<'a> LaterKeysets<'a> {
    ghost use Rattle.std.specs.Prelude.{◌≡◌, IfOk};
    ghost use Rattle.reports.specs.Cards.{keysets_of};

    /// These keysets.
    pub(crate) fn of(
        alloc: Global,
        keysets: &'a [(KeysetId, KeysetFacts)],
    ) -> Result<LaterKeysets<'a>, Memory>
        ensures { IfOk result (λ later. later ≡ keysets.now) }
    {
        let by_card = by_card(alloc, keysets)?;
        Ok(LaterKeysets { keysets, by_card })
    }

    /// The keysets of a card, in order.
    pub(crate) fn of_card(&self, card: CardId) -> &[(KeysetId, KeysetFacts)]
        ensures { result.now ≡ keysets_of card self.now }
    {
        match self.by_card.get(&card) {
            Some(keysets) => keysets.as_slice(),
            None => &[],
        }
    }
}

/// The keysets of each card, in order.
fn by_card(
    alloc: Global,
    keysets: &[(KeysetId, KeysetFacts)],
) -> Result<BTreeMap<CardId, Keysets>, Memory>
    ensures { IfOk result (λ table. ListsAll keysets.now table) }
{
    let mut table = BTreeMap::new(alloc);
    for (keyset, facts) in keysets {
        put(alloc, &mut table, *keyset, *facts)?;
    }
    Ok(table)
}

/// Puts a keyset behind the others of its card.
fn put(
    alloc: Global,
    table: &mut BTreeMap<CardId, Keysets>,
    keyset: KeysetId,
    facts: KeysetFacts,
) -> Result<(), Memory>
    ensures { OnOk result ((card : CardId) → listed_in table.new card ≡ listed_in table.old card ++ (if keyset.card.0 == card.0 then (keyset, facts) ∷ [] else [])) }
{
    if let Some(keysets) = table.get_mut(&keyset.card) {
        return keysets.push(keyset, facts);
    }
    let mut keysets = Keysets::new(alloc);
    keysets.push(keyset, facts)?;
    table.insert(keyset.card, keysets)?;
    Ok(())
}
