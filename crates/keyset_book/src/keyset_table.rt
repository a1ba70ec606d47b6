//! The keysets of a book.

ghost use Rattle.std.specs.Prelude.{◌≡◌, true, None, is_ok, OnOk};
ghost use Rattle.ota_core.specs.Keyset.{Keyset};
ghost use Rattle.keyset_book.specs.Tables.{known_in, has_keyset_place, FillsKeyset};

use ota_core::{Counter, KeysetFacts, KeysetId, Memory};
use std::alloc::Global;
use std::collections::BTreeMap;

/// What is known of a keyset that is opened.
#[derive(Clone, Copy, Debug, PartialEq, Eq)]
pub(crate) struct Known {
    pub(crate) facts: KeysetFacts,
    /// The last counter that is used up: the base, or the last reserved one.
    pub(crate) last: Counter,
    pub(crate) closed: bool,
}

/// Each keyset of a history, with what is known of it. A place may be made before it is filled.
#[derive(Drop)]
pub(crate) struct KeysetTable {
    places: BTreeMap<KeysetId, Option<Known>>,
}

impl KeysetTable {
    /// The empty table.
    pub(crate) fn new(alloc: Global) -> KeysetTable
        ensures { (keyset : Keyset) → known_in result keyset ≡ None }
    {
        KeysetTable {
            places: BTreeMap::new(alloc),
        }
    }

    /// What is known of the keyset.
    pub(crate) fn look(&self, keyset: KeysetId) -> Option<Known>
        ensures { result ≡ known_in self.now keyset }
    {
        match self.places.get(&keyset) {
            Some(known) => *known,
            None => None,
        }
    }

    /// Makes a place for the keyset, if there is none.
    pub(crate) fn make_place(&mut self, keyset: KeysetId) -> Result<(), Memory>
        ensures same { (other : Keyset) → known_in self.new other ≡ known_in self.old other }
        ensures kept { (other : Keyset) → has_keyset_place self.old other ≡ true → has_keyset_place self.new other ≡ true }
        ensures made { OnOk result (has_keyset_place self.new keyset ≡ true) }
        ensures there { has_keyset_place self.old keyset ≡ true → is_ok result ≡ true }
    {
        if self.places.contains_key(&keyset) {
            return Ok(());
        }
        self.places.insert(keyset, None)?;
        Ok(())
    }

    /// Fills the keyset's place. Where there is none, nothing is done.
    pub(crate) fn fill(&mut self, keyset: KeysetId, known: Known)
        ensures filled { has_keyset_place self.old keyset ≡ true → FillsKeyset self.old keyset known self.new }
        ensures kept { (other : Keyset) → has_keyset_place self.old other ≡ true → has_keyset_place self.new other ≡ true }
    {
        if let Some(place) = self.places.get_mut(&keyset) {
            *place = Some(known);
        }
    }
}
