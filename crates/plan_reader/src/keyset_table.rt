//! The keysets that a plan lists, found by their numbers and by their keys.

ghost use Rattle.std.specs.Prelude.{◌≡◌, false, [], ◌∷◌, ◌++◌, IsTrue, IfOk};
ghost use Rattle.plan_reader.specs.PlanTable.{lists_keyset, has_kid};
ghost use Rattle.plan_reader.specs.KeysetPlaces.{have_own_ids};

use ota_core::{KeyBytes, KeysetFacts, KeysetId, Memory};
use std::alloc::Global;
use std::collections::HashSet;
use std::marker::Model;

/// A keyset that a plan lists.
#[derive(Clone, Copy)]
pub(crate) struct Listing {
    pub(crate) id: KeysetId,
    pub(crate) facts: KeysetFacts,
    /// Whether it is put on its card later.
    pub(crate) later: bool,
}

/// Keysets in order, no two with one number on one card. Contracts see the list of them.
#[derive(Drop)]
pub(crate) struct KeysetTable {
    listings: Vec<Listing>,
    /// The number of the card and the key version number of each.
    ids: HashSet<(u64, u8)>,
    /// The keys for the checksum.
    kids: HashSet<Vec<u8>>,
}

impl Model for KeysetTable {
    ghost use Rattle.std.specs.Prelude.{List};
    ghost use Rattle.plan_reader.specs.declared.keyset_table.Listing.{Listing};
    ghost use Rattle.plan_reader.specs.KeysetPlaces.{IsListed};

    ghost Value = { List Listing };

    ghost view = { λ t. t.listings.items };

    ghost invariant = { λ t. IsListed t.ids t.kids t.listings.items };
}

impl KeysetTable {
    pub(crate) fn new(alloc: Global) -> KeysetTable
        ensures { result ≡ [] }
    {
        KeysetTable {
            listings: Vec::new(alloc),
            ids: HashSet::new(alloc),
            kids: HashSet::new(alloc),
        }
    }

    /// Whether a keyset has this number on this card.
    pub(crate) fn has(&self, id: KeysetId) -> bool
        ensures { result ≡ lists_keyset id self.now }
    {
        self.ids.contains(&pair_of(id))
    }

    /// Whether a keyset has this key for the checksum.
    pub(crate) fn has_kid(&self, kid: &KeyBytes) -> bool
        ensures { result ≡ has_kid kid.now self.now }
    {
        self.kids.contains(kid.as_slice())
    }

    /// The table with one more keyset at the end.
    pub(crate) fn with_keyset(self, alloc: Global, listing: Listing) -> Result<KeysetTable, Memory>
        requires new { lists_keyset listing.id self ≡ false }
        ensures { IfOk result (λ table. table ≡ self ++ listing ∷ []) }
    {
        let KeysetTable {
            mut listings,
            mut ids,
            mut kids,
        } = self;
        ids.insert(pair_of(listing.id))?;
        kids.insert(Vec::from_slice(alloc, listing.facts.kid.as_slice())?)?;
        listings.push(listing)?;
        Ok(KeysetTable {
            listings,
            ids,
            kids,
        })
    }

    /// The keysets in order.
    pub(crate) fn as_slice(&self) -> &[Listing]
        ensures keysets { result.now ≡ self.now }
        ensures distinct { IsTrue (have_own_ids self.now) }
    {
        self.listings.as_slice()
    }
}

/// The number of a keyset's card and its key version number.
fn pair_of(id: KeysetId) -> (u64, u8)
    ensures { result ≡ (id.card.0, id.kvn) }
{
    (id.card.0, id.kvn)
}
