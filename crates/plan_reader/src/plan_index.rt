//! The cards of a plan with their keysets, found by their numbers.

ghost use Rattle.std.specs.Prelude.{◌≡◌, ◌<◌, ◌≤◌, ◌||◌, ◌==◌, ℕ, false, [], get_or, option_map, IfOk, IfSome};
ghost use Rattle.ota_core.specs.KeysetList.{has_kvn};
ghost use Rattle.plan_reader.specs.PlanPlaces.{width_of, IsIndexOf, IsListing};

use crate::plans::Plan;
use ota_core::{CardFacts, KeysetFacts, KeysetId, Memory};
use std::alloc::Global;
use std::collections::HashMap;
use std::marker::Model;

/// What a plan lists of a card.
#[derive(Clone, Copy)]
pub(crate) struct CardListing {
    /// Whether the card is wide.
    pub(crate) wide: bool,
    /// Whether the card has a keyset with each key version number, issued or put later.
    kvns: [bool; 16],
}

impl CardListing {
    /// A card without keysets.
    fn bare(wide: bool) -> CardListing
        ensures wide { result.wide ≡ wide }
        ensures kvns { (kvn : ℕ) → get_or result.kvns kvn false ≡ false }
    {
        CardListing {
            wide,
            kvns: [false; 16],
        }
    }

    /// Whether the card has a keyset with this key version number.
    pub(crate) fn has(&self, kvn: u8) -> bool
        requires { kvn ≤ 15 }
        ensures { result ≡ get_or self.now.kvns kvn false }
    {
        self.kvns[kvn as usize]
    }

    /// The listing with one more keyset.
    fn with_keyset(self, kvn: u8) -> CardListing
        requires { kvn ≤ 15 }
        ensures wide { result.wide ≡ self.wide }
        ensures kvns { (other : ℕ) → get_or result.kvns other false ≡ ((kvn == other) || get_or self.kvns other false) }
    {
        let mut kvns = self.kvns;
        kvns[kvn as usize] = true;
        CardListing {
            wide: self.wide,
            kvns,
        }
    }

    /// The listing with the keysets with which a card is issued.
    fn with_issued(self, card: &CardFacts) -> CardListing
        ensures wide { result.wide ≡ self.wide }
        ensures kvns { (kvn : ℕ) → get_or result.kvns kvn false ≡ (get_or self.kvns kvn false || has_kvn kvn card.now.keysets) }
    {
        let mut listing = self;
        for (kvn, _) in card.keysets.as_slice() {
            listing = listing.with_keyset(*kvn);
        }
        listing
    }
}

/// A plan with what it lists of each card. Contracts see the plan.
#[derive(Drop)]
pub(crate) struct PlanIndex<'a> {
    plan: &'a Plan,
    listings: HashMap<u64, CardListing>,
}

impl<'a> Model for PlanIndex<'a> {
    ghost use Rattle.plan_reader.specs.declared.plans.Plan.{Plan};
    ghost use Rattle.plan_reader.specs.PlanPlaces.{IsIndexOf};

    ghost Value = { Plan };

    ghost view = { λ i. i.plan.now };

    ghost invariant = { λ i. IsIndexOf i.plan.now i.listings };
}

impl<'a> PlanIndex<'a> {
    pub(crate) fn new(alloc: Global, plan: &'a Plan) -> Result<PlanIndex<'a>, Memory>
        ensures { IfOk result (λ index. index ≡ plan.now) }
    {
        let issued = issued_listings(alloc, plan)?;
        Ok(PlanIndex {
            plan,
            listings: with_later(issued, plan)?,
        })
    }

    /// The number of the plan's campaign.
    pub(crate) fn campaign(&self) -> u32
        ensures { result ≡ self.now.campaign }
    {
        self.plan.campaign
    }

    /// What the plan lists of the card with this number, if it has the card.
    pub(crate) fn card(&self, number: u64) -> Option<&CardListing>
        ensures wide { option_map (λ listing. listing.now.wide) result ≡ width_of self.now number }
        ensures listing { IfSome result (λ listing. IsListing self.now number listing.now) }
    {
        self.listings.get(&number)
    }
}

/// What a plan lists of its cards but for the keysets that are put later; of several cards with one number the first
/// says whether it is wide.
fn issued_listings(alloc: Global, plan: &Plan) -> Result<HashMap<u64, CardListing>, Memory>
    ensures { IfOk result (λ listings. IsIndexOf (record plan.now { later = [] }) listings) }
{
    let cards = plan.cards.as_slice();
    let mut listings = HashMap::with_capacity(alloc, cards.len())?;
    for card in cards {
        let listing = match listings.get(&card.card.0) {
            Some(listing) => *listing,
            None => CardListing::bare(card.wide),
        };
        listings.insert(card.card.0, listing.with_issued(card))?;
    }
    Ok(listings)
}

/// The listings with the keysets that are put later.
fn with_later(
    listings: HashMap<u64, CardListing>,
    plan: &Plan,
) -> Result<HashMap<u64, CardListing>, Memory>
    requires { IsIndexOf (record plan.now { later = [] }) listings }
    ensures { IfOk result (λ listings. IsIndexOf plan.now listings) }
{
    let mut listings = listings;
    for (keyset, _) in plan.later.as_slice() {
        if let Some(listing) = listings.get(&keyset.card.0) {
            let more = listing.with_keyset(keyset.kvn);
            listings.insert(keyset.card.0, more)?;
        }
    }
    Ok(listings)
}
