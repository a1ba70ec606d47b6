//! The sites of the lanes of a store, over real files.

ghost use Rattle.std.specs.Prelude.{◌≡◌, ◌<◌, [], ◌∷◌, IfOk, IsTrue, length, map};
ghost use Rattle.plan_reader.specs.CardPlaces.{have_own_numbers};
ghost use Rattle.air_sim.specs.Cards.{facts_of};
ghost use Rattle.air_sim.specs.Files.{AreFileSites, HasRefusal, IsFileSite, cards_of, fault_by};

use crate::{Schedule, SimSite};
use card_store::StoreErr;
use disk_model::{DiskFault, FileDisk};
use ota_core::{CardFacts, KeysetList, Memory};
use plan_reader::Plan;
use receiving_entity::Card;
use site_model::SiteFault;
use std::alloc::Global;
use std::rt::Files;

/// The sites of so many lanes over the files of a folder: `lane-<i>.log` has the journal of a lane, and `card-<n>.sim` a card of
/// the plan, which stands on the site of its lane. Their schedule is orderly.
///
/// Each file is opened for its calls alone, so a plan of many cards needs few open files. A card's file that is missing is that of
/// a card as it was issued, and is made. `Failed` comes only where the store of a card was refused.
pub fn file_sites<R: Files + Clone + Drop + Send + Sync>(
    rt: &R,
    alloc: Global,
    plan: &Plan,
    store: &str,
    lanes: u16,
) -> Result<Vec<SimSite<FileDisk<R>>>, SiteFault>
    requires distinct { IsTrue (have_own_numbers plan.now.cards) }
    ensures count { IfOk result (λ sites. length sites.items ≡ lanes) }
    ensures sites { IfOk result (λ sites. AreFileSites plan.now.cards lanes 0 sites.items) }
    ensures refused { HasRefusal plan.now.cards result }
{
    let mut sites = Vec::new(alloc);
    for lane in 0..lanes {
        let site = file_site(rt, alloc, plan.cards.as_slice(), store, lane, lanes)?;
        match sites.push(site) {
            Ok(()) => {}
            Err(_) => return Err(SiteFault::Memory),
        }
    }
    Ok(sites)
}

/// The site of a lane.
fn file_site<R: Files + Clone + Drop>(
    rt: &R,
    alloc: Global,
    cards: &[CardFacts],
    store: &str,
    lane: u16,
    lanes: u16,
) -> Result<SimSite<FileDisk<R>>, SiteFault>
    requires lane { lane < lanes }
    requires distinct { IsTrue (have_own_numbers cards.now) }
    ensures site { IfOk result (IsFileSite cards.now lanes lane) }
    ensures refused { HasRefusal cards.now result }
{
    match journal_file(rt, alloc, store, lane) {
        Ok(journal) => {
            let cards = lane_cards(rt, alloc, cards, store, lane, lanes)?;
            Ok(SimSite::new(alloc, journal, cards, Schedule::Orderly))
        }
        Err(_) => Err(SiteFault::Memory),
    }
}

/// The cards of a lane, in the order of the plan.
fn lane_cards<R: Files + Clone + Drop>(
    rt: &R,
    alloc: Global,
    cards: &[CardFacts],
    store: &str,
    lane: u16,
    lanes: u16,
) -> Result<Vec<Card<FileDisk<R>>>, SiteFault>
    requires lane { lane < lanes }
    ensures cards { IfOk result (λ found. map facts_of found.items ≡ cards_of lanes lane cards.now) }
    ensures refused { HasRefusal cards.now result }
{
    let mut found = Vec::new(alloc);
    for facts in cards {
        if facts.card.0 % u64::from(lanes) != u64::from(lane) {
            continue;
        }
        let card = file_card(rt, alloc, store, facts)?;
        match found.push(card) {
            Ok(()) => {}
            Err(_) => return Err(SiteFault::Memory),
        }
    }
    Ok(found)
}

/// A card over its file.
fn file_card<R: Files + Clone + Drop>(
    rt: &R,
    alloc: Global,
    store: &str,
    facts: &CardFacts,
) -> Result<Card<FileDisk<R>>, SiteFault>
    ensures facts { IfOk result (λ card. card.store.facts ≡ facts.now) }
    ensures refused { HasRefusal (facts.now ∷ []) result }
{
    match (
        card_file(rt, alloc, store, facts.card.0),
        copy_of(alloc, facts),
    ) {
        (Ok(disk), Ok(facts)) => match Card::issue(alloc, disk, facts) {
            Ok(card) => Ok(card),
            Err((_, error)) => Err(fault_of(error)),
        },
        _ => Err(SiteFault::Memory),
    }
}

/// The file of a lane's journal, which stays open from its first write on.
fn journal_file<R: Files + Clone + Drop>(
    rt: &R,
    alloc: Global,
    store: &str,
    lane: u16,
) -> Result<FileDisk<R>, Memory> {
    let path = format!(in alloc; "{store}/lane-{lane}.log")?;
    Ok(FileDisk::new(rt.clone()?, path).keeping_open())
}

/// The file of a card.
fn card_file<R: Files + Clone + Drop>(
    rt: &R,
    alloc: Global,
    store: &str,
    number: u64,
) -> Result<FileDisk<R>, Memory> {
    let path = format!(in alloc; "{store}/card-{number}.sim")?;
    Ok(FileDisk::new(rt.clone()?, path))
}

/// The same facts once more.
fn copy_of(alloc: Global, facts: &CardFacts) -> Result<CardFacts, Memory>
    ensures { IfOk result (λ copy. copy ≡ facts.now) }
{
    let mut keysets = KeysetList::new(alloc);
    for listing in facts.keysets.as_slice() {
        keysets.push(listing.0, listing.1)?;
    }
    Ok(CardFacts {
        card: facts.card,
        buffer: facts.buffer,
        rfm: facts.rfm,
        ram: facts.ram,
        keysets,
        wide: facts.wide,
    })
}

/// The fault that the refusal of a card's store is.
fn fault_of(error: StoreErr) -> SiteFault
    ensures { result ≡ fault_by error }
{
    match error {
        StoreErr::Memory => SiteFault::Memory,
        StoreErr::DiskFault(DiskFault::Memory) => SiteFault::Memory,
        StoreErr::DiskFault(DiskFault::Failed) => SiteFault::Failed,
        StoreErr::NotALog => SiteFault::Failed,
        StoreErr::OtherHead(_) => SiteFault::Failed,
        StoreErr::Damaged(_) => SiteFault::Failed,
        StoreErr::Full { .. } => SiteFault::Failed,
    }
}
