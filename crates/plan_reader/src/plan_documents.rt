//! A plan as a TOML document.

ghost use Rattle.std.specs.Prelude.{◌≡◌, ◌≤◌, ◌<◌, Some, None, Ok, [], map, length, option_map, IsTrue, IfOk, IfErr};
ghost use Rattle.toml.specs.View.{table_view};
ghost use Rattle.plan_reader.specs.FieldValue.{has_other_name};
ghost use Rattle.plan_reader.specs.PlanTable.{top_names, campaign_of, cards_of, keysets_of, card_list, keyset_list, top_checks, keyset_list_checks, first_in_plan, plan_of_lists, with_issued, plan_in, plan_of, Names, RefusesPlan};
ghost use Rattle.plan_reader.specs.Check.{first_wrong};
ghost use Rattle.plan_reader.specs.TableList.{tables_said};
ghost use Rattle.plan_reader.specs.CardPlaces.{have_own_numbers};
ghost use Rattle.plan_reader.specs.LaterKeysets.{AreLater, AreOfCards};

use crate::card_entries::read_cards;
use crate::card_table::CardTable;
use crate::documents::{document, tables_at};
use crate::field_values::number_at;
use crate::keyset_entries::read_keysets;
use crate::keyset_table::KeysetTable;
use crate::plans::{LaterList, Plan, PlanErr};
use crate::tables::Field;
use crate::{documents, tables};
use ota_core::Memory;
use std::alloc::Global;
use toml::Table;

const LAST_CAMPAIGN: u64 = 4_294_967_295;

const MOST_CARDS: usize = 10_000;

const MOST_KEYSETS: usize = 20_000;

/// Reads a plan: a TOML document with the campaign's number, its cards and their keysets. It is refused exactly with
/// the first thing that is wrong, in this order: the document, the top, the cards, the keysets. No two cards of a plan
/// have one number; a keyset that is put later begins at 0, on a card that isn't issued with it.
#[tactic(auto, unfolding(crate::specs::PlanTable::plan_of))]
pub fn read_plan(alloc: Global, octets: &[u8]) -> Result<Plan, PlanErr>
    ensures ok { IfOk result (λ plan. plan_of octets.now ≡ Ok plan) }
    ensures err { IfErr result (RefusesPlan (plan_of octets.now)) }
    ensures distinct { IfOk result (λ plan. IsTrue (have_own_numbers plan.cards)) }
    ensures few { IfOk result (λ plan. length plan.cards ≤ 10000) }
    ensures later { IfOk result (λ plan. AreLater plan plan.later) }
{
    match document(alloc, octets)? {
        Some(top) => read_top(alloc, &top),
        None => Err(PlanErr::Refused(tables::Table::Top, 0, Field::Text)),
    }
}

/// Reads the plan that a document says.
#[tactic(auto, unfolding(crate::specs::PlanTable::first_in_plan, crate::specs::PlanTable::plan_in))]
fn read_top(alloc: Global, top: &Table) -> Result<Plan, PlanErr>
    ensures right { IfOk result (λ _. first_in_plan (table_view top.now) ≡ None) }
    ensures plan { IfOk result (λ plan. plan ≡ plan_in (table_view top.now)) }
    ensures distinct { IfOk result (λ plan. IsTrue (have_own_numbers plan.cards)) }
    ensures few { IfOk result (λ plan. length plan.cards ≤ 10000) }
    ensures later { IfOk result (λ plan. AreLater plan plan.later) }
    ensures err { IfErr result (Names (first_in_plan (table_view top.now))) }
{
    let (campaign, cards) = read_front(alloc, top)?;
    let cards = read_cards(alloc, cards.as_slice())?;
    let listed = read_keyset_list(alloc, top)?;
    let keysets = read_keysets(alloc, listed.as_slice(), &cards)?;
    Ok(make_plan(alloc, campaign, cards, &keysets)?)
}

/// Reads the top of a plan, with the tables that list its cards.
fn read_front<'a>(alloc: Global, top: &'a Table) -> Result<(u32, Vec<&'a Table>), PlanErr>
    ensures right { IfOk result (λ _. first_wrong (top_checks (table_view top.now)) ≡ None) }
    ensures campaign { IfOk result (λ front. campaign_of (table_view top.now) ≡ Some front.0) }
    ensures cards { IfOk result (λ front. tables_said front.1 ≡ card_list (table_view top.now)) }
    ensures few { IfOk result (λ front. length front.1.items ≤ 10000) }
    ensures err { IfErr result (Names (first_wrong (top_checks (table_view top.now)))) }
{
    if has_other_name(top) {
        return Err(PlanErr::Refused(tables::Table::Top, 0, Field::Unknown));
    }
    let campaign = match campaign(top) {
        Some(campaign) => campaign,
        None => return Err(PlanErr::Refused(tables::Table::Top, 0, Field::Campaign)),
    };
    let cards = match cards(alloc, top)? {
        Some(cards) => cards,
        None => return Err(PlanErr::Refused(tables::Table::Card, 0, Field::Text)),
    };
    if cards.len() > MOST_CARDS {
        return Err(PlanErr::Refused(tables::Table::Card, 0, Field::TooMany));
    }
    Ok((campaign, cards))
}

/// The tables that list a plan's keysets.
fn read_keyset_list<'a>(alloc: Global, top: &'a Table) -> Result<Vec<&'a Table>, PlanErr>
    ensures right { IfOk result (λ _. first_wrong (keyset_list_checks (table_view top.now)) ≡ None) }
    ensures keysets { IfOk result (λ keysets. tables_said keysets ≡ keyset_list (table_view top.now)) }
    ensures few { IfOk result (λ keysets. length keysets.items ≤ 20000) }
    ensures err { IfErr result (Names (first_wrong (keyset_list_checks (table_view top.now)))) }
{
    let keysets = match keysets(alloc, top)? {
        Some(keysets) => keysets,
        None => return Err(PlanErr::Refused(tables::Table::Keyset, 0, Field::Text)),
    };
    if keysets.len() > MOST_KEYSETS {
        return Err(PlanErr::Refused(tables::Table::Keyset, 0, Field::TooMany));
    }
    Ok(keysets)
}

#[tactic(auto, unfolding(crate::specs::PlanTable::top_names))]
fn has_other_name(top: &Table) -> bool
    ensures { result ≡ has_other_name top_names (table_view top.now) }
{
    documents::has_other_name(top, &["campaign", "card", "keyset"])
}

#[tactic(auto, unfolding(crate::specs::PlanTable::campaign_of))]
fn campaign(top: &Table) -> Option<u32>
    ensures { result ≡ campaign_of (table_view top.now) }
{
    match number_at(top, "campaign", 0, LAST_CAMPAIGN) {
        Some(campaign) => Some(campaign as u32),
        None => None,
    }
}

#[tactic(auto, unfolding(crate::specs::PlanTable::cards_of))]
fn cards<'a>(alloc: Global, top: &'a Table) -> Result<Option<Vec<&'a Table>>, Memory>
    ensures { IfOk result (λ cards. option_map tables_said cards ≡ cards_of (table_view top.now)) }
{
    tables_at(alloc, top, "card")
}

#[tactic(auto, unfolding(crate::specs::PlanTable::keysets_of))]
fn keysets<'a>(alloc: Global, top: &'a Table) -> Result<Option<Vec<&'a Table>>, Memory>
    ensures { IfOk result (λ keysets. option_map tables_said keysets ≡ keysets_of (table_view top.now)) }
{
    tables_at(alloc, top, "keyset")
}

/// The plan with these cards and keysets, each keyset on its card or among those that are put later.
fn make_plan(
    alloc: Global,
    campaign: u32,
    cards: CardTable,
    keysets: &KeysetTable,
) -> Result<Plan, Memory>
    requires bare { map (with_issued []) cards ≡ cards }
    requires few { length cards ≤ 10000 }
    requires right { AreOfCards cards keysets.now }
    ensures plan { IfOk result (λ plan. plan ≡ plan_of_lists campaign cards keysets.now) }
    ensures distinct { IfOk result (λ plan. IsTrue (have_own_numbers plan.cards)) }
    ensures few { IfOk result (λ plan. length plan.cards ≤ 10000) }
    ensures later { IfOk result (λ plan. AreLater plan plan.later) }
{
    let mut cards = cards;
    let mut later = LaterList::new(alloc);
    for listing in keysets.as_slice() {
        if listing.later {
            later.push(listing.id, listing.facts)?;
        } else {
            cards = cards.with_keyset(listing.id, listing.facts)?;
        }
    }
    Ok(Plan {
        campaign,
        cards: cards.into_cards(),
        later,
    })
}
