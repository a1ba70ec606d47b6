//! The tables of a plan that list its cards.

ghost use Rattle.std.specs.Prelude.{◌≡◌, ◌≤◌, false, Some, None, [], map, length, bytes_eq, is_none, IfOk, IfErr, IfSome};
ghost use Rattle.toml.specs.View.{table_view};
ghost use Rattle.plan_reader.specs.Check.{first_wrong, is_wrong};
ghost use Rattle.plan_reader.specs.FieldValue.{has_other_name};
ghost use Rattle.plan_reader.specs.PlanTable.{card_names, number_of_card, buffer_of, rfm_of, ram_of, wide_of, has_number, card_said, card_checks, first_of_entries, Names};
ghost use Rattle.plan_reader.specs.TableList.{tables_pointed};
ghost use Rattle.plan_reader.specs.declared.tables.Table.TheVariants as which;
ghost use Rattle.plan_reader.specs.declared.tables.Field.TheVariants as field;

use crate::card_table::CardTable;
use crate::field_values::{number_at, number_or, tar_or, truth_or};
use crate::plans::PlanErr;
use crate::tables::Field;
use crate::{documents, tables};
use ota_core::{CardFacts, CardId, KeysetList, Tar};
use std::alloc::Global;
use toml::Table;

const LAST_CARD: u64 = 999_999_999_999_999_999;

/// Reads the cards that these tables list.
pub(crate) fn read_cards(alloc: Global, entries: &[&Table]) -> Result<CardTable, PlanErr>
    requires few { length entries.now ≤ 10000 }
    ensures right { IfOk result (λ _. first_of_entries which.Card card_said card_checks [] (tables_pointed entries.now) ≡ None) }
    ensures cards { IfOk result (λ cards. cards ≡ map card_said (tables_pointed entries.now)) }
    ensures few { IfOk result (λ cards. length cards ≤ 10000) }
    ensures err { IfErr result (Names (first_of_entries which.Card card_said card_checks [] (tables_pointed entries.now))) }
{
    let mut cards = CardTable::new(alloc);
    let mut row: u32 = 0;
    for entry in entries {
        row += 1;
        match read_card(alloc, entry, &cards) {
            Ok(card) => cards = cards.with_card(card)?,
            Err(wrong) => return Err(PlanErr::Refused(tables::Table::Card, row, wrong)),
        }
    }
    Ok(cards)
}

/// Reads a card, with the cards in front of it.
#[tactic(auto, unfolding(crate::specs::PlanTable::card_said))]
fn read_card(alloc: Global, entry: &Table, before: &CardTable) -> Result<CardFacts, Field>
    ensures right { IfOk result (λ _. first_wrong (card_checks before.now (table_view entry.now)) ≡ None) }
    ensures card { IfOk result (λ card. card ≡ card_said (table_view entry.now)) }
    ensures new { IfOk result (λ card. has_number card.card.0 before.now ≡ false) }
    ensures err { IfErr result (λ wrong. first_wrong (card_checks before.now (table_view entry.now)) ≡ Some wrong) }
{
    if has_other_name(entry) {
        return Err(Field::Unknown);
    }
    let number = new_number(entry, before).ok_or(Field::Number)?;
    let buffer = buffer(entry).ok_or(Field::Buffer)?;
    let rfm = rfm(entry).ok_or(Field::Rfm)?;
    let ram = other_ram(entry, rfm).ok_or(Field::Ram)?;
    let wide = wide(entry).ok_or(Field::Wide)?;
    Ok(CardFacts {
        card: CardId(number),
        buffer,
        rfm,
        ram,
        keysets: KeysetList::new(alloc),
        wide,
    })
}

#[tactic(auto, unfolding(crate::specs::PlanTable::card_names))]
fn has_other_name(entry: &Table) -> bool
    ensures { result ≡ has_other_name card_names (table_view entry.now) }
{
    documents::has_other_name(entry, &["number", "buffer", "rfm", "ram", "wide"])
}

/// The number of a card, if it is right and none of the cards in front has it.
fn new_number(entry: &Table, before: &CardTable) -> Option<u64>
    ensures wrong { is_none result ≡ is_wrong (λ number. has_number number before.now) (number_of_card (table_view entry.now)) }
    ensures read { IfSome result (λ number. number_of_card (table_view entry.now) ≡ Some number) }
    ensures new { IfSome result (λ number. has_number number before.now ≡ false) }
{
    let number = number(entry)?;
    if before.has(number) {
        return None;
    }
    Some(number)
}

#[tactic(auto, unfolding(crate::specs::PlanTable::number_of_card))]
fn number(entry: &Table) -> Option<u64>
    ensures { result ≡ number_of_card (table_view entry.now) }
{
    number_at(entry, "number", 0, LAST_CARD)
}

#[tactic(auto, unfolding(crate::specs::PlanTable::buffer_of))]
fn buffer(entry: &Table) -> Option<u32>
    ensures { result ≡ buffer_of (table_view entry.now) }
{
    match number_or(entry, "buffer", 1024, 1, 4096) {
        Some(buffer) => Some(buffer as u32),
        None => None,
    }
}

#[tactic(auto, unfolding(crate::specs::PlanTable::rfm_of))]
fn rfm(entry: &Table) -> Option<Tar>
    ensures { result ≡ rfm_of (table_view entry.now) }
{
    tar_or(entry, "rfm", Tar([0xb0, 0x00, 0x10]))
}

/// The reference of remote application management, if it is right and another than that of file management.
fn other_ram(entry: &Table, rfm: Tar) -> Option<Tar>
    ensures wrong { is_none result ≡ is_wrong (λ ram. bytes_eq ram rfm) (ram_of (table_view entry.now)) }
    ensures read { IfSome result (λ ram. ram_of (table_view entry.now) ≡ Some ram) }
{
    let ram = ram(entry)?;
    if is_same_tar(ram, rfm) {
        return None;
    }
    Some(ram)
}

fn is_same_tar(first: Tar, second: Tar) -> bool
    ensures { result ≡ bytes_eq first second }
{
    first.0 == second.0
}

#[tactic(auto, unfolding(crate::specs::PlanTable::ram_of))]
fn ram(entry: &Table) -> Option<Tar>
    ensures { result ≡ ram_of (table_view entry.now) }
{
    tar_or(entry, "ram", Tar([0x00, 0x00, 0x00]))
}

#[tactic(auto, unfolding(crate::specs::PlanTable::wide_of))]
fn wide(entry: &Table) -> Option<bool>
    ensures { result ≡ wide_of (table_view entry.now) }
{
    truth_or(entry, "wide", false)
}
