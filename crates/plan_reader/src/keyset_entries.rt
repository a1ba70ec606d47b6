//! The tables of a plan that list its keysets.

ghost use Rattle.std.specs.Prelude.{◌≡◌, ◌≤◌, ◌==◌, ◌&&◌, not, false, true, Some, None, [], map, length, is_none, IfOk, IfErr, IfSome};
ghost use Rattle.toml.specs.View.{table_view};
ghost use Rattle.plan_reader.specs.Check.{first_wrong, is_wrong};
ghost use Rattle.plan_reader.specs.FieldValue.{has_other_name};
ghost use Rattle.plan_reader.specs.PlanTable.{keyset_names, card_of_keyset, kvn_of, kic_of, kid_of, cipher_of, mode_of, base_of, put_of, has_number, lists_keyset, has_kid, keyset_said, keyset_checks, first_of_entries, Names};
ghost use Rattle.plan_reader.specs.TableList.{tables_pointed};
ghost use Rattle.plan_reader.specs.declared.tables.Table.TheVariants as which;
ghost use Rattle.plan_reader.specs.declared.tables.Field.TheVariants as field;

use crate::card_table::CardTable;
use crate::field_values::{counter_or, key_at, mode_or, number_at, truth_or};
use crate::keyset_table::{KeysetTable, Listing};
use crate::plans::PlanErr;
use crate::tables::Field;
use crate::{documents, tables};
use ota_core::{CardId, Counter, KeyBytes, KeysetFacts, KeysetId, Mode};
use std::alloc::Global;
use toml::Table;

const LAST_CARD: u64 = 999_999_999_999_999_999;

/// Reads the keysets that these tables list for cards.
pub(crate) fn read_keysets(
    alloc: Global,
    entries: &[&Table],
    cards: &CardTable,
) -> Result<KeysetTable, PlanErr>
    requires few { length entries.now ≤ 20000 }
    ensures right { IfOk result (λ _. first_of_entries which.Keyset keyset_said (keyset_checks cards.now) [] (tables_pointed entries.now) ≡ None) }
    ensures keysets { IfOk result (λ keysets. keysets ≡ map keyset_said (tables_pointed entries.now)) }
    ensures err { IfErr result (Names (first_of_entries which.Keyset keyset_said (keyset_checks cards.now) [] (tables_pointed entries.now))) }
{
    let mut keysets = KeysetTable::new(alloc);
    let mut row: u32 = 0;
    for entry in entries {
        row += 1;
        match read_keyset(entry, cards, &keysets) {
            Ok(listing) => keysets = keysets.with_keyset(alloc, listing)?,
            Err(wrong) => return Err(PlanErr::Refused(tables::Table::Keyset, row, wrong)),
        }
    }
    Ok(keysets)
}

/// Reads a keyset, with the cards and with the keysets in front of it.
#[tactic(auto, unfolding(crate::specs::PlanTable::keyset_said))]
fn read_keyset(entry: &Table, cards: &CardTable, before: &KeysetTable) -> Result<Listing, Field>
    ensures right { IfOk result (λ _. first_wrong (keyset_checks cards.now before.now (table_view entry.now)) ≡ None) }
    ensures keyset { IfOk result (λ keyset. keyset ≡ keyset_said (table_view entry.now)) }
    ensures new { IfOk result (λ keyset. lists_keyset keyset.id before.now ≡ false) }
    ensures err { IfErr result (λ wrong. first_wrong (keyset_checks cards.now before.now (table_view entry.now)) ≡ Some wrong) }
{
    if has_other_name(entry) {
        return Err(Field::Unknown);
    }
    let card = listed_card(entry, cards).ok_or(Field::CardOf)?;
    let id = new_id(entry, card, before).ok_or(Field::Kvn)?;
    let kic = kic(entry).ok_or(Field::Kic)?;
    let kid = new_kid(entry, before).ok_or(Field::Kid)?;
    let ciphered = ciphered(entry).ok_or(Field::Cipher)?;
    let mode = mode(entry).ok_or(Field::Mode)?;
    let base = base(entry).ok_or(Field::Base)?;
    let later = later(entry, base).ok_or(Field::Put)?;
    Ok(Listing {
        id,
        facts: KeysetFacts {
            base,
            mode,
            ciphered,
            kic,
            kid,
        },
        later,
    })
}

#[tactic(auto, unfolding(crate::specs::PlanTable::keyset_names))]
fn has_other_name(entry: &Table) -> bool
    ensures { result ≡ has_other_name keyset_names (table_view entry.now) }
{
    documents::has_other_name(
        entry,
        &["card", "kvn", "kic", "kid", "cipher", "mode", "base", "put"],
    )
}

/// The card of a keyset, if it is right and among these.
fn listed_card(entry: &Table, cards: &CardTable) -> Option<u64>
    ensures wrong { is_none result ≡ is_wrong (λ card. not (has_number card cards.now)) (card_of_keyset (table_view entry.now)) }
    ensures read { IfSome result (λ card. card_of_keyset (table_view entry.now) ≡ Some card) }
{
    let card = card(entry)?;
    if !cards.has(card) {
        return None;
    }
    Some(card)
}

#[tactic(auto, unfolding(crate::specs::PlanTable::card_of_keyset))]
fn card(entry: &Table) -> Option<u64>
    ensures { result ≡ card_of_keyset (table_view entry.now) }
{
    number_at(entry, "card", 0, LAST_CARD)
}

/// The name of a keyset of this card, if its number is right and none of the keysets in front has it.
fn new_id(entry: &Table, card: u64, before: &KeysetTable) -> Option<KeysetId>
    ensures wrong { is_none result ≡ is_wrong (λ kvn. lists_keyset (record { card = record { 0 = card }; kvn = kvn }) before.now) (kvn_of (table_view entry.now)) }
    ensures card { IfSome result (λ id. id.card.0 ≡ card) }
    ensures read { IfSome result (λ id. kvn_of (table_view entry.now) ≡ Some id.kvn) }
    ensures new { IfSome result (λ id. lists_keyset id before.now ≡ false) }
{
    let kvn = kvn(entry)?;
    let id = KeysetId {
        card: CardId(card),
        kvn,
    };
    if before.has(id) {
        return None;
    }
    Some(id)
}

#[tactic(auto, unfolding(crate::specs::PlanTable::kvn_of))]
fn kvn(entry: &Table) -> Option<u8>
    ensures read { result ≡ kvn_of (table_view entry.now) }
    ensures above { IfSome result (λ kvn. 1 ≤ kvn) }
    ensures below { IfSome result (λ kvn. kvn ≤ 15) }
{
    match number_at(entry, "kvn", 1, 15) {
        Some(kvn) => Some(kvn as u8),
        None => None,
    }
}

#[tactic(auto, unfolding(crate::specs::PlanTable::kic_of))]
fn kic(entry: &Table) -> Option<KeyBytes>
    ensures { result ≡ kic_of (table_view entry.now) }
{
    key_at(entry, "kic")
}

/// The key for the checksum, if it is right and none of the keysets in front has it.
fn new_kid(entry: &Table, before: &KeysetTable) -> Option<KeyBytes>
    ensures wrong { is_none result ≡ is_wrong (λ kid. has_kid kid before.now) (kid_of (table_view entry.now)) }
    ensures read { IfSome result (λ kid. kid_of (table_view entry.now) ≡ Some kid) }
{
    let kid = kid(entry)?;
    if before.has_kid(&kid) {
        return None;
    }
    Some(kid)
}

#[tactic(auto, unfolding(crate::specs::PlanTable::kid_of))]
fn kid(entry: &Table) -> Option<KeyBytes>
    ensures { result ≡ kid_of (table_view entry.now) }
{
    key_at(entry, "kid")
}

#[tactic(auto, unfolding(crate::specs::PlanTable::cipher_of))]
fn ciphered(entry: &Table) -> Option<bool>
    ensures { result ≡ cipher_of (table_view entry.now) }
{
    truth_or(entry, "cipher", true)
}

#[tactic(auto, unfolding(crate::specs::PlanTable::mode_of))]
fn mode(entry: &Table) -> Option<Mode>
    ensures { result ≡ mode_of (table_view entry.now) }
{
    mode_or(entry, "mode", Mode::Higher)
}

#[tactic(auto, unfolding(crate::specs::PlanTable::base_of))]
fn base(entry: &Table) -> Option<Counter>
    ensures { result ≡ base_of (table_view entry.now) }
{
    counter_or(entry, "base", Counter(0))
}

/// Whether the keyset is put later, where its base allows it.
fn later(entry: &Table, base: Counter) -> Option<bool>
    ensures wrong { is_none result ≡ is_wrong (λ put. put && not (base == 0)) (put_of (table_view entry.now)) }
    ensures read { IfSome result (λ put. put_of (table_view entry.now) ≡ Some put) }
{
    let put = put(entry)?;
    if put && base != Counter(0) {
        return None;
    }
    Some(put)
}

#[tactic(auto, unfolding(crate::specs::PlanTable::put_of))]
fn put(entry: &Table) -> Option<bool>
    ensures { result ≡ put_of (table_view entry.now) }
{
    truth_or(entry, "put", false)
}
