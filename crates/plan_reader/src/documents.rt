//! The tables of a TOML document.

ghost use Rattle.std.specs.Prelude.{◌≡◌, [], option_map, bytes_eq, map, IfOk};
ghost use Rattle.std.specs.List.{list_any};
ghost use Rattle.toml.specs.Data.{as_table};
ghost use Rattle.toml.specs.View.{view, items_view, table_view};
ghost use Rattle.plan_reader.specs.FieldValue.{has_other_name, tables_of, tables_in, defaulted};
ghost use Rattle.plan_reader.specs.PlanTable.{document_of};
ghost use Rattle.plan_reader.specs.TableList.{tables_said};

use crate::field_values::value_at;
use ota_core::Memory;
use std::alloc::Global;
use std::str;
use toml::{Table, Value};

/// The document that octets are, if they are one.
#[tactic(auto, unfolding(crate::specs::PlanTable::document_of))]
pub(crate) fn document(alloc: Global, octets: &[u8]) -> Result<Option<Table>, Memory>
    ensures { IfOk result (λ document. option_map table_view document ≡ document_of octets.now) }
{
    let text = match str::from_utf8(octets) {
        Ok(text) => text,
        Err(_) => return Ok(None),
    };
    match toml::table_from_str(alloc, text) {
        Ok(document) => Ok(Some(document)),
        Err(err) => {
            if err.is_memory() {
                Err(Memory)
            } else {
                Ok(None)
            }
        }
    }
}

/// Whether a table has a name that isn't one of these.
pub(crate) fn has_other_name(entry: &Table, names: &[&str]) -> bool
    ensures { result ≡ has_other_name (map (λ name. name.now) names.now) (table_view entry.now) }
{
    for name in entry.keys() {
        if !is_one_of(name.as_str(), names) {
            return true;
        }
    }
    false
}

fn is_one_of(name: &str, names: &[&str]) -> bool
    ensures { result ≡ list_any (λ other. bytes_eq name.now other.now) names.now }
{
    names.iter().any(|other| name == *other)
}

/// The tables that a list of tables at a name has, none where the name is missing. No answer is that another value
/// stands there.
pub(crate) fn tables_at<'a>(
    alloc: Global,
    top: &'a Table,
    name: &str,
) -> Result<Option<Vec<&'a Table>>, Memory>
    ensures { IfOk result (λ tables. option_map tables_said tables ≡ defaulted [] tables_in name.now (table_view top.now)) }
{
    match value_at(top, name) {
        Some(value) => tables_in(alloc, value),
        None => Ok(Some(Vec::new(alloc))),
    }
}

#[tactic(auto, unfolding(crate::specs::FieldValue::tables_in))]
fn tables_in(alloc: Global, value: &Value) -> Result<Option<Vec<&Table>>, Memory>
    ensures { IfOk result (λ tables. option_map tables_said tables ≡ tables_in (view value.now)) }
{
    match value.as_array() {
        Some(items) => tables_of(alloc, items.as_slice()),
        None => Ok(None),
    }
}

fn tables_of(alloc: Global, items: &[Value]) -> Result<Option<Vec<&Table>>, Memory>
    ensures { IfOk result (λ tables. option_map tables_said tables ≡ tables_of (items_view items.now)) }
{
    let mut tables = Vec::new(alloc);
    for item in items {
        match item.as_table() {
            Some(table) => tables.push(table)?,
            None => return Ok(None),
        }
    }
    Ok(Some(tables))
}
