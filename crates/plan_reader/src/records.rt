//! The records of a CSV text.

ghost use Rattle.std.specs.Prelude.{◌≡◌, IfOk};
ghost use Rattle.std.specs.Bool.{OnTrue};
ghost use Rattle.csv.specs.Records.{fields_of};
ghost use Rattle.plan_reader.specs.JobRows.{cell, records_of};
ghost use Rattle.plan_reader.specs.RowsLeft.{IsReading, rows_left, Takes};

use csv::{ByteRecord, Reader, ReaderBuilder};
use ota_core::Memory;
use std::alloc::Global;

/// A reader of all records of a text.
pub(crate) fn open_records(alloc: Global, octets: &[u8]) -> Reader<&[u8]>
    ensures reading { IsReading result }
    ensures rows { rows_left result ≡ records_of octets.now }
{
    ReaderBuilder::new()
        .has_headers(false)
        .flexible(true)
        .from_reader(alloc, octets)
}

/// Takes the next record, if there is one.
pub(crate) fn next_record(reader: &mut Reader<&[u8]>, row: &mut ByteRecord) -> Result<bool, Memory>
    requires reading { IsReading reader.old }
    ensures reading { IfOk result (λ found. OnTrue found (IsReading reader.new)) }
    ensures takes { IfOk result (λ found. Takes (rows_left reader.old) found (fields_of row.new) (rows_left reader.new)) }
{
    let found = match reader.read_byte_record(row) {
        Ok(found) => found,
        Err(_) => return Err(Memory),
    };
    Ok(found)
}

/// The field at a place from 0; empty where the record has fewer.
pub(crate) fn cell(row: &ByteRecord, place: usize) -> &[u8]
    ensures { result.now ≡ cell place (fields_of row.now) }
{
    match row.get(place) {
        Some(field) => field,
        None => b"",
    }
}
