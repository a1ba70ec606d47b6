//! Records in one buffer.

ghost use Rattle.std.specs.Prelude.{◌≡◌, ◌≢◌, ℕ, ◌+◌, ◌*◌, ◌^◌, ◌<◌, ◌≤◌, [], length, replicate, slice_index_or, slice_set, IfOk};

use crate::span::{filled, octets_at, write_at};
use ota_core::Memory;
use std::alloc::Global;
use std::marker::Model;

/// Records of one length, one behind the other in a buffer; seen as their list.
#[derive(Drop)]
pub(crate) struct Table {
    octets: Vec<u8>,
    width: u8,
    count: u8,
}

impl Model for Table {
    ghost use Rattle.std.specs.Prelude.{◌≡◌, ◌*◌, length};
    ghost use Rattle.file_records.specs.Rows.{Rows, rows_in};

    ghost Value = { Rows };

    ghost view = { λ table. record { width = table.width; rows = rows_in table.width table.count table.octets.items } };

    ghost invariant = { λ table. length table.octets.items ≡ table.width * table.count };
}

impl Table {
    /// As many records as `count` says, of `width` octets, each octet the same.
    pub(crate) fn filled(alloc: Global, width: u8, count: u8, octet: u8) -> Result<Table, Memory>
        ensures width { IfOk result (λ table. table.width ≡ width) }
        ensures rows { IfOk result (λ table. table.rows ≡ replicate count (replicate width octet)) }
    {
        let octets = filled(alloc, start_of(count, width), octet)?;
        Ok(Table {
            octets,
            width,
            count,
        })
    }

    /// The octets of a record.
    pub(crate) fn width(&self) -> u8
        ensures { result ≡ self.now.width }
    {
        self.width
    }

    /// The number of records.
    pub(crate) fn count(&self) -> u8
        ensures { result ≡ length self.now.rows }
    {
        self.count
    }

    /// The record at a place, from 0.
    pub(crate) fn row(&self, place: u8) -> &[u8]
        requires { place < length self.now.rows }
        ensures row { result.now ≡ slice_index_or self.now.rows place [] }
        ensures width { length result.now ≡ self.now.width }
    {
        let start = start_of(place, self.width);
        octets_at(&self.octets, start, usize::from(self.width))
    }

    /// Writes the record at a place, from 0.
    pub(crate) fn set_row(&mut self, place: u8, row: &[u8])
        requires place { place < length self.old.rows }
        requires width { length row.now ≡ self.old.width }
        ensures width { self.new.width ≡ self.old.width }
        ensures rows { self.new.rows ≡ slice_set self.old.rows place row.now }
    {
        let start = start_of(place, self.width);
        write_at(&mut self.octets, start, row);
    }
}

/// The place in the buffer where the record at a place begins.
fn start_of(place: u8, width: u8) -> usize
    ensures { result ≡ place * width }
{
    usize::from(place) * usize::from(width)
}
