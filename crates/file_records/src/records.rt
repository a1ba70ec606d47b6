//! The records of a record EF.

ghost use Rattle.std.specs.Prelude.{◌≡◌, ◌+◌, ◌-◌, ◌<◌, ◌≤◌, [], ◌∷◌, length, drop, take, replicate, slice_index_or, slice_set, IfOk};
ghost use Rattle.file_records.specs.Numbers.{numbers_with};

use crate::table::Table;
use arrayvec::ArrayVec;
use ota_core::Memory;
use std::alloc::Global;
use std::marker::Model;

/// The records of a linear or cyclic EF, seen as their length and their list. There is at least one.
///
/// In a cyclic EF the record written last is record 1: it takes the place of the oldest, and no other
/// record is moved. ETSI TS 102 221, 8.2.2.2 and 8.2.2.3.
#[derive(Drop)]
pub struct Records {
    table: Table,
    first: u8,
}

impl Model for Records {
    ghost use Rattle.std.specs.Prelude.{◌<◌, length};
    ghost use Rattle.file_records.specs.Rows.{Rows, turned};

    ghost Value = { Rows };

    ghost view = { λ records. record { width = records.table.width; rows = turned records.first records.table.rows } };

    ghost invariant = { λ records. records.first < length records.table.rows };
}

impl Records {
    /// As many records as `count` says, of `width` octets, each octet the same.
    pub fn filled(alloc: Global, width: u8, count: u8, octet: u8) -> Result<Records, Memory>
        requires { 0 < count }
        ensures width { IfOk result (λ records. records.width ≡ width) }
        ensures rows { IfOk result (λ records. records.rows ≡ replicate count (replicate width octet)) }
    {
        let table = Table::filled(alloc, width, count, octet)?;
        Ok(Records { table, first: 0 })
    }

    /// The octets of a record.
    pub fn width(&self) -> u8
        ensures { result ≡ self.now.width }
    {
        self.table.width()
    }

    /// The number of records.
    pub fn count(&self) -> u8
        ensures count { result ≡ length self.now.rows }
        ensures some { 0 < result }
    {
        self.table.count()
    }

    /// Record 1.
    pub fn first(&self) -> &[u8]
        ensures row { result.now ≡ slice_index_or self.now.rows 0 [] }
        ensures width { length result.now ≡ self.now.width }
    {
        self.table.row(self.first)
    }

    /// The record of a number, from 1.
    pub fn row(&self, number: u8) -> &[u8]
        requires low { 0 < number }
        requires high { number ≤ length self.now.rows }
        ensures row { result.now ≡ slice_index_or self.now.rows (number - 1) [] }
        ensures width { length result.now ≡ self.now.width }
    {
        self.table
            .row(place_of(self.first, self.table.count(), number - 1))
    }

    /// Writes the record of a number, from 1.
    pub fn set_row(&mut self, number: u8, row: &[u8])
        requires low { 0 < number }
        requires high { number ≤ length self.old.rows }
        requires width { length row.now ≡ self.old.width }
        ensures width { self.new.width ≡ self.old.width }
        ensures rows { self.new.rows ≡ slice_set self.old.rows (number - 1) row.now }
    {
        let place = place_of(self.first, self.table.count(), number - 1);
        self.table.set_row(place, row);
    }

    /// Writes record 1 in the place of the last one, and moves all others up by one.
    pub fn push(&mut self, row: &[u8])
        requires { length row.now ≡ self.old.width }
        ensures width { self.new.width ≡ self.old.width }
        ensures rows { self.new.rows ≡ take (length self.old.rows) (row.now ∷ self.old.rows) }
    {
        let place = if self.first == 0 {
            self.table.count() - 1
        } else {
            self.first - 1
        };
        self.table.set_row(place, row);
        self.first = place;
    }

    /// The numbers of the records that begin with a pattern, from a number on.
    pub fn numbers_with(&self, from: u8, pattern: &[u8]) -> ArrayVec<u8, 256>
        requires low { 0 < from }
        requires high { from ≤ length self.now.rows }
        ensures { result.items ≡ numbers_with pattern.now from (drop (from - 1) self.now.rows) }
    {
        let mut numbers = ArrayVec::new();
        for place in from - 1..self.count() {
            if self.row(place + 1).starts_with(pattern) {
                numbers.push(place + 1);
            }
        }
        numbers
    }
}

/// The place in the table of the record that stands `distance` behind the first one.
fn place_of(first: u8, count: u8, distance: u8) -> u8
    requires first { first < count }
    requires distance { distance < count }
    ensures within { first + distance < count → result ≡ first + distance }
    ensures around { count ≤ first + distance → result + count ≡ first + distance }
{
    let room = count - first;
    if distance < room {
        first + distance
    } else {
        distance - room
    }
}
