//! The reserved counters of a book.

ghost use Rattle.std.specs.Prelude.{◌≡◌, ◌<◌, true, None, Some, is_some, is_ok, length, slice_set, OnOk};
ghost use Rattle.std.specs.BTreeMap.{get};
ghost use Rattle.ota_core.specs.Entry.{Reservation};
ghost use Rattle.keyset_book.specs.Tables.{row_cmp, row_of, column_of, standing_in, position_in, has_counter_place, FillsRow, FillsCounter, FillsPosition, SamePositions};
ghost use Rattle.keyset_book.specs.declared.counter_table.Row.{Row};

use ota_core::{Counter, KeysetId, Memory, Reservation};
use std::alloc::Global;
use std::collections::BTreeMap;
use std::marker::Model;

/// How a reserved counter stands.
#[derive(Clone, Copy, Debug, PartialEq, Eq)]
pub(crate) enum Standing {
    /// It has no settlement.
    Unsettled,
    /// The card ran the script.
    Done,
    /// The card used the counter up and ran nothing, with this status.
    Refused(u8),
}

/// How many counters that follow one another stand in a row.
const ROW: usize = 8;

/// A row of counters of a keyset, in the order of keysets and then of rows. Its number is that of its counters divided by
/// their number in a row.
#[derive(Clone, Copy, Debug, PartialEq, Eq, PartialOrd, Ord)]
pub(crate) struct RowId {
    keyset: KeysetId,
    row: Counter,
}

impl Model for RowId {
    ghost use Rattle.ota_core.specs.Entry.{Reservation};

    ghost Value = { Reservation };

    ghost view = { λ r. record { keyset = r.keyset; counter = r.row } };

    ghost inverse = { λ r. record { keyset = r.keyset; row = r.counter } };
}

/// A row of counters. An array for each takes less memory than one of pairs.
#[derive(Clone, Copy, Debug, PartialEq, Eq)]
pub(crate) struct Row {
    /// How each counter stands, where it is reserved.
    standings: [Option<Standing>; ROW],
    /// The position in the history, from 0, of the entry that reserves each counter.
    positions: [u64; ROW],
}

/// Each reserved counter of a history, with its position there and its settlement. A keyset's counters follow one another, so they are kept in
/// rows. A place may be made before it is filled: its whole row is.
#[derive(Drop)]
pub(crate) struct CounterTable {
    rows: BTreeMap<RowId, Row>,
}

impl CounterTable {
    /// The empty table.
    pub(crate) fn new(alloc: Global) -> CounterTable
        ensures { (counter : Reservation) → standing_in result counter ≡ None }
    {
        CounterTable {
            rows: BTreeMap::new(alloc),
        }
    }

    /// How the counter stands, where it is reserved.
    pub(crate) fn look(&self, counter: Reservation) -> Option<Standing>
        ensures { result ≡ standing_in self.now counter }
    {
        match self.rows.get(&row_of(counter)) {
            Some(row) => row.standings[column_of(counter)],
            None => None,
        }
    }

    /// The position at which the counter was reserved last, or 0 where it never was.
    pub(crate) fn position(&self, counter: Reservation) -> u64
        ensures { result ≡ position_in self.now counter }
    {
        match self.rows.get(&row_of(counter)) {
            Some(row) => row.positions[column_of(counter)],
            None => 0,
        }
    }

    /// Makes a place for the counter, if there is none.
    pub(crate) fn make_place(&mut self, counter: Reservation) -> Result<(), Memory>
        ensures same { (other : Reservation) → standing_in self.new other ≡ standing_in self.old other }
        ensures positions { SamePositions self.old self.new }
        ensures kept { (other : Reservation) → has_counter_place self.old other ≡ true → has_counter_place self.new other ≡ true }
        ensures made { OnOk result (has_counter_place self.new counter ≡ true) }
        ensures there { has_counter_place self.old counter ≡ true → is_ok result ≡ true }
    {
        let row = row_of(counter);
        if self.rows.contains_key(&row) {
            return Ok(());
        }
        self.rows.insert(
            row,
            Row {
                standings: [None; ROW],
                positions: [0; ROW],
            },
        )?;
        Ok(())
    }

    /// Puts the counter's reservation in its place. Where there is none, nothing is done.
    pub(crate) fn reserve(&mut self, counter: Reservation, position: u64)
        ensures filled { has_counter_place self.old counter ≡ true → FillsCounter self.old counter Standing.Unsettled self.new }
        ensures position { has_counter_place self.old counter ≡ true → FillsPosition self.old counter position self.new }
        ensures kept { (other : Reservation) → has_counter_place self.old other ≡ true → has_counter_place self.new other ≡ true }
    {
        let id = row_of(counter);
        if let Some(row) = self.rows.get(&id) {
            let filled = with_reservation(row, column_of(counter), position);
            self.fill_row(id, filled);
        }
    }

    /// Puts the counter's settlement in its place. Where there is none, nothing is done.
    pub(crate) fn settle(&mut self, counter: Reservation, standing: Standing)
        ensures filled { has_counter_place self.old counter ≡ true → FillsCounter self.old counter standing self.new }
        ensures positions { SamePositions self.old self.new }
        ensures kept { (other : Reservation) → has_counter_place self.old other ≡ true → has_counter_place self.new other ≡ true }
    {
        let id = row_of(counter);
        if let Some(row) = self.rows.get(&id) {
            let filled = with_standing(row, column_of(counter), standing);
            self.fill_row(id, filled);
        }
    }

    /// Fills a row. Where there is none, nothing is done.
    fn fill_row(&mut self, id: RowId, filled: Row)
        ensures filled { is_some (get row_cmp self.old.rows id) ≡ true → FillsRow self.old id filled self.new }
        ensures kept { (other : Reservation) → is_some (get row_cmp self.old.rows other) ≡ true → is_some (get row_cmp self.new.rows other) ≡ true }
    {
        if let Some(row) = self.rows.get_mut(&id) {
            *row = filled;
        }
    }
}

/// The row with a counter that is reserved at this position.
fn with_reservation(row: &Row, column: usize, position: u64) -> Row
    requires { column < 8 }
    ensures standings { result.standings ≡ slice_set row.now.standings column (Some Standing.Unsettled) }
    ensures positions { result.positions ≡ slice_set row.now.positions column position }
    ensures long { length row.now.standings ≡ 8 }
    ensures placed { length row.now.positions ≡ 8 }
{
    let mut filled = *row;
    filled.standings[column] = Some(Standing::Unsettled);
    filled.positions[column] = position;
    filled
}

/// The row with a counter that stands so.
fn with_standing(row: &Row, column: usize, standing: Standing) -> Row
    requires { column < 8 }
    ensures standings { result.standings ≡ slice_set row.now.standings column (Some standing) }
    ensures positions { result.positions ≡ row.now.positions }
    ensures long { length row.now.standings ≡ 8 }
{
    let mut filled = *row;
    filled.standings[column] = Some(standing);
    filled
}

/// The row in which the counter stands.
fn row_of(counter: Reservation) -> RowId
    ensures { result ≡ row_of counter }
{
    RowId {
        keyset: counter.keyset,
        row: Counter(counter.counter.0 / ROW as u64),
    }
}

/// The counter's place in its row, from 0.
fn column_of(counter: Reservation) -> usize
    ensures value { result ≡ column_of counter }
    ensures below { result < 8 }
{
    (counter.counter.0 % ROW as u64) as usize
}
