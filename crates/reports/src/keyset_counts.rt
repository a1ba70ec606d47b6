//! How many counters of each keyset are reserved and settled.

ghost use Rattle.std.specs.Prelude.{◌≡◌, if◌then◌else◌, map, reverse, IfOk, OnOk};
ghost use Rattle.ota_core.specs.Keyset.{Keyset, is_same_keyset};
ghost use Rattle.reports.specs.Report.{entries_in};
ghost use Rattle.reports.specs.Counting.{counted, counted_entry, counts_in, MayCount, CountsAll};

use crate::lane_books::LaneBook;
use keyset_book::Settled;
use ota_core::{Entry, History, KeysetId, Memory, Reservation};
use std::alloc::Global;
use std::collections::BTreeMap;
use std::marker::Model;

/// How many counters of a keyset are reserved, and how many of these are settled so or not at all.
#[derive(Clone, Copy)]
pub(crate) struct Counts {
    pub(crate) reserved: usize,
    pub(crate) done: usize,
    pub(crate) refused: usize,
    pub(crate) unsettled: usize,
}

/// The history of a lane with its book and the counts of its keysets. Contracts see its entries.
#[derive(Drop)]
pub(crate) struct LaneCounts<'a> {
    book: LaneBook<'a>,
    table: BTreeMap<KeysetId, Counts>,
}

impl<'a> Model for LaneCounts<'a> {
    ghost use Rattle.std.specs.Prelude.{List};
    ghost use Rattle.ota_core.specs.declared.entries.Entry.{Entry};

    ghost Value = { List Entry };

    ghost use Rattle.reports.specs.Counting.{CountsAll};

    ghost view = { λ l. l.book };

    ghost invariant = { λ l. CountsAll l.book l.table };
}

impl<'a> LaneCounts<'a> {
    ghost use Rattle.std.specs.Prelude.{◌≡◌, IfOk};
    ghost use Rattle.reports.specs.Cards.{counts_of};

    /// The counts of a lane's history.
    pub(crate) fn of(alloc: Global, history: &'a History) -> Result<LaneCounts<'a>, Memory>
        ensures { IfOk result (λ lane. lane ≡ history.now.entries) }
    {
        let book = LaneBook::of(alloc, history)?;
        let table = count_all(alloc, &book)?;
        Ok(LaneCounts { book, table })
    }

    /// The lane's book.
    pub(crate) fn book(&self) -> &LaneBook<'a>
        ensures { result.now ≡ self.now }
    {
        &self.book
    }

    /// The counts of a keyset.
    pub(crate) fn of_keyset(&self, keyset: KeysetId) -> Counts
        ensures { result ≡ counts_of keyset self.now }
    {
        look(&self.table, keyset)
    }
}

/// The counts of each keyset of a lane.
fn count_all(alloc: Global, lane: &LaneBook<'_>) -> Result<BTreeMap<KeysetId, Counts>, Memory>
    ensures { IfOk result (λ table. CountsAll lane.now table) }
{
    let mut table = BTreeMap::new(alloc);
    let entries = lane.entries();
    for place in 0..entries.len() {
        count_entry(&mut table, lane, &entries[place])?;
    }
    Ok(table)
}

/// Counts what an entry reserves.
fn count_entry(
    table: &mut BTreeMap<KeysetId, Counts>,
    lane: &LaneBook<'_>,
    entry: &Entry,
) -> Result<(), Memory>
    requires { (keyset : Keyset) → MayCount (counts_in table.old keyset) }
    ensures { OnOk result ((keyset : Keyset) → counts_in table.new keyset ≡ counted_entry (reverse lane.now) keyset entry.now (counts_in table.old keyset)) }
{
    match entry {
        Entry::Reserve {
            keyset,
            counter,
            ..
        } => {
            let counter = Reservation {
                keyset: *keyset,
                counter: *counter,
            };
            let counts = counted(look(table, *keyset), lane.settlement(counter));
            put(table, *keyset, counts)?;
            Ok(())
        }
        _ => Ok(()),
    }
}

fn put(
    table: &mut BTreeMap<KeysetId, Counts>,
    keyset: KeysetId,
    counts: Counts,
) -> Result<(), Memory>
    ensures { OnOk result ((other : Keyset) → counts_in table.new other ≡ (if is_same_keyset keyset other then counts else counts_in table.old other)) }
{
    table.insert(keyset, counts)?;
    Ok(())
}

fn look(table: &BTreeMap<KeysetId, Counts>, keyset: KeysetId) -> Counts
    ensures { result ≡ counts_in table.now keyset }
{
    match table.get(&keyset) {
        Some(counts) => *counts,
        None => Counts {
            reserved: 0,
            done: 0,
            refused: 0,
            unsettled: 0,
        },
    }
}

/// The counts with one counter more, which is settled so.
fn counted(counts: Counts, settled: Option<Settled>) -> Counts
    requires { MayCount counts }
    ensures { result ≡ counted settled counts }
{
    let reserved = counts.reserved + 1;
    match settled {
        Some(Settled::Done) => Counts {
            reserved,
            done: counts.done + 1,
            ..counts
        },
        Some(Settled::Refused(_)) => Counts {
            reserved,
            refused: counts.refused + 1,
            ..counts
        },
        None => Counts {
            reserved,
            unsettled: counts.unsettled + 1,
            ..counts
        },
    }
}

/// The counts of all lanes, in order.
pub(crate) fn lane_counts<'a>(
    alloc: Global,
    histories: &'a [History],
) -> Result<Vec<LaneCounts<'a>>, Memory>
    ensures { IfOk result (λ lanes. lanes.items ≡ map entries_in histories.now) }
{
    let mut lanes = Vec::with_capacity(alloc, histories.len())?;
    for history in histories {
        lanes.push(LaneCounts::of(alloc, history)?)?;
    }
    Ok(lanes)
}
