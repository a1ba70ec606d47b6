//! Lanes with their books and the places of their entries.

ghost use Rattle.std.specs.Prelude.{◌≡◌, ◌<◌, length, map, if◌then◌else◌, Some, is_some, IfOk, OnOk};
ghost use Rattle.std.specs.BTreeMap.{get};
ghost use Rattle.ota_core.specs.Entry.{Reservation, is_settlement_of};
ghost use Rattle.ota_core.specs.Questions.{reserved_in, reserved_for};
ghost use Rattle.ota_core.specs.declared.jobs.JobId.{JobId};
ghost use Rattle.keyset_book.specs.Tables.{job_cmp};
ghost use Rattle.reports.specs.Report.{entries_in, history_of};
ghost use Rattle.reports.specs.Places.{counter_cmp, FindsReserves, FindsSettlements};

use crate::lane_books::{LaneBook, lane_of};
use crate::places::{CounterKey, counter_key};
use ota_core::{Entry, History, JobId, KeysetId, Memory, Reservation, Reserved};
use std::alloc::Global;
use std::collections::BTreeMap;
use std::marker::Model;

/// The history of a lane with its book and with the places at which jobs were reserved last and counters settled.
/// Contracts see its entries.
#[derive(Drop)]
pub(crate) struct LaneIndex<'a> {
    book: LaneBook<'a>,
    /// The place of each job's last Reserve among the entries.
    reserves: BTreeMap<JobId, usize>,
    /// The place of each counter's settlement among the entries.
    settlements: BTreeMap<CounterKey, usize>,
}

impl<'a> Model for LaneIndex<'a> {
    ghost use Rattle.std.specs.Prelude.{List};
    ghost use Rattle.ota_core.specs.declared.entries.Entry.{Entry};

    ghost Value = { List Entry };

    ghost use Rattle.reports.specs.Places.{FindsReserves, FindsSettlements};

    ghost view = { λ l. l.book };

    ghost invariant = { λ l. FindsReserves l.book l.reserves × FindsSettlements l.book l.settlements };
}

impl<'a> LaneIndex<'a> {
    ghost use Rattle.std.specs.Prelude.{◌≡◌, reverse, find, IfOk};
    ghost use Rattle.std.specs.Option.{option_copied};
    ghost use Rattle.ota_core.specs.Entry.{is_settlement_of};
    ghost use Rattle.ota_core.specs.Questions.{last_reserved};

    /// The index of a lane's history.
    pub(crate) fn of(alloc: Global, history: &'a History) -> Result<LaneIndex<'a>, Memory>
        ensures { IfOk result (λ lane. lane ≡ history.now.entries) }
    {
        let book = LaneBook::of(alloc, history)?;
        let reserves = reserves_in(alloc, book.entries())?;
        let settlements = settlements_in(alloc, book.entries())?;
        Ok(LaneIndex {
            book,
            reserves,
            settlements,
        })
    }

    /// The lane's book.
    pub(crate) fn book(&self) -> &LaneBook<'a>
        ensures { result.now ≡ self.now }
    {
        &self.book
    }

    /// What is reserved for the job last.
    pub(crate) fn last_reserved(&self, job: JobId) -> Option<Reserved<'a>>
        ensures { result ≡ last_reserved job (reverse self.now) }
    {
        let place = self.reserves.get(&job)?;
        reserved_in(self.book.entries().get(*place)?)
    }

    /// The entry that settles the counter.
    pub(crate) fn settlement(&self, counter: Reservation) -> Option<&'a Entry>
        ensures { option_copied result ≡ find (is_settlement_of counter) (reverse self.now) }
    {
        let place = self.settlements.get(&counter_key(counter))?;
        self.book.entries().get(*place)
    }
}

/// The place of each job's last Reserve.
fn reserves_in(alloc: Global, entries: &[Entry]) -> Result<BTreeMap<JobId, usize>, Memory>
    ensures { IfOk result (λ places. FindsReserves entries.now places) }
{
    let mut places = BTreeMap::new(alloc);
    for place in 0..entries.len() {
        put_reserve(&mut places, &entries[place], place)?;
    }
    Ok(places)
}

fn put_reserve(
    places: &mut BTreeMap<JobId, usize>,
    entry: &Entry,
    place: usize,
) -> Result<(), Memory>
    ensures { OnOk result ((job : JobId) → get job_cmp places.new job ≡ (if is_some (reserved_for job entry.now) then Some place else get job_cmp places.old job)) }
{
    if let Entry::Reserve { job, .. } = entry {
        places.insert(*job, place)?;
    }
    Ok(())
}

/// The place of each counter's settlement.
fn settlements_in(alloc: Global, entries: &[Entry]) -> Result<BTreeMap<CounterKey, usize>, Memory>
    ensures { IfOk result (λ places. FindsSettlements entries.now places) }
{
    let mut places = BTreeMap::new(alloc);
    for place in 0..entries.len() {
        put_settlement(&mut places, &entries[place], place)?;
    }
    Ok(places)
}

fn put_settlement(
    places: &mut BTreeMap<CounterKey, usize>,
    entry: &Entry,
    place: usize,
) -> Result<(), Memory>
    ensures { OnOk result ((counter : Reservation) → get counter_cmp places.new counter ≡ (if is_settlement_of counter entry.now then Some place else get counter_cmp places.old counter)) }
{
    match entry {
        Entry::Done {
            keyset,
            counter,
            ..
        }
        | Entry::Refused {
            keyset,
            counter,
            ..
        } => {
            let settled = Reservation {
                keyset: *keyset,
                counter: *counter,
            };
            places.insert(counter_key(settled), place)?;
        }
        _ => {}
    }
    Ok(())
}

/// What the entry reserves.
fn reserved_in(entry: &Entry) -> Option<Reserved<'_>>
    ensures { result ≡ reserved_in entry.now }
{
    match entry {
        Entry::Reserve {
            moment,
            keyset,
            counter,
            job,
            tar,
            name,
            body,
            ..
        } => Some(Reserved {
            keyset: *keyset,
            counter: *counter,
            job: *job,
            moment: *moment,
            tar: *tar,
            name,
            body,
        }),
        _ => None,
    }
}

/// The indexes of all lanes, in order.
pub(crate) fn lane_indexes<'a>(
    alloc: Global,
    histories: &'a [History],
) -> Result<Vec<LaneIndex<'a>>, Memory>
    ensures { IfOk result (λ lanes. lanes.items ≡ map entries_in histories.now) }
{
    let mut lanes = Vec::with_capacity(alloc, histories.len())?;
    for history in histories {
        lanes.push(LaneIndex::of(alloc, history)?)?;
    }
    Ok(lanes)
}

/// The index of a keyset's lane.
pub(crate) fn index_of<'b, 'a>(lanes: &'b [LaneIndex<'a>], keyset: KeysetId) -> &'b LaneIndex<'a>
    requires { 0 < length lanes.now }
    ensures { result.now ≡ history_of lanes.now keyset.card }
{
    &lanes[lane_of(keyset.card, lanes.len())]
}
