//! What the entries of a history say of a keyset, a counter or a job. The newest entry that speaks of it decides, so
//! each walk begins at the back. A book of a history answers the same without a walk.

ghost use Rattle.std.specs.Prelude.{◌≡◌, ◌==◌, ◌&&◌, if◌then◌else◌, reverse, find};
ghost use Rattle.std.specs.Option.{option_copied};
ghost use Rattle.std.specs.List.{list_any};
ghost use Rattle.ota_core.specs.Keyset.{is_same_keyset};
ghost use Rattle.ota_core.specs.Job.{is_same_job};
ghost use Rattle.ota_core.specs.Questions.{state_of, opened_facts, last_moment, reserved_in, reserved_for, reserved_at, last_reserved, reserved_under};
ghost use Rattle.ota_core.specs.Entry.{facts_in, is_open_of, is_close_of, counter_in, reservation_in, is_reserve_of, is_refusal_of, is_settlement_of};
ghost use Rattle.ota_core.specs.History.{first_some, last_reservation};

use crate::counters::Counter;
use crate::entries::Entry;
use crate::jobs::JobId;
use crate::keysets::{KeysetFacts, KeysetId};
use crate::reservations::{Reservation, Reserved};

/// How a keyset stands in a history.
#[derive(Clone, Copy, Debug, PartialEq, Eq)]
pub enum KeysetState {
    /// It has no Open.
    New,
    /// It is in use.
    Open,
    /// It is out of use.
    Closed,
}

/// How the keyset stands.
pub fn keyset_state(entries: &[Entry], keyset: KeysetId) -> KeysetState
    ensures { result ≡ state_of keyset (reverse entries.now) }
{
    if !has_open(entries, keyset) {
        return KeysetState::New;
    }
    if has_close(entries, keyset) {
        return KeysetState::Closed;
    }
    KeysetState::Open
}

/// The facts with which the history opens the keyset.
pub fn opened_facts(entries: &[Entry], keyset: KeysetId) -> Option<KeysetFacts>
    ensures { result ≡ opened_facts keyset entries.now }
{
    let mut rest = entries;
    while let Some((entry, behind)) = rest.split_first() {
        let facts = facts_in(entry, keyset);
        if facts.is_some() {
            return facts;
        }
        rest = behind;
    }
    None
}

/// The moment of the last entry, or 0 where there is none.
pub fn last_moment(entries: &[Entry]) -> u64
    ensures { result ≡ last_moment (reverse entries.now) }
{
    match entries.last() {
        Some(entry) => entry.moment(),
        None => 0,
    }
}

/// What is reserved for the job last.
pub fn last_reserved(entries: &[Entry], job: JobId) -> Option<Reserved<'_>>
    ensures { result ≡ last_reserved job (reverse entries.now) }
{
    let mut rest = entries;
    while let Some((entry, before)) = rest.split_last() {
        let reserved = reserved_for(entry, job);
        if reserved.is_some() {
            return reserved;
        }
        rest = before;
    }
    None
}

/// What is reserved under a counter.
pub fn reserved_under(entries: &[Entry], place: Reservation) -> Option<Reserved<'_>>
    ensures { result ≡ reserved_under place (reverse entries.now) }
{
    let mut rest = entries;
    while let Some((entry, before)) = rest.split_last() {
        let reserved = reserved_at(entry, place);
        if reserved.is_some() {
            return reserved;
        }
        rest = before;
    }
    None
}

/// The entry that settles a counter.
pub fn settlement(entries: &[Entry], place: Reservation) -> Option<&Entry>
    ensures { option_copied result ≡ find (is_settlement_of place) (reverse entries.now) }
{
    entries
        .iter()
        .rev()
        .find(|entry| is_settlement_of(entry, place))
}

/// Whether an entry opens the keyset.
pub fn has_open(entries: &[Entry], keyset: KeysetId) -> bool
    ensures { result ≡ list_any (is_open_of keyset) (reverse entries.now) }
{
    entries.iter().rev().any(|entry| is_open_of(entry, keyset))
}

/// Whether an entry closes the keyset.
pub fn has_close(entries: &[Entry], keyset: KeysetId) -> bool
    ensures { result ≡ list_any (is_close_of keyset) (reverse entries.now) }
{
    entries.iter().rev().any(|entry| is_close_of(entry, keyset))
}

/// Whether an entry reserves the counter.
pub fn has_reserve(entries: &[Entry], place: Reservation) -> bool
    ensures { result ≡ list_any (is_reserve_of place) (reverse entries.now) }
{
    entries
        .iter()
        .rev()
        .any(|entry| is_reserve_of(entry, place))
}

/// Whether an entry settles the counter as refused.
pub fn has_refusal(entries: &[Entry], place: Reservation) -> bool
    ensures { result ≡ list_any (is_refusal_of place) (reverse entries.now) }
{
    entries
        .iter()
        .rev()
        .any(|entry| is_refusal_of(entry, place))
}

/// Whether an entry settles the counter.
pub fn has_settlement(entries: &[Entry], place: Reservation) -> bool
    ensures { result ≡ list_any (is_settlement_of place) (reverse entries.now) }
{
    entries
        .iter()
        .rev()
        .any(|entry| is_settlement_of(entry, place))
}

/// The last counter of the keyset that is used up.
pub fn last_counter(entries: &[Entry], keyset: KeysetId) -> Option<Counter>
    ensures { result ≡ first_some (counter_in keyset) (reverse entries.now) }
{
    let mut rest = entries;
    while let Some((entry, before)) = rest.split_last() {
        let counter = counter_in(entry, keyset);
        if counter.is_some() {
            return counter;
        }
        rest = before;
    }
    None
}

/// The last reservation for the job.
pub fn last_reservation(entries: &[Entry], job: JobId) -> Option<Reservation>
    ensures { result ≡ last_reservation job (reverse entries.now) }
{
    let mut rest = entries;
    while let Some((entry, before)) = rest.split_last() {
        let place = reservation_in(entry, job);
        if place.is_some() {
            return place;
        }
        rest = before;
    }
    None
}

fn facts_in(entry: &Entry, keyset: KeysetId) -> Option<KeysetFacts>
    ensures { result ≡ facts_in keyset entry.now }
{
    match entry {
        Entry::Open {
            keyset: opened,
            facts,
            ..
        } if is_same_keyset(*opened, keyset) => Some(*facts),
        _ => None,
    }
}

/// What the entry reserves.
fn reserved_in(entry: &Entry) -> Option<Reserved<'_>>
    ensures { result ≡ reserved_in entry.now }
{
    match entry {
        Entry::Reserve {
            moment,
            keyset,
            counter,
            job,
            tar,
            name,
            body,
            ..
        } => Some(Reserved {
            keyset: *keyset,
            counter: *counter,
            job: *job,
            moment: *moment,
            tar: *tar,
            name,
            body,
        }),
        _ => None,
    }
}

fn reserved_for(entry: &Entry, job: JobId) -> Option<Reserved<'_>>
    ensures { result ≡ reserved_for job entry.now }
{
    match reserved_in(entry) {
        Some(reserved) if is_same_job(reserved.job, job) => Some(reserved),
        _ => None,
    }
}

fn reserved_at(entry: &Entry, place: Reservation) -> Option<Reserved<'_>>
    ensures { result ≡ reserved_at place entry.now }
{
    if is_reserve_of(entry, place) {
        return reserved_in(entry);
    }
    None
}

fn is_open_of(entry: &Entry, keyset: KeysetId) -> bool
    ensures { result ≡ is_open_of keyset entry.now }
{
    match entry {
        Entry::Open { keyset: opened, .. } => is_same_keyset(*opened, keyset),
        _ => false,
    }
}

fn is_close_of(entry: &Entry, keyset: KeysetId) -> bool
    ensures { result ≡ is_close_of keyset entry.now }
{
    match entry {
        Entry::Close { keyset: closed, .. } => is_same_keyset(*closed, keyset),
        _ => false,
    }
}

fn is_reserve_of(entry: &Entry, place: Reservation) -> bool
    ensures { result ≡ is_reserve_of place entry.now }
{
    match entry {
        Entry::Reserve {
            keyset,
            counter,
            ..
        } => is_place(*keyset, *counter, place),
        _ => false,
    }
}

fn is_refusal_of(entry: &Entry, place: Reservation) -> bool
    ensures { result ≡ is_refusal_of place entry.now }
{
    match entry {
        Entry::Refused {
            keyset,
            counter,
            ..
        } => is_place(*keyset, *counter, place),
        _ => false,
    }
}

fn is_settlement_of(entry: &Entry, place: Reservation) -> bool
    ensures { result ≡ is_settlement_of place entry.now }
{
    match entry {
        Entry::Done {
            keyset,
            counter,
            ..
        }
        | Entry::Refused {
            keyset,
            counter,
            ..
        } => is_place(*keyset, *counter, place),
        _ => false,
    }
}

fn counter_in(entry: &Entry, keyset: KeysetId) -> Option<Counter>
    ensures { result ≡ counter_in keyset entry.now }
{
    match entry {
        Entry::Open {
            keyset: opened,
            facts,
            ..
        } => counter_if(is_same_keyset(*opened, keyset), facts.base),
        Entry::Reserve {
            keyset: reserved,
            counter,
            ..
        } => counter_if(is_same_keyset(*reserved, keyset), *counter),
        _ => None,
    }
}

fn reservation_in(entry: &Entry, job: JobId) -> Option<Reservation>
    ensures { result ≡ reservation_in job entry.now }
{
    match entry {
        Entry::Reserve {
            keyset,
            counter,
            job: reserved,
            ..
        } if is_same_job(*reserved, job) => Some(Reservation {
            keyset: *keyset,
            counter: *counter,
        }),
        _ => None,
    }
}

fn counter_if(is_of_keyset: bool, counter: Counter) -> Option<Counter>
    ensures { result ≡ (if is_of_keyset then Some counter else None) }
{
    if is_of_keyset { Some(counter) } else { None }
}

fn is_place(keyset: KeysetId, counter: Counter, place: Reservation) -> bool
    ensures { result ≡ (is_same_keyset keyset place.keyset && (counter == place.counter)) }
{
    is_same_keyset(keyset, place.keyset) && counter.0 == place.counter.0
}

/// Whether it is the same card and the same key version number.
pub fn is_same_keyset(a: KeysetId, b: KeysetId) -> bool
    ensures { result ≡ is_same_keyset a b }
{
    a.card.0 == b.card.0 && a.kvn == b.kvn
}

/// Whether it is the same job of the same campaign.
pub fn is_same_job(a: JobId, b: JobId) -> bool
    ensures { result ≡ is_same_job a b }
{
    a.campaign == b.campaign && a.job == b.job
}
