//! What is due to a row by the history of its lane.

ghost use Rattle.std.specs.Prelude.{◌≡◌, ◌≤◌, ◌^◌, ◌<◌, None, Some, IfOk, IfErr, IfSome, is_none, is_some, if◌then◌else◌, option_map, length, reverse, ◌++◌};
ghost use Rattle.ota_core.specs.History.{broken_in_use, next_counter};
ghost use Rattle.ota_core.specs.declared.entries.Entry.TheVariants as entry;
ghost use Rattle.lane_session.specs.Rows.{counter_unlike, differs_in, is_as_said};
ghost use Rattle.lane_session.specs.Due.{is_unopened, is_out, due_counter, reservation_for, open_for};

use ota_core::questions::{
    has_open, has_refusal, is_same_keyset, keyset_state, last_counter, last_moment,
    last_reservation, last_reserved,
};
use ota_core::{
    Counter, Entry, History, Job, KeysetFacts, KeysetId, KeysetState, Memory, Octets, Reserved,
};
use std::alloc::Global;

/// The last counter of a keyset that may be reserved.
const LAST_COUNTER: u64 = 0xFF_FFFF_FFFE;

/// The counter of the job's last reservation in the history, where that isn't refused and another than the row says.
pub fn differs_in(entries: &[Entry], job: &Job) -> Option<Counter>
    ensures { result ≡ differs_in entries.now job.now }
{
    match last_reserved(entries, job.id) {
        None => None,
        Some(reserved) => counter_unlike(entries, job, &reserved),
    }
}

/// The counter of a job's last reservation, where that isn't refused and another than the row says.
fn counter_unlike(entries: &[Entry], job: &Job, reserved: &Reserved) -> Option<Counter>
    ensures { result ≡ counter_unlike (reverse entries.now) job.now reserved.now }
{
    if has_refusal(entries, reserved.place()) || is_as_said(job, reserved) {
        return None;
    }
    Some(reserved.counter)
}

fn is_as_said(job: &Job, reserved: &Reserved) -> bool
    ensures { result ≡ is_as_said job.now reserved.now }
{
    let has_keyset = is_same_keyset(reserved.keyset, job.keyset);
    let has_tar = reserved.tar.0.as_slice() == job.tar.0.as_slice();
    let has_body = reserved.body.as_slice() == job.body.as_slice();
    has_keyset && has_tar && has_body
}

/// Whether an Open is due to the keyset.
pub fn is_unopened(history: &History, keyset: KeysetId) -> bool
    ensures { result ≡ is_unopened (reverse history.now.entries) keyset }
{
    !has_open(history.entries(), keyset)
}

/// The reservation that is due to a row. None where nothing is.
pub fn due_reservation(alloc: Global, history: &History, job: &Job) -> Result<Option<Entry>, Memory>
    ensures { IfOk result (λ due. due ≡ option_map (reservation_for (reverse history.now.entries) job.now) (due_counter (reverse history.now.entries) job.now)) }
{
    match due_counter(history, job) {
        None => Ok(None),
        Some(counter) => Ok(Some(reservation_for(alloc, history, job, counter)?)),
    }
}

/// The counter that is due to a row.
fn due_counter(history: &History, job: &Job) -> Option<Counter>
    ensures { result ≡ due_counter (reverse history.now.entries) job.now }
{
    if last_reservation(history.entries(), job.id).is_some() {
        return None;
    }
    free_counter(history, job.keyset)
}

/// The counter of the keyset that comes next. None where it isn't in use, or no counter is left.
fn free_counter(history: &History, keyset: KeysetId) -> Option<Counter>
    ensures { result ≡ (if is_out (reverse history.now.entries) keyset then None else Some (next_counter keyset (reverse history.now.entries))) }
{
    if !is_in_use(history, keyset) {
        return None;
    }
    let next = next_counter(history, keyset);
    if next > LAST_COUNTER {
        return None;
    }
    Some(Counter(next))
}

/// One above the keyset's last counter.
fn next_counter(history: &History, keyset: KeysetId) -> u64
    ensures next { result ≡ next_counter keyset (reverse history.now.entries) }
    ensures fits { result ≤ 2 ^ 40 }
{
    match last_counter(history.entries(), keyset) {
        Some(last) => last.0 + 1,
        None => 1,
    }
}

/// Whether the keyset is opened and not closed.
fn is_in_use(history: &History, keyset: KeysetId) -> bool
    ensures { result ≡ is_none (broken_in_use keyset (reverse history.now.entries)) }
{
    match keyset_state(history.entries(), keyset) {
        KeysetState::Open => true,
        _ => false,
    }
}

/// The Open of a keyset, by the session itself, behind the history and the entries that wait to be added to it.
pub fn open_for(
    history: &History,
    waiting: &[Entry],
    keyset: KeysetId,
    facts: &KeysetFacts,
) -> Entry
    ensures { result ≡ open_for (reverse waiting.now ++ reverse history.now.entries) keyset facts.now }
{
    let moment = match waiting.last() {
        Some(entry) => entry.moment(),
        None => last_moment(history.entries()),
    };
    Entry::Open {
        by: 0,
        moment,
        keyset,
        facts: *facts,
    }
}

/// The reservation of a counter for a row, by the session itself.
fn reservation_for(
    alloc: Global,
    history: &History,
    job: &Job,
    counter: Counter,
) -> Result<Entry, Memory>
    ensures { IfOk result (λ made. made ≡ reservation_for (reverse history.now.entries) job.now counter) }
{
    let body = job.body.copy()?;
    let name = Octets::from_slice(alloc, &[])?;
    Ok(Entry::Reserve {
        by: 0,
        moment: last_moment(history.entries()),
        keyset: job.keyset,
        counter,
        job: job.id,
        tar: job.tar,
        name,
        body,
    })
}
