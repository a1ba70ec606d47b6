//! The jobs for which a counter is to be reserved.

ghost use Rattle.std.specs.Prelude.{◌≡◌, ◌<◌, ◌≤◌, ◌^◌, ◌%◌, ◌+◌, ◌∷◌, [], ◌++◌, ◌&&◌, if◌then◌else◌, nat_le, List, length, get_or, IfOk, OnOk};
ghost use Rattle.ota_core.specs.Keyset.{Keyset, is_same_keyset};
ghost use Rattle.ota_core.specs.declared.entries.Entry.{Entry};
ghost use Rattle.keyset_book.specs.Book.{StandsFor};
ghost use Rattle.campaigns.specs.WorkList.{AreBooksOf, is_wanted, is_due_in, has_counter_in, remaining_jobs};
ghost use Rattle.campaigns.specs.Batching.{counted_in};

use keyset_book::{Book, Looked};
use ota_core::{Counter, Job, KeysetId, Memory};
use senders::JobList;
use std::alloc::Global;
use std::collections::BTreeMap;

/// The last counter of a keyset that may be reserved.
const LAST_COUNTER: u64 = 0xFF_FFFF_FFFE;

/// The jobs for which a counter is to be reserved, in order, by the books of the lanes.
pub(crate) fn remaining_jobs(
    alloc: Global,
    jobs: &[Job],
    books: &[Book],
    retry: bool,
) -> Result<JobList, Memory>
    requires { 0 < length books.now }
    ensures { (histories : List (List Entry)) → AreBooksOf histories books.now → IfOk result (λ list. list ≡ remaining_jobs retry histories jobs.now) }
{
    let mut list = JobList::new(alloc);
    let mut counts = BTreeMap::new(alloc);
    for place in 0..jobs.len() {
        let job = &jobs[place];
        let book = book_of(books, job.keyset);
        put_if_remaining(&mut list, &mut counts, book, job, retry)?;
    }
    Ok(list)
}

/// The book of a keyset's lane.
fn book_of(books: &[Book], keyset: KeysetId) -> &Book
    requires { 0 < length books.now }
    ensures { result.now ≡ get_or books.now (keyset.card.0 % length books.now) result.now }
{
    let lane = keyset.card.0 % books.len() as u64;
    &books[lane as usize]
}

/// Puts a job behind the others where a counter is to be reserved for it. `counts` has how many of the jobs before it
/// are due on each keyset.
fn put_if_remaining(
    list: &mut JobList,
    counts: &mut BTreeMap<KeysetId, usize>,
    book: &Book,
    job: &Job,
    retry: bool,
) -> Result<(), Memory>
    requires { (keyset : Keyset) → counted_in counts.old keyset + 1 < 2 ^ 64 }
    ensures list { (history : List Entry) → StandsFor book.now history → OnOk result (list.new ≡ list.old ++ (if is_due_in retry history job.now && has_counter_in history job.now.keyset (counted_in counts.old job.now.keyset) then job.now ∷ [] else [])) }
    ensures counts { (history : List Entry) → StandsFor book.now history → OnOk result ((keyset : Keyset) → counted_in counts.new keyset ≡ counted_in counts.old keyset + (if is_due_in retry history job.now && is_same_keyset job.now.keyset keyset then 1 else 0)) }
    ensures bound { OnOk result ((keyset : Keyset) → counted_in counts.new keyset ≤ counted_in counts.old keyset + 1) }
{
    if !is_due(book, job, retry) {
        return Ok(());
    }
    let before = count(counts, job.keyset)?;
    if has_counter(book, job.keyset, before) {
        list.push(copy(job)?)?;
    }
    Ok(())
}

/// Whether the job is to be reserved.
fn is_due(book: &Book, job: &Job, retry: bool) -> bool
    ensures { (history : List Entry) → StandsFor book.now history → result ≡ is_due_in retry history job.now }
{
    is_wanted(&book.look(job.id), retry)
}

fn is_wanted(looked: &Looked, retry: bool) -> bool
    ensures { result ≡ is_wanted retry looked.now }
{
    match looked {
        Looked::New => true,
        Looked::Refused(_, _) => retry,
        _ => false,
    }
}

/// Counts a job on the keyset, and gives how many were counted before.
fn count(counts: &mut BTreeMap<KeysetId, usize>, keyset: KeysetId) -> Result<usize, Memory>
    requires { counted_in counts.old keyset + 1 < 2 ^ 64 }
    ensures before { IfOk result (λ before. before ≡ counted_in counts.old keyset) }
    ensures counted { OnOk result ((other : Keyset) → counted_in counts.new other ≡ counted_in counts.old other + (if is_same_keyset keyset other then 1 else 0)) }
{
    let before = counted(counts, keyset);
    counts.insert(keyset, before + 1)?;
    Ok(before)
}

fn counted(counts: &BTreeMap<KeysetId, usize>, keyset: KeysetId) -> usize
    ensures { result ≡ counted_in counts.now keyset }
{
    match counts.get(&keyset) {
        Some(count) => *count,
        None => 0,
    }
}

/// Whether the keyset is open, and a counter of it is left behind so many jobs.
fn has_counter(book: &Book, keyset: KeysetId, before: usize) -> bool
    ensures { (history : List Entry) → StandsFor book.now history → result ≡ has_counter_in history keyset before }
{
    match book.next(keyset) {
        Ok(next) => is_left(next, before),
        Err(_) => false,
    }
}

fn is_left(next: Counter, before: usize) -> bool
    ensures { result ≡ nat_le (next + before) 0xFF_FFFF_FFFE }
{
    next.0.saturating_add(before as u64) <= LAST_COUNTER
}

fn copy(job: &Job) -> Result<Job, Memory>
    ensures { IfOk result (λ made. made ≡ job.now) }
{
    let body = job.body.copy()?;
    Ok(Job {
        id: job.id,
        keyset: job.keyset,
        tar: job.tar,
        body,
    })
}
