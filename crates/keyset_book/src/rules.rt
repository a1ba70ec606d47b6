//! The rules of a history: what an entry may not do behind the entries of a book. Each function answers with the first
//! rule that is broken.

ghost use Rattle.std.specs.Prelude.{◌≡◌, not, is_none};
ghost use Rattle.std.specs.Option.{option_or};
ghost use Rattle.std.specs.Result.{result_err};
ghost use Rattle.ota_core.specs.History.{unless, broken_counter, broken_status};
ghost use Rattle.keyset_book.specs.Tables.{known_in, reserved_in, standing_in};
ghost use Rattle.keyset_book.specs.Rules.{rule_in_use, next_to, rule_job, is_refused, rule_settlement, rule_in_order, rule_moment, first_rule};

use crate::books::Book;
use crate::counter_table::Standing;
use ota_core::{Counter, Entry, Illegal, JobId, KeysetId, Reservation};

/// The last counter that may be reserved.
pub(crate) const LAST_COUNTER: u64 = 0xFF_FFFF_FFFE;

/// The first rule that the entry breaks. That its moment isn't below the last one is tried last.
pub(crate) fn may_follow(book: &Book, entry: &Entry) -> Result<(), Illegal>
    ensures { result_err result ≡ first_rule book.now entry.now }
{
    comes_in_order(book, entry)?;
    is_not_earlier(book, entry.moment())
}

/// Whether the entry keeps the rules of keysets, counters and jobs.
fn comes_in_order(book: &Book, entry: &Entry) -> Result<(), Illegal>
    ensures { result_err result ≡ rule_in_order book.now entry.now }
{
    match entry {
        Entry::Open { keyset, .. } => not_opened(book, *keyset),
        Entry::Reserve {
            keyset,
            counter,
            job,
            ..
        } => may_reserve(book, *keyset, *counter, *job),
        Entry::Done {
            keyset,
            counter,
            ..
        } => may_settle(book, *keyset, *counter),
        Entry::Refused {
            keyset,
            counter,
            status,
            ..
        } => may_refuse(book, *keyset, *counter, *status),
        Entry::Close { keyset, .. } => in_use(book, *keyset),
    }
}

fn not_opened(book: &Book, keyset: KeysetId) -> Result<(), Illegal>
    ensures { result_err result ≡ unless (is_none (known_in book.now.keysets keyset)) Illegal.OpenedTwice }
{
    if book.keysets.look(keyset).is_some() {
        return Err(Illegal::OpenedTwice);
    }
    Ok(())
}

fn may_reserve(book: &Book, keyset: KeysetId, counter: Counter, job: JobId) -> Result<(), Illegal>
    ensures { result_err result ≡ option_or (rule_in_use (known_in book.now.keysets keyset)) (option_or (broken_counter counter (next_to (known_in book.now.keysets keyset))) (rule_job book.now (reserved_in book.now.jobs job))) }
{
    in_use(book, keyset)?;
    comes_next(book, keyset, counter)?;
    job_is_free(book, job)
}

fn may_settle(book: &Book, keyset: KeysetId, counter: Counter) -> Result<(), Illegal>
    ensures { result_err result ≡ option_or (rule_in_use (known_in book.now.keysets keyset)) (rule_settlement (standing_in book.now.counters (record { keyset = keyset; counter = counter }))) }
{
    in_use(book, keyset)?;
    awaits_settlement(book, Reservation { keyset, counter })
}

fn may_refuse(book: &Book, keyset: KeysetId, counter: Counter, status: u8) -> Result<(), Illegal>
    ensures { result_err result ≡ option_or (rule_in_use (known_in book.now.keysets keyset)) (option_or (rule_settlement (standing_in book.now.counters (record { keyset = keyset; counter = counter }))) (broken_status status)) }
{
    may_settle(book, keyset, counter)?;
    if status != 0x07 && status != 0x09 {
        return Err(Illegal::BadStatus);
    }
    Ok(())
}

fn in_use(book: &Book, keyset: KeysetId) -> Result<(), Illegal>
    ensures { result_err result ≡ rule_in_use (known_in book.now.keysets keyset) }
{
    match book.keysets.look(keyset) {
        None => Err(Illegal::NotOpened),
        Some(known) if known.closed => Err(Illegal::Closed),
        Some(_) => Ok(()),
    }
}

fn comes_next(book: &Book, keyset: KeysetId, counter: Counter) -> Result<(), Illegal>
    ensures { result_err result ≡ broken_counter counter (next_to (known_in book.now.keysets keyset)) }
{
    let last = match book.keysets.look(keyset) {
        Some(known) => known.last.0,
        None => 0,
    };
    let next = last + 1;
    if next > LAST_COUNTER {
        return Err(Illegal::Exhausted);
    }
    if counter.0 != next {
        return Err(Illegal::NotNext(Counter(next)));
    }
    Ok(())
}

fn job_is_free(book: &Book, job: JobId) -> Result<(), Illegal>
    ensures { result_err result ≡ rule_job book.now (reserved_in book.now.jobs job) }
{
    match book.jobs.look(job) {
        Some(last) if !is_refused(book, last) => Err(Illegal::JobTaken(last.counter)),
        _ => Ok(()),
    }
}

fn is_refused(book: &Book, counter: Reservation) -> bool
    ensures { result ≡ is_refused (standing_in book.now.counters counter) }
{
    matches!(book.counters.look(counter), Some(Standing::Refused(_)))
}

fn awaits_settlement(book: &Book, counter: Reservation) -> Result<(), Illegal>
    ensures { result_err result ≡ rule_settlement (standing_in book.now.counters counter) }
{
    match book.counters.look(counter) {
        None => Err(Illegal::NotReserved),
        Some(Standing::Unsettled) => Ok(()),
        Some(_) => Err(Illegal::AlreadySettled),
    }
}

fn is_not_earlier(book: &Book, moment: u64) -> Result<(), Illegal>
    ensures { result_err result ≡ rule_moment book.now moment }
{
    if book.moment > moment {
        return Err(Illegal::Earlier(book.moment));
    }
    Ok(())
}
