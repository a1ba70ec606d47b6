//! The rules of a history: what an entry may not do behind the entries before it. Each function answers with the
//! first rule that is broken.

ghost use Rattle.std.specs.Prelude.{◌≡◌, not, reverse};
ghost use Rattle.std.specs.Option.{option_or};
ghost use Rattle.std.specs.Result.{result_err};
ghost use Rattle.std.specs.List.{list_any};
ghost use Rattle.ota_core.specs.Entry.{is_open_of};
ghost use Rattle.ota_core.specs.History.{unless, broken, broken_in_order, broken_moment, broken_in_use, broken_counter, broken_job, broken_settlement, broken_status, next_counter, last_reservation};

use crate::counters::Counter;
use crate::entries::{Entry, Illegal};
use crate::jobs::JobId;
use crate::keysets::KeysetId;
use crate::questions::{
    has_close, has_open, has_refusal, has_reserve, has_settlement, last_counter, last_reservation,
};
use crate::reservations::Reservation;

/// The last counter that may be reserved.
const LAST_COUNTER: u64 = 0xFF_FFFF_FFFE;

/// Whether the entry may follow the entries. That its moment isn't below the last one is tried last.
pub(crate) fn may_follow(entries: &[Entry], entry: &Entry) -> Result<(), Illegal>
    ensures { result_err result ≡ broken (reverse entries.now) entry.now }
{
    comes_in_order(entries, entry)?;
    is_not_earlier(entries, entry.moment())
}

/// Whether the entry keeps the rules of keysets, counters and jobs behind the entries.
fn comes_in_order(entries: &[Entry], entry: &Entry) -> Result<(), Illegal>
    ensures { result_err result ≡ broken_in_order (reverse entries.now) entry.now }
{
    match entry {
        Entry::Open { keyset, .. } => not_opened(entries, *keyset),
        Entry::Reserve {
            keyset,
            counter,
            job,
            ..
        } => may_reserve(entries, *keyset, *counter, *job),
        Entry::Done {
            keyset,
            counter,
            ..
        } => may_settle(entries, *keyset, *counter),
        Entry::Refused {
            keyset,
            counter,
            status,
            ..
        } => may_refuse(entries, *keyset, *counter, *status),
        Entry::Close { keyset, .. } => in_use(entries, *keyset),
    }
}

fn not_opened(entries: &[Entry], keyset: KeysetId) -> Result<(), Illegal>
    ensures { result_err result ≡ unless (not (list_any (is_open_of keyset) (reverse entries.now))) Illegal.OpenedTwice }
{
    if has_open(entries, keyset) {
        return Err(Illegal::OpenedTwice);
    }
    Ok(())
}

fn may_reserve(
    entries: &[Entry],
    keyset: KeysetId,
    counter: Counter,
    job: JobId,
) -> Result<(), Illegal>
    ensures { result_err result ≡ option_or (broken_in_use keyset (reverse entries.now)) (option_or (broken_counter counter (next_counter keyset (reverse entries.now))) (broken_job (reverse entries.now) (last_reservation job (reverse entries.now)))) }
{
    in_use(entries, keyset)?;
    comes_next(entries, keyset, counter)?;
    job_is_free(entries, job)
}

fn may_settle(entries: &[Entry], keyset: KeysetId, counter: Counter) -> Result<(), Illegal>
    ensures { let past = reverse entries.now in result_err result ≡ option_or (broken_in_use keyset past) (broken_settlement (record { keyset = keyset; counter = counter }) past) }
{
    in_use(entries, keyset)?;
    awaits_settlement(entries, Reservation { keyset, counter })
}

fn may_refuse(
    entries: &[Entry],
    keyset: KeysetId,
    counter: Counter,
    status: u8,
) -> Result<(), Illegal>
    ensures { let past = reverse entries.now in result_err result ≡ option_or (broken_in_use keyset past) (option_or (broken_settlement (record { keyset = keyset; counter = counter }) past) (broken_status status)) }
{
    may_settle(entries, keyset, counter)?;
    if status != 0x07 && status != 0x09 {
        return Err(Illegal::BadStatus);
    }
    Ok(())
}

fn in_use(entries: &[Entry], keyset: KeysetId) -> Result<(), Illegal>
    ensures { result_err result ≡ broken_in_use keyset (reverse entries.now) }
{
    if !has_open(entries, keyset) {
        return Err(Illegal::NotOpened);
    }
    if has_close(entries, keyset) {
        return Err(Illegal::Closed);
    }
    Ok(())
}

fn comes_next(entries: &[Entry], keyset: KeysetId, counter: Counter) -> Result<(), Illegal>
    ensures { result_err result ≡ broken_counter counter (next_counter keyset (reverse entries.now)) }
{
    let last = match last_counter(entries, keyset) {
        Some(last) => last.0,
        None => 0,
    };
    let next = last + 1;
    if next > LAST_COUNTER {
        return Err(Illegal::Exhausted);
    }
    if counter.0 != next {
        return Err(Illegal::NotNext(Counter(next)));
    }
    Ok(())
}

fn job_is_free(entries: &[Entry], job: JobId) -> Result<(), Illegal>
    ensures { result_err result ≡ broken_job (reverse entries.now) (last_reservation job (reverse entries.now)) }
{
    match last_reservation(entries, job) {
        Some(last) if !has_refusal(entries, last) => Err(Illegal::JobTaken(last.counter)),
        _ => Ok(()),
    }
}

fn awaits_settlement(entries: &[Entry], place: Reservation) -> Result<(), Illegal>
    ensures { result_err result ≡ broken_settlement place (reverse entries.now) }
{
    if !has_reserve(entries, place) {
        return Err(Illegal::NotReserved);
    }
    if has_settlement(entries, place) {
        return Err(Illegal::AlreadySettled);
    }
    Ok(())
}

fn is_not_earlier(entries: &[Entry], moment: u64) -> Result<(), Illegal>
    ensures { result_err result ≡ broken_moment (reverse entries.now) moment }
{
    match entries.last() {
        Some(last) if last.moment() > moment => Err(Illegal::Earlier(last.moment())),
        _ => Ok(()),
    }
}

#[cfg(test)]
mod tests;
