//! Room in a book: places that are made before they are filled. They say nothing of a history.

ghost use Rattle.std.specs.Prelude.{◌≡◌, ◌&&◌, true, is_ok, OnOk};
ghost use Rattle.keyset_book.specs.Tables.{has_job_place, has_counter_place};
ghost use Rattle.keyset_book.specs.Book.{has_room_for, HasRoom};
ghost use Rattle.keyset_book.specs.Entering.{KeepsPlaces, SaysSame};

use crate::books::Book;
use ota_core::{Entry, JobId, Memory, Reservation};

/// Makes the places that the entries fill.
pub(crate) fn make_room(book: &mut Book, entries: &[Entry]) -> Result<(), Memory>
    ensures same { SaysSame book.old book.new }
    ensures kept { KeepsPlaces book.old book.new }
    ensures made { OnOk result (HasRoom book.new entries.now) }
    ensures there { HasRoom book.old entries.now → is_ok result ≡ true }
{
    for entry in entries {
        make_room_for(book, entry)?;
    }
    Ok(())
}

/// Makes the places that the entry fills.
pub(crate) fn make_room_for(book: &mut Book, entry: &Entry) -> Result<(), Memory>
    ensures same { SaysSame book.old book.new }
    ensures kept { KeepsPlaces book.old book.new }
    ensures made { OnOk result (has_room_for book.new entry.now ≡ true) }
    ensures there { has_room_for book.old entry.now ≡ true → is_ok result ≡ true }
{
    match entry {
        Entry::Open { keyset, .. } => book.keysets.make_place(*keyset),
        Entry::Reserve {
            keyset,
            counter,
            job,
            ..
        } => {
            let place = Reservation {
                keyset: *keyset,
                counter: *counter,
            };
            make_reservation(book, place, *job)
        }
        _ => Ok(()),
    }
}

fn make_reservation(book: &mut Book, counter: Reservation, job: JobId) -> Result<(), Memory>
    ensures same { SaysSame book.old book.new }
    ensures kept { KeepsPlaces book.old book.new }
    ensures made { OnOk result ((has_job_place book.new.jobs job && has_counter_place book.new.counters counter) ≡ true) }
    ensures there { (has_job_place book.old.jobs job && has_counter_place book.old.counters counter) ≡ true → is_ok result ≡ true }
{
    book.jobs.make_place(job)?;
    book.counters.make_place(counter)
}
