//! What an entry changes in a book. Each function fills places that are there, and takes no memory.

ghost use Rattle.std.specs.Prelude.{◌≡◌, ◌+◌, min};
ghost use Rattle.ota_core.specs.Entry.{moment_of};
ghost use Rattle.keyset_book.specs.Entering.{Opens, Reserves, Settles, Closes, Enters, KeepsPlaces};

use crate::books::Book;
use crate::counter_table::Standing;
use crate::keyset_table::Known;
use ota_core::{Entry, JobId, KeysetFacts, KeysetId, Reservation};

/// Enters an entry.
pub(crate) fn enter(book: &mut Book, entry: &Entry)
    ensures moment { book.new.moment ≡ moment_of entry.now }
    ensures count { book.new.entries ≡ min (book.old.entries + 1) 0xFFFF_FFFF_FFFF_FFFF }
    ensures entered { Enters book.old entry.now book.new }
    ensures kept { KeepsPlaces book.old book.new }
{
    change(book, entry);
    book.moment = entry.moment();
    book.entries = book.entries.saturating_add(1);
}

fn change(book: &mut Book, entry: &Entry)
    ensures moment { book.new.moment ≡ book.old.moment }
    ensures count { book.new.entries ≡ book.old.entries }
    ensures entered { Enters book.old entry.now book.new }
    ensures kept { KeepsPlaces book.old book.new }
{
    match entry {
        Entry::Open { keyset, facts, .. } => put_open(book, *keyset, *facts),
        Entry::Reserve {
            keyset,
            counter,
            job,
            ..
        } => {
            let place = Reservation {
                keyset: *keyset,
                counter: *counter,
            };
            put_reservation(book, place, *job)
        }
        Entry::Done {
            keyset,
            counter,
            ..
        } => {
            let place = Reservation {
                keyset: *keyset,
                counter: *counter,
            };
            put_settlement(book, place, Standing::Done)
        }
        Entry::Refused {
            keyset,
            counter,
            status,
            ..
        } => {
            let place = Reservation {
                keyset: *keyset,
                counter: *counter,
            };
            put_settlement(book, place, Standing::Refused(*status))
        }
        Entry::Close { keyset, .. } => put_close(book, *keyset),
    }
}

fn put_open(book: &mut Book, keyset: KeysetId, facts: KeysetFacts)
    ensures moment { book.new.moment ≡ book.old.moment }
    ensures count { book.new.entries ≡ book.old.entries }
    ensures entered { Opens book.old keyset facts book.new }
    ensures kept { KeepsPlaces book.old book.new }
{
    let known = Known {
        facts,
        last: facts.base,
        closed: false,
    };
    book.keysets.fill(keyset, known);
}

fn put_reservation(book: &mut Book, counter: Reservation, job: JobId)
    ensures moment { book.new.moment ≡ book.old.moment }
    ensures count { book.new.entries ≡ book.old.entries }
    ensures entered { Reserves book.old counter job book.new }
    ensures kept { KeepsPlaces book.old book.new }
{
    if let Some(known) = book.keysets.look(counter.keyset) {
        let known = Known {
            facts: known.facts,
            last: counter.counter,
            closed: known.closed,
        };
        book.keysets.fill(counter.keyset, known);
    }
    book.jobs.fill(job, counter);
    book.counters.reserve(counter, book.entries);
}

fn put_settlement(book: &mut Book, counter: Reservation, how: Standing)
    ensures moment { book.new.moment ≡ book.old.moment }
    ensures count { book.new.entries ≡ book.old.entries }
    ensures entered { Settles book.old counter how book.new }
    ensures kept { KeepsPlaces book.old book.new }
{
    book.counters.settle(counter, how);
}

fn put_close(book: &mut Book, keyset: KeysetId)
    ensures moment { book.new.moment ≡ book.old.moment }
    ensures count { book.new.entries ≡ book.old.entries }
    ensures entered { Closes book.old keyset book.new }
    ensures kept { KeepsPlaces book.old book.new }
{
    if let Some(known) = book.keysets.look(keyset) {
        let known = Known {
            facts: known.facts,
            last: known.last,
            closed: true,
        };
        book.keysets.fill(keyset, known);
    }
}
