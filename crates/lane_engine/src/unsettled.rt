//! What a lane tells of a job.

ghost use Rattle.std.specs.Prelude.{◌≡◌, reverse, Option, List};
ghost use Rattle.ota_core.specs.declared.entries.Entry.{Entry};
ghost use Rattle.keyset_book.specs.Book.{StandsFor};
ghost use Rattle.lane_engine.specs.Unsettled.{unsettled_in, if_unsettled};

use crate::lanes::Lane;
use crate::sending::may_resend;
use keyset_book::Book;
use ota_core::{JobId, Reservation};
use site_model::SiteCalls;

impl<T: SiteCalls> Lane<T> {
    /// The last reservation of the job, where it is unsettled and its keyset is open.
    pub fn unsettled(&self, job: JobId) -> Option<Reservation>
        ensures { result ≡ unsettled_in (reverse self.now.journal.entries) job }
    {
        let book = self.journal.book();
        match book.last_reservation(job) {
            None => None,
            Some(place) => if_unsettled(book, place),
        }
    }
}

/// The reservation, where its counter can be sent again.
fn if_unsettled(book: &Book, place: Reservation) -> Option<Reservation>
    ensures { (history : List Entry) → StandsFor book.now history → result ≡ if_unsettled (reverse history) place }
{
    match may_resend(book, place) {
        Ok(()) => Some(place),
        Err(_) => None,
    }
}
