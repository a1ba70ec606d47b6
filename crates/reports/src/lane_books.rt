//! Lanes with their books.

ghost use Rattle.std.specs.Prelude.{◌≡◌, ◌<◌, ◌%◌, length, map, IfOk};
ghost use Rattle.reports.specs.Report.{entries_in, history_of};

use keyset_book::{Book, Looked, Settled};
use ota_core::{
    CardId, Counter, Entry, History, JobId, KeysetFacts, KeysetId, KeysetState, Memory, Reservation,
};
use std::alloc::Global;
use std::marker::Model;

/// The history of a lane with its book, which answers without a walk over it. Contracts see its entries.
#[derive(Drop)]
pub(crate) struct LaneBook<'a> {
    entries: &'a [Entry],
    book: Book,
}

impl<'a> Model for LaneBook<'a> {
    ghost use Rattle.std.specs.Prelude.{List};
    ghost use Rattle.ota_core.specs.declared.entries.Entry.{Entry};

    ghost Value = { List Entry };

    ghost use Rattle.keyset_book.specs.Book.{StandsFor};

    ghost view = { λ l. l.entries.now };

    ghost invariant = { λ l. StandsFor l.book l.entries.now };
}

impl<'a> LaneBook<'a> {
    ghost use Rattle.std.specs.Prelude.{◌≡◌, reverse, find, IfOk};
    ghost use Rattle.ota_core.specs.Entry.{counter_in, is_settlement_of};
    ghost use Rattle.ota_core.specs.History.{first_some, last_reservation};
    ghost use Rattle.ota_core.specs.Questions.{state_of, opened_facts};
    ghost use Rattle.ota_core.specs.Outcome.{outcome_of};
    ghost use Rattle.keyset_book.specs.Answers.{looked_of, settled_in};

    /// The book of a lane's history.
    pub(crate) fn of(alloc: Global, history: &'a History) -> Result<LaneBook<'a>, Memory>
        ensures { IfOk result (λ lane. lane ≡ history.now.entries) }
    {
        let book = Book::from_history(alloc, history)?;
        Ok(LaneBook {
            entries: history.entries(),
            book,
        })
    }

    /// The entries of the history, oldest first.
    pub(crate) fn entries(&self) -> &'a [Entry]
        ensures { result.now ≡ self.now }
    {
        self.entries
    }

    /// What has become of the job.
    pub(crate) fn look(&self, job: JobId) -> Looked
        ensures { result ≡ looked_of (outcome_of self.now job) }
    {
        self.book.look(job)
    }

    /// The last reservation for the job.
    pub(crate) fn last_reservation(&self, job: JobId) -> Option<Reservation>
        ensures { result ≡ last_reservation job (reverse self.now) }
    {
        self.book.last_reservation(job)
    }

    /// How the counter is settled, where it is.
    pub(crate) fn settlement(&self, counter: Reservation) -> Option<Settled>
        ensures { result ≡ settled_in (find (is_settlement_of counter) (reverse self.now)) }
    {
        self.book.settlement(counter)
    }

    /// How the keyset stands.
    pub(crate) fn keyset_state(&self, keyset: KeysetId) -> KeysetState
        ensures { result ≡ state_of keyset (reverse self.now) }
    {
        self.book.keyset_state(keyset)
    }

    /// The last counter of the keyset that is used up.
    pub(crate) fn last_counter(&self, keyset: KeysetId) -> Option<Counter>
        ensures { result ≡ first_some (counter_in keyset) (reverse self.now) }
    {
        self.book.last_counter(keyset)
    }

    /// The facts with which the history opens the keyset.
    pub(crate) fn opened_facts(&self, keyset: KeysetId) -> Option<KeysetFacts>
        ensures { result ≡ opened_facts keyset self.now }
    {
        self.book.opened_facts(keyset)
    }
}

/// The books of all lanes, in order.
pub(crate) fn lane_books<'a>(
    alloc: Global,
    histories: &'a [History],
) -> Result<Vec<LaneBook<'a>>, Memory>
    ensures { IfOk result (λ lanes. lanes.items ≡ map entries_in histories.now) }
{
    let mut lanes = Vec::with_capacity(alloc, histories.len())?;
    for history in histories {
        lanes.push(LaneBook::of(alloc, history)?)?;
    }
    Ok(lanes)
}

/// The lane of a card, from 0.
pub(crate) fn lane_of(card: CardId, lanes: usize) -> usize
    requires { 0 < lanes }
    ensures lane { result ≡ card.0 % lanes }
    ensures within { result < lanes }
{
    (card.0 % lanes as u64) as usize
}

/// The book of a keyset's lane.
pub(crate) fn book_of<'b, 'a>(lanes: &'b [LaneBook<'a>], keyset: KeysetId) -> &'b LaneBook<'a>
    requires { 0 < length lanes.now }
    ensures { result.now ≡ history_of lanes.now keyset.card }
{
    &lanes[lane_of(keyset.card, lanes.len())]
}
