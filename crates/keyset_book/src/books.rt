//! The book of a history.

use crate::answers::{BookErr, Looked, Settled};
use crate::asked::{facts_with, last_with, looked_after, next_after, settled_with, state_with};
use crate::counter_table::CounterTable;
use crate::entering::enter;
use crate::job_table::JobTable;
use crate::keyset_table::KeysetTable;
use crate::room::{make_room, make_room_for};
use crate::rules::may_follow;
use ota_core::{
    Counter, Entry, History, Illegal, JobId, KeysetFacts, KeysetId, KeysetState, Memory,
    Reservation,
};
use std::alloc::Global;

/// What the entries of a lane's history say, in the order of keysets, jobs and counters. Its contracts see the legal
/// histories that it stands for: one, but for what it doesn't keep, as scripts and answers.
#[derive(Drop)]
pub struct Book {
    pub(crate) keysets: KeysetTable,
    pub(crate) jobs: JobTable,
    pub(crate) counters: CounterTable,
    /// The moment of the last entry, or 0 where there is none.
    pub(crate) moment: u64,
    /// How many entries were put.
    pub(crate) entries: u64,
}

impl Book {
    ghost use Rattle.std.specs.Prelude.{◌≡◌, ◌≤◌, true, List, length, [], ◌∷◌, ◌++◌, reverse, find, None, Some, is_ok, OnOk, OnErr, IfOk, MatchResult};
    ghost use Rattle.std.specs.Result.{result_err};
    ghost use Rattle.std.specs.List.{list_any, list_all, position};
    ghost use Rattle.ota_core.specs.Entry.{counter_in, is_reserve_of, is_settlement_of};
    ghost use Rattle.ota_core.specs.History.{first_some, broken, broken_batch, last_reservation};
    ghost use Rattle.ota_core.specs.Questions.{state_of, opened_facts, last_moment};
    ghost use Rattle.ota_core.specs.Outcome.{outcome_of};
    ghost use Rattle.ota_core.specs.declared.entries.Entry.{Entry};
    ghost use Rattle.keyset_book.specs.Book.{StandsFor, has_room_for, HasRoom, needs_no_room};
    ghost use Rattle.keyset_book.specs.Answers.{next_by, looked_of, settled_in};

    /// The book of the empty history.
    pub fn new(alloc: Global) -> Book
        ensures { StandsFor result [] }
    {
        Book {
            keysets: KeysetTable::new(alloc),
            jobs: JobTable::new(alloc),
            counters: CounterTable::new(alloc),
            moment: 0,
            entries: 0,
        }
    }

    /// The book of a history.
    pub fn from_history(alloc: Global, history: &History) -> Result<Book, Memory>
        ensures { IfOk result (λ book. StandsFor book history.now.entries) }
    {
        let mut book = Book::new(alloc);
        book.apply(history.entries())?;
        Ok(book)
    }

    /// Whether the entry may follow, or the first rule that it breaks. It takes no memory.
    pub fn may_add(&self, entry: &Entry) -> Result<(), Illegal>
        ensures { (history : List Entry) → StandsFor self.now history → result_err result ≡ broken (reverse history) entry.now }
    {
        may_follow(self, entry)
    }

    /// Makes places for these entries, so that they can be put without memory: each in the time of a look-up. The book
    /// stands for what it stood for, also where memory is wanting. Places stay.
    pub fn make_room(&mut self, entries: &[Entry]) -> Result<(), Memory>
        ensures same { (history : List Entry) → StandsFor self.old history → StandsFor self.new history }
        ensures room { OnOk result (HasRoom self.new entries.now) }
        ensures kept { (others : List Entry) → HasRoom self.old others → HasRoom self.new others }
        ensures there { HasRoom self.old entries.now → is_ok result ≡ true }
    {
        make_room(self, entries)
    }

    /// Puts entries that are legal one after the other, and for which there is room, behind the others. It takes no
    /// memory.
    pub fn put(&mut self, entries: &[Entry])
        requires room { HasRoom self.old entries.now }
        ensures put { (history : List Entry) → StandsFor self.old history → broken_batch (reverse history) entries.now ≡ None → StandsFor self.new (history ++ entries.now) }
        ensures kept { (others : List Entry) → HasRoom self.old others → HasRoom self.new others }
    {
        for entry in entries {
            enter(self, entry);
        }
    }

    /// Puts entries that are legal one after the other behind the others: all or none. Where there is room, and for
    /// Done, Refused and Close alone, it takes no memory.
    pub fn apply(&mut self, entries: &[Entry]) -> Result<(), Memory>
        ensures ok { (history : List Entry) → StandsFor self.old history → broken_batch (reverse history) entries.now ≡ None → OnOk result (StandsFor self.new (history ++ entries.now)) }
        ensures err { (history : List Entry) → StandsFor self.old history → OnErr result (StandsFor self.new history) }
        ensures room { HasRoom self.old entries.now → is_ok result ≡ true }
        ensures kept { (others : List Entry) → HasRoom self.old others → HasRoom self.new others }
        ensures settling { list_all needs_no_room entries.now ≡ true → is_ok result ≡ true }
    {
        make_room(self, entries)?;
        self.put(entries);
        Ok(())
    }

    /// Puts an entry that may follow, by `may_add`, behind the others, or leaves the book as it was.
    pub fn add(&mut self, entry: &Entry) -> Result<(), Memory>
        ensures ok { (history : List Entry) → StandsFor self.old history → broken (reverse history) entry.now ≡ None → OnOk result (StandsFor self.new (history ++ entry.now ∷ [])) }
        ensures err { (history : List Entry) → StandsFor self.old history → OnErr result (StandsFor self.new history) }
        ensures room { has_room_for self.old entry.now ≡ true → is_ok result ≡ true }
        ensures kept { (others : List Entry) → HasRoom self.old others → HasRoom self.new others }
        ensures settling { needs_no_room entry.now ≡ true → is_ok result ≡ true }
    {
        make_room_for(self, entry)?;
        enter(self, entry);
        Ok(())
    }

    /// The counter of the keyset that comes next. It takes no memory.
    pub fn next(&self, keyset: KeysetId) -> Result<Counter, BookErr>
        ensures { (history : List Entry) → StandsFor self.now history → result ≡ next_by keyset (reverse history) }
    {
        next_after(self.keysets.look(keyset))
    }

    /// What has become of the job. It takes no memory.
    pub fn look(&self, job: JobId) -> Looked
        ensures { (history : List Entry) → StandsFor self.now history → result ≡ looked_of (outcome_of history job) }
    {
        looked_after(self, self.jobs.look(job))
    }

    /// How the keyset stands.
    pub fn keyset_state(&self, keyset: KeysetId) -> KeysetState
        ensures { (history : List Entry) → StandsFor self.now history → result ≡ state_of keyset (reverse history) }
    {
        state_with(self.keysets.look(keyset))
    }

    /// The facts with which the history opens the keyset.
    pub fn opened_facts(&self, keyset: KeysetId) -> Option<KeysetFacts>
        ensures { (history : List Entry) → StandsFor self.now history → result ≡ opened_facts keyset history }
    {
        facts_with(self.keysets.look(keyset))
    }

    /// The last counter of the keyset that is used up: the base of its Open, or the last reserved one.
    pub fn last_counter(&self, keyset: KeysetId) -> Option<Counter>
        ensures { (history : List Entry) → StandsFor self.now history → result ≡ first_some (counter_in keyset) (reverse history) }
    {
        last_with(self.keysets.look(keyset))
    }

    /// The last reservation for the job.
    pub fn last_reservation(&self, job: JobId) -> Option<Reservation>
        ensures { (history : List Entry) → StandsFor self.now history → result ≡ last_reservation job (reverse history) }
    {
        self.jobs.look(job)
    }

    /// Whether the counter is reserved.
    pub fn has_reserve(&self, counter: Reservation) -> bool
        ensures { (history : List Entry) → StandsFor self.now history → result ≡ list_any (is_reserve_of counter) (reverse history) }
    {
        self.counters.look(counter).is_some()
    }

    /// The position in the history, from 0, of the entry that reserves the counter. It takes no memory.
    pub fn position(&self, counter: Reservation) -> Option<u64>
        ensures { (history : List Entry) → StandsFor self.now history → length history ≤ 0xFFFF_FFFF_FFFF_FFFF → result ≡ position (is_reserve_of counter) history }
    {
        if self.has_reserve(counter) {
            return Some(self.counters.position(counter));
        }
        None
    }

    /// How the counter is settled, where it is.
    pub fn settlement(&self, counter: Reservation) -> Option<Settled>
        ensures { (history : List Entry) → StandsFor self.now history → result ≡ settled_in (find (is_settlement_of counter) (reverse history)) }
    {
        settled_with(self.counters.look(counter))
    }

    /// The moment of the last entry, or 0 where there is none.
    pub fn last_moment(&self) -> u64
        ensures { (history : List Entry) → StandsFor self.now history → result ≡ last_moment (reverse history) }
    {
        self.moment
    }
}
