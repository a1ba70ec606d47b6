//! How the history of a lane is read from the parts of its log.

ghost use Rattle.std.specs.Prelude.{◌≡◌, ◌%◌, ◌==◌, ◌<◌, [], List, is_none, reverse, IfOk, OnOk};
ghost use Rattle.ota_core.specs.Entry.{keyset_of};
ghost use Rattle.ota_core.specs.History.{broken};
ghost use Rattle.ota_core.specs.declared.entries.Entry.{Entry};
ghost use Rattle.keyset_book.specs.Book.{StandsFor};
ghost use Rattle.counter_journal.specs.declared.versions.Version.TheVariants.{First};
ghost use Rattle.counter_journal.specs.HistoryReading.{IsRead, IsNext, belongs, is_mark, IsMarkTaken, IsTaken};

use crate::entries_read::entry_in;
use crate::versions::Version;
use keyset_book::Book;
use ota_core::{Entry, History, Memory};
use std::alloc::Global;

/// What was read of a journal: its history so far, the book of it, and the version of the part that comes next.
#[derive(Drop)]
pub struct Past {
    pub history: History,
    pub book: Book,
    pub version: Version,
}

/// Nothing was read.
pub fn no_past(alloc: Global) -> Past
    ensures none { result.history.entries ≡ [] }
    ensures first { result.version ≡ First }
    ensures stands { StandsFor result.book result.history.entries }
{
    Past {
        history: History::new(alloc),
        book: Book::new(alloc),
        version: Version::First,
    }
}

impl Past {
    /// Reads the next part: an entry of the lane that may follow, or the mark of the second version where none stands
    /// before it. False where it is neither.
    pub fn take(
        &mut self,
        alloc: Global,
        part: &[u8],
        lane: u16,
        lanes: u16,
    ) -> Result<bool, Memory>
        requires some { 0 < lanes }
        requires stands { StandsFor self.old.book self.old.history.entries }
        ensures taken { IfOk result (λ taken. IsTaken lane lanes self.old part.now taken self.new) }
        ensures stands { OnOk result (StandsFor self.new.book self.new.history.entries) }
    {
        if is_mark(part) {
            return Ok(self.begin_second());
        }
        match next_entry(alloc, &self.book, self.version, part, lane, lanes)? {
            None => Ok(false),
            Some(entry) => {
                self.book.add(&entry)?;
                self.history.add(entry)?;
                Ok(true)
            }
        }
    }

    /// Goes on in the second version, where it doesn't already.
    fn begin_second(&mut self) -> bool
        ensures { IsMarkTaken self.old result self.new }
    {
        let first = self.version == Version::First;
        self.version = Version::Second;
        first
    }
}

/// The part that says that the second version begins.
pub const MARK: [u8; 2] = [0x06, 0x02];

/// Whether the part is the mark of the second version.
fn is_mark(part: &[u8]) -> bool
    ensures { result ≡ is_mark part.now }
{
    match part {
        [first, second] => *first == 0x06 && *second == 0x02,
        _ => false,
    }
}

/// The entry of the lane that this part is and that may follow, by the book of the entries before it.
fn next_entry(
    alloc: Global,
    book: &Book,
    version: Version,
    part: &[u8],
    lane: u16,
    lanes: u16,
) -> Result<Option<Entry>, Memory>
    requires { 0 < lanes }
    ensures { (history : List Entry) → StandsFor book.now history → IfOk result (IsNext lane lanes history version part.now) }
{
    match read_entry(alloc, version, part)? {
        None => Ok(None),
        Some(entry) => {
            if !belongs(book, &entry, lane, lanes) {
                return Ok(None);
            }
            Ok(Some(entry))
        }
    }
}

/// The entry of this version that this part is.
fn read_entry(alloc: Global, version: Version, part: &[u8]) -> Result<Option<Entry>, Memory>
    ensures { IfOk result (IsRead version part.now) }
{
    entry_in(alloc, version, part)
}

/// Whether the entry is of the lane and may follow, by the book of the entries before it.
fn belongs(book: &Book, entry: &Entry, lane: u16, lanes: u16) -> bool
    requires { 0 < lanes }
    ensures { (history : List Entry) → StandsFor book.now history → result ≡ belongs lane lanes history entry.now }
{
    lane_of(entry, lanes) == u64::from(lane) && may_follow(book, entry)
}

/// Whether the entry may follow, by the book of the entries before it.
fn may_follow(book: &Book, entry: &Entry) -> bool
    ensures { (history : List Entry) → StandsFor book.now history → result ≡ is_none (broken (reverse history) entry.now) }
{
    book.may_add(entry).is_ok()
}

/// The lane of the entry's card: its number modulo the number of lanes.
fn lane_of(entry: &Entry, lanes: u16) -> u64
    requires { 0 < lanes }
    ensures { result ≡ (keyset_of entry.now).card.0 % lanes }
{
    entry.keyset().card.0 % u64::from(lanes)
}
