//! The journal of a lane.

ghost use Rattle.std.specs.Prelude.{◌≡◌, ◌⊎◌, ◌+◌, ◌*◌, ◌^◌, ◌<◌, ◌≤◌, [], ◌∷◌, ◌++◌, ℕ, List, All, None, length, reverse, IfOk, IfErr, OnOk, OnErr};
ghost use Rattle.disk_model.specs.Disk.{Tells, image_now, DiskRun, Only};
ghost use Rattle.gate_log.specs.Reading.{parts_of, OpensTo};
ghost use Rattle.gate_log.specs.Reading.Reading.{Opened};
ghost use Rattle.gate_log.specs.Answers.{LogCause, UnlessFault, IsNotFull};
ghost use Rattle.gate_log.specs.Opening.{IsOpenLog, AppendTicks, need_of};
ghost use Rattle.ota_core.specs.History.{IsLegal, broken_batch};
ghost use Rattle.keyset_book.specs.Book.{StandsFor, HasRoom};
ghost use Rattle.counter_journal.specs.declared.versions.Version.TheVariants.{First};
ghost use Rattle.counter_journal.specs.EntryOctets.{MARK};
ghost use Rattle.counter_journal.specs.EntryRanges.{IsSized, IsEntry, IsOfLane, IsEntryOf, IsHistory, LONGEST_ENTRY};
ghost use Rattle.counter_journal.specs.Journal.{journal_head};
ghost use Rattle.counter_journal.specs.HistoryReading.{IsKeptPast};
ghost use Rattle.counter_journal.specs.JournalOpening.{IsBeforeOrOpened, IsOpenedTo, IsLeftRefused, IsGoingOn, IsFault};
ghost use Rattle.counter_journal.specs.JournalCalls.{OpeningTicks};
ghost use Rattle.counter_journal.specs.JournalReading.{parts_for, Holds, OpeningAnswer, IsReady, IsRoomy, IsSameJournal, AddAnswer, UnlessWanting, IsBeforeCalls};

use crate::batches::{put_entries, room_for};
use crate::marks::go_on;
use crate::openings::{OpenedLog, open_log};
use disk_model::DiskCalls;
use gate_log::{Batch, Log, LogErr};
use keyset_book::Book;
use ota_core::{Entry, History, Memory};
use std::alloc::Global;
use std::fmt;
use std::marker::Model;

/// The journal of a lane on a disk: its history, and where its log ends.
#[derive(Drop)]
pub struct Journal {
    alloc: Global,
    lane: u16,
    lanes: u16,
    log: Log,
    history: History,
    book: Book,
    /// Room for the octets of a batch. It is empty between the calls.
    batch: Batch,
    /// For how many entries the batch has room.
    batch_room: u32,
    /// For how many entries there is room in the batch and in the history.
    room: u32,
}

impl Model for Journal {
    ghost use Rattle.counter_journal.specs.JournalReading.{JournalValue};
    ghost use Rattle.counter_journal.specs.JournalKept.{IsJournalKept};
    ghost use Rattle.keyset_book.specs.contracts.books.Book as kept;
    ghost use Rattle.std.specs.Coded.{codes};

    ghost Value = { JournalValue };

    ghost coded = { Prim.hlevel (codes, kept.the_row.coded) };

    ghost view = { λ j. record { lane = j.lane; lanes = j.lanes; entries = j.history.entries; length = j.log; room = j.room; book = j.book } };

    ghost invariant = { λ j. IsJournalKept j.lane j.lanes j.history j.book j.batch j.batch_room j.room };
}

impl fmt::Debug for Journal {
    fn fmt<W: fmt::Write>(&self, f: &mut fmt::Formatter<W>) -> Result<(), fmt::Error> {
        write!(f, "Journal of lane {} of {}", self.lane, self.lanes)
    }
}

impl Journal {
    /// Opens the journal of this lane, of so many lanes, and reads its history.
    ///
    /// The log is opened as such, so that octets behind its gate are cut off. A journal of version 1 is taken over: once
    /// its history is read, the mark of version 2 is added, of 11 octets with its batch. Where the log has no room for
    /// these it stays of version 1, and no entry can be added. `Damaged` has the number, from 1, of the first part that
    /// is wrong in any way: it is no entry, it is of a card of another lane, it breaks a rule of the history, it is a
    /// second mark, or its batch is damaged. Where an entry is wrong, what lies behind the gate is cut off; every other
    /// refusal, `Memory` among them, leaves all octets. A stop at any moment leaves what holds the same history. It never
    /// answers `Full`.
    pub fn open<D: DiskCalls>(
        alloc: Global,
        disk: &mut D,
        lane: u16,
        lanes: u16,
    ) -> Result<Journal, LogErr>
        requires { lane < lanes }
        ensures answer { Tells D.told disk.old → OpeningAnswer lane lanes (D.told.seen disk.old) result }
        ensures ready { Tells D.told disk.old → IfOk result (IsReady D.told disk.new) }
        ensures content { Tells D.told disk.old → IfOk result (IsOpenedTo (D.told.seen disk.old) (D.told.seen disk.new)) }
        ensures refused { Tells D.told disk.old → IfErr result (IsLeftRefused (journal_head lane lanes) (D.told.seen disk.old) (D.told.seen disk.new)) }
        ensures durable { Tells D.told disk.old → UnlessFault result (Only (D.told.seen disk.new) (image_now D.told disk.new)) }
        ensures moments { Tells D.told disk.old → DiskRun D.told disk.old disk.new (IsBeforeOrOpened D.told disk.old lane lanes) }
        ensures lane { IfOk result (λ journal. (journal.lane ≡ lane) × (journal.lanes ≡ lanes)) }
        ensures history { IfOk result (λ journal. IsHistory lane lanes journal.entries) }
        ensures book { IfOk result (λ journal. StandsFor journal.book journal.entries) }
        ensures clock { Tells D.told disk.old → OpeningTicks (parts_of (journal_head lane lanes) (D.told.seen disk.old)) (length (D.told.seen disk.old)) (D.told.clock disk.old) (D.told.clock disk.new) result }
        ensures tells { D.told.tells disk.new ≡ D.told.tells disk.old }
        ensures cause { LogCause (D.counts disk.old) (D.counts disk.new) result }
        ensures not_full { IfErr result IsNotFull }
    {
        let opened = open_log(alloc, disk, lane, lanes)?;
        journal_of(alloc, disk, lane, lanes, opened)
    }

    /// The history that the journal holds. Each reserved script in it has 1 to 4,096 octets, and
    /// each name at most 32.
    pub fn history(&self) -> &History
        ensures entries { result.now.entries ≡ self.now.entries }
        ensures of_lane { All (IsEntryOf self.now.lane self.now.lanes) self.now.entries }
        ensures legal { IsLegal self.now.entries }
    {
        &self.history
    }

    /// Gives the history that the journal holds.
    pub fn into_history(self) -> History
        ensures entries { result.entries ≡ self.entries }
        ensures of_lane { All (IsEntryOf self.lane self.lanes) result.entries }
        ensures legal { IsLegal result.entries }
    {
        self.history
    }

    /// The book of the history, which answers its questions without a walk.
    pub fn book(&self) -> &Book
        ensures book { result.now ≡ self.now.book }
        ensures stands { StandsFor self.now.book self.now.entries }
    {
        &self.book
    }

    /// The length of the journal's log in octets.
    pub fn length(&self) -> u64
        ensures { result ≡ self.now.length }
    {
        self.log.length()
    }

    /// Makes room for one addition of so many entries, of 1 to 16. Where none of them is Open or Reserve, it then wants no
    /// memory.
    pub fn make_room(&mut self, entries: u32) -> Result<(), Memory>
        requires some { 1 ≤ entries }
        requires few { entries ≤ 16 }
        ensures same { IsSameJournal self.old self.new }
        ensures ok { OnOk result (entries ≤ self.new.room) }
        ensures err { OnErr result (self.old.room < entries) }
        ensures room { self.old.room ≤ self.new.room }
        ensures book { self.new.book ≡ self.old.book }
    {
        if self.room >= entries {
            return Ok(());
        }
        self.history.reserve(entries as usize)?;
        if self.batch_room < entries {
            self.batch = room_for(self.alloc, entries)?;
            self.batch_room = entries;
        }
        self.room = entries;
        Ok(())
    }

    /// Makes room for one addition of these 1 to 16 entries, which then wants no memory: each in the time of a look-up.
    pub fn make_room_for(&mut self, entries: &[Entry]) -> Result<(), Memory>
        requires some { 1 ≤ length entries.now }
        requires few { length entries.now ≤ 16 }
        ensures same { IsSameJournal self.old self.new }
        ensures ok { OnOk result (IsRoomy self.new entries.now) }
        ensures err { OnErr result (¬ IsRoomy self.old entries.now) }
        ensures room { self.old.room ≤ self.new.room }
        ensures places { (others : List Entry) → HasRoom self.old.book others → HasRoom self.new.book others }
    {
        self.make_room(entries.len() as u32)?;
        self.book.make_room(entries)
    }

    /// Adds 1 to 16 entries in one batch, all or none.
    ///
    /// They are legal one after the other, of cards of this lane, with scripts of 1 to 4,096 octets, answers of at
    /// most 4,096, and names of at most 32. The disk is as the opening, or the last addition that answered Ok, left it. A
    /// stop at any moment leaves the journal of the history so far, or of it and all entries; after Ok, of these.
    /// `Memory`, only where there was no room for them, and `Full` come before the first device call, with nothing
    /// changed. After a fault of the disk the history is the one before, and the journal is opened again. What isn't
    /// added uses no room up.
    pub fn add<D: DiskCalls>(&mut self, disk: &mut D, entries: Vec<Entry>) -> Result<(), LogErr>
        requires some { 1 ≤ length entries.items }
        requires few { length entries.items ≤ 16 }
        requires sized { All IsSized entries.items }
        requires of_lane { All (IsOfLane self.old.lane self.old.lanes) entries.items }
        requires legal { broken_batch (reverse self.old.entries) entries.items ≡ None }
        requires ready { Tells D.told disk.old → IsReady D.told disk.old self.old }
        ensures moments { Tells D.told disk.old → DiskRun D.told disk.old disk.new (λ image. Holds self.old.lane self.old.lanes self.old.entries image ⊎ Holds self.old.lane self.old.lanes (self.old.entries ++ entries.items) image) }
        ensures ready { Tells D.told disk.old → OnOk result (IsReady D.told disk.new self.new) }
        ensures fit { UnlessWanting result (All IsEntry entries.items) }
        ensures added { OnOk result (self.new.entries ≡ self.old.entries ++ entries.items) }
        ensures length { OnOk result (self.new.length ≡ self.old.length + need_of (parts_for entries.items)) }
        ensures history { OnOk result (IsHistory self.old.lane self.old.lanes self.new.entries) }
        ensures lane { (self.new.lane ≡ self.old.lane) × (self.new.lanes ≡ self.old.lanes) }
        ensures err { OnErr result (IsSameJournal self.old self.new) }
        ensures room { OnOk result (self.old.room ≤ self.new.room + length entries.items) }
        ensures room_err { OnErr result (self.old.room ≤ self.new.room) }
        ensures places { (others : List Entry) → HasRoom self.old.book others → HasRoom self.new.book others }
        ensures book { OnOk result (StandsFor self.new.book self.new.entries) }
        ensures answer { AddAnswer self.old entries.items (need_of (parts_for entries.items)) result }
        ensures unchanged { IfErr result (λ error. IsBeforeCalls error → disk.new ≡ disk.old) }
        ensures clock { Tells D.told disk.old → AppendTicks (D.told.clock disk.old) (D.told.clock disk.new) result }
        ensures tells { D.told.tells disk.new ≡ D.told.tells disk.old }
        ensures cause { LogCause (D.counts disk.old) (D.counts disk.new) result }
    {
        let count = entries.len() as u32;
        self.make_room_for(&entries)?;
        put_entries(&mut self.batch, &entries);
        let appended = self.log.append(disk, &self.batch);
        self.batch.clear();
        appended?;
        self.book.put(&entries);
        add_all(&mut self.history, entries);
        self.room -= count;
        Ok(())
    }
}

/// The journal of a log that was opened and read. Where its parts are of the first version it is taken over.
fn journal_of<D: DiskCalls>(
    alloc: Global,
    disk: &mut D,
    lane: u16,
    lanes: u16,
    opened: OpenedLog,
) -> Result<Journal, LogErr>
    requires some { 0 < lanes }
    requires kept { IsKeptPast lane lanes opened.past }
    requires batch { opened.batch ≡ record { parts = []; parts_room = 1; octets_room = LONGEST_ENTRY } }
    requires settled { Tells D.told disk.old → IsOpenLog D.told disk.old opened.log }
    ensures made { IfOk result (λ journal. (journal ≡ record { lane = lane; lanes = lanes; entries = opened.past.history.entries; length = journal.length; room = 0; book = opened.past.book })
        × IsGoingOn D.told disk.old disk.new opened.past.version opened.log journal.length) }
    ensures moments { Tells D.told disk.old → (head : List ℕ) (parts : List (List ℕ)) → parts_of head (D.told.seen disk.old) ≡ Opened parts []
        → DiskRun D.told disk.old disk.new (λ image. OpensTo head parts image ⊎ ((opened.past.version ≡ First) × OpensTo head (parts ++ MARK ∷ []) image)) }
    ensures clock { Tells D.told disk.old → IfErr result (λ error. (D.told.clock disk.old ≤ D.told.clock disk.new) × (D.told.clock disk.new ≤ D.told.clock disk.old + 4)) }
    ensures tells { D.told.tells disk.new ≡ D.told.tells disk.old }
    ensures cause { LogCause (D.counts disk.old) (D.counts disk.new) result }
    ensures err { IfErr result IsFault }
{
    let mut batch = opened.batch;
    let log = go_on(disk, opened.log, &mut batch, opened.past.version)?;
    Ok(Journal {
        alloc,
        lane,
        lanes,
        log,
        history: opened.past.history,
        book: opened.past.book,
        batch,
        batch_room: 1,
        room: 0,
    })
}

/// Adds entries for which there is room, and which are legal one after the other.
fn add_all(history: &mut History, entries: Vec<Entry>)
    requires legal { broken_batch (reverse history.old.entries) entries.items ≡ None }
    requires room { length entries.items ≤ history.old.room }
    ensures entries { history.new.entries ≡ history.old.entries ++ entries.items }
    ensures room { history.old.room ≤ history.new.room + length entries.items }
{
    let mut rest = entries.into_iter();
    while let Some(entry) = rest.next() {
        history.add(entry).unwrap();
    }
}
