//! How the log of a journal is opened and read, part by part.

ghost use Rattle.std.specs.Prelude.{◌≡◌, ℕ, ◌+◌, ◌<◌, List, [], ◌∷◌, ◌++◌, length, true, IfOk, IfErr, OnOk, OnErr};
ghost use Rattle.disk_model.specs.Disk.{Tells, image_now, DiskRun, Only};
ghost use Rattle.gate_log.specs.Answers.{LogCause, UnlessFault, IsNotFull, IsWantOrFault};
ghost use Rattle.gate_log.specs.Opening.{IsOpenLog};
ghost use Rattle.gate_log.specs.Reading.{parts_of};
ghost use Rattle.gate_log.specs.Readers.{has_ended, IsReading, ReadOnTicks};
ghost use Rattle.gate_log.specs.Windows.{IsWithin};
ghost use Rattle.keyset_book.specs.Book.{StandsFor};
ghost use Rattle.counter_journal.specs.EntryRanges.{IsHistory, LONGEST_ENTRY};
ghost use Rattle.counter_journal.specs.HistoryReading.{IsKeptPast, IsReadSoFar, IsReadThrough, PastAnswer, first_wrong, checked};
ghost use Rattle.counter_journal.specs.Journal.{journal_head};
ghost use Rattle.counter_journal.specs.JournalOpening.{IsBeforeOrOpened, IsLeftRefused};
ghost use Rattle.counter_journal.specs.JournalCalls.{OpenedTicks};

use crate::batches::room_for;
use crate::heads::head_of;
use crate::histories_read::{Past, no_past};
use disk_model::DiskCalls;
use gate_log::{Batch, Log, LogErr, LogReader};
use ota_core::Memory;
use std::alloc::Global;

/// A journal's log that was opened, what was read of it, and a batch for one entry.
#[derive(Drop)]
pub struct OpenedLog {
    pub log: Log,
    pub past: Past,
    pub batch: Batch,
}

/// What was read of a log, and the number of the first part that is bad.
#[derive(Drop)]
pub struct LogRead {
    pub past: Past,
    pub wrong: Option<u64>,
}

/// Opens the log of the journal of this lane, and reads its history: each octet once.
///
/// A part that is wrong ahead of a damaged batch comes first. What lies behind the closed gate is cut off, also where a
/// part is then wrong. Memory is taken before that, also for the first batch.
pub fn open_log<D: DiskCalls>(
    alloc: Global,
    disk: &mut D,
    lane: u16,
    lanes: u16,
) -> Result<OpenedLog, LogErr>
    requires { 0 < lanes }
    ensures answer { Tells D.told disk.old → PastAnswer lane lanes (D.told.seen disk.old) (D.told.seen disk.new) result }
    ensures settled { Tells D.told disk.old → IfOk result (λ opened. IsOpenLog D.told disk.new opened.log) }
    ensures refused { Tells D.told disk.old → IfErr result (IsLeftRefused (journal_head lane lanes) (D.told.seen disk.old) (D.told.seen disk.new)) }
    ensures durable { Tells D.told disk.old → UnlessFault result (Only (D.told.seen disk.new) (image_now D.told disk.new)) }
    ensures moments { Tells D.told disk.old → DiskRun D.told disk.old disk.new (IsBeforeOrOpened D.told disk.old lane lanes) }
    ensures kept { IfOk result (λ opened. IsKeptPast lane lanes opened.past) }
    ensures batch { IfOk result (λ opened. opened.batch ≡ record { parts = []; parts_room = 1; octets_room = LONGEST_ENTRY }) }
    ensures clock { Tells D.told disk.old → OpenedTicks (parts_of (journal_head lane lanes) (D.told.seen disk.old)) (length (D.told.seen disk.old)) (D.told.clock disk.old) (D.told.clock disk.new) result }
    ensures tells { D.told.tells disk.new ≡ D.told.tells disk.old }
    ensures cause { LogCause (D.counts disk.old) (D.counts disk.new) result }
    ensures not_full { IfErr result IsNotFull }
{
    let mut reader = LogReader::begin(alloc, disk, head_of(lane, lanes))?;
    let batch = room_for(alloc, 1)?;
    let read = read_past(alloc, &mut reader, disk, lane, lanes)?;
    let finished = reader.finish(disk);
    let log = checked(finished, read.wrong)?;
    Ok(OpenedLog {
        log,
        past: read.past,
        batch,
    })
}

/// The log, unless a part of it was bad.
fn checked(finished: Result<Log, LogErr>, wrong: Option<u64>) -> Result<Log, LogErr>
    ensures { result ≡ checked finished wrong }
{
    match finished {
        Ok(log) => match wrong {
            None => Ok(log),
            Some(number) => Err(LogErr::Damaged(number)),
        },
        Err(error) => Err(first_wrong(error, wrong)),
    }
}

/// The refusal of a log, or of a bad part ahead of its damaged batch.
fn first_wrong(error: LogErr, wrong: Option<u64>) -> LogErr
    ensures { result ≡ first_wrong error wrong }
{
    match error {
        LogErr::Damaged(end) => match wrong {
            None => LogErr::Damaged(end),
            Some(number) => LogErr::Damaged(number),
        },
        _ => error,
    }
}

/// Reads the parts up to the end of the log. From the first bad part on they are only counted.
fn read_past<D: DiskCalls>(
    alloc: Global,
    reader: &mut LogReader,
    disk: &mut D,
    lane: u16,
    lanes: u16,
) -> Result<LogRead, LogErr>
    requires { 0 < lanes }
    ensures read { Tells D.told disk.old → (head : List ℕ) → IsReading head (D.told.seen disk.old) [] reader.old
        → IfOk result (IsReadThrough head (D.told.seen disk.old) lane lanes reader.new) }
    ensures kept { IfOk result (λ read. IsKeptPast lane lanes read.past) }
    ensures ended { OnOk result (has_ended reader.new ≡ true) }
    ensures clock { Tells D.told disk.old → (head : List ℕ) → IsReading head (D.told.seen disk.old) [] reader.old
        → ReadOnTicks (D.told.clock disk.old) (D.told.clock disk.new) reader.old reader.new result }
    ensures within { IsWithin reader.new.windows }
    ensures content { Tells D.told disk.old → UnlessFault result (D.told.seen disk.new ≡ D.told.seen disk.old) }
    ensures moments { Tells D.told disk.old → DiskRun D.told disk.old disk.new (image_now D.told disk.old) }
    ensures tells { D.told.tells disk.new ≡ D.told.tells disk.old }
    ensures cause { LogCause (D.counts disk.old) (D.counts disk.new) result }
    ensures err { IfErr result IsWantOrFault }
{
    let mut past = no_past(alloc);
    let mut wrong = None;
    while reader.next_part(disk)? {
        wrong = take_part(
            alloc,
            &mut past,
            wrong,
            reader.part(),
            reader.given(),
            lane,
            lanes,
        )?;
    }
    Ok(LogRead { past, wrong })
}

/// Takes the part of this number, where none before it was bad. The number of the first that is bad.
fn take_part(
    alloc: Global,
    past: &mut Past,
    wrong: Option<u64>,
    part: &[u8],
    number: u64,
    lane: u16,
    lanes: u16,
) -> Result<Option<u64>, Memory>
    requires some { 0 < lanes }
    requires kept { IsKeptPast lane lanes past.old }
    ensures read { (parts : List (List ℕ)) → IsReadSoFar lane lanes parts past.old wrong → number ≡ length parts + 1
        → IfOk result (IsReadSoFar lane lanes (parts ++ part.now ∷ []) past.new) }
    ensures kept { OnOk result (IsKeptPast lane lanes past.new) }
{
    match wrong {
        Some(first) => Ok(Some(first)),
        None => {
            let taken = past.take(alloc, part, lane, lanes)?;
            if taken {
                return Ok(None);
            }
            Ok(Some(number))
        }
    }
}
