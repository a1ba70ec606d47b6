//! A log on a disk: how it is opened and read, and how batches are added.

ghost use Rattle.std.specs.Prelude.{◌≡◌, ◌⊎◌, ℕ, ◌+◌, ◌^◌, ◌<◌, ◌≤◌, [], ◌++◌, length, List, Err, IfOk, IfErr, OnOk, OnErr};
ghost use Rattle.disk_model.specs.Disk.{Tells, image_now, DiskRun, Only};
ghost use Rattle.gate_log.specs.Reading.{parts_of, OpensTo};
ghost use Rattle.gate_log.specs.Reading.Reading.{Opened, Damaged};
ghost use Rattle.gate_log.specs.Answers.{LogCause, UnlessFault, Answers, IsNotFull, IsNotDamaged};
ghost use Rattle.gate_log.specs.Opening.{OpensAlike, IsOpened, IsOpenLog, AppendAnswer, AppendTicks, need_of};
ghost use Rattle.gate_log.specs.Append.{opened_with};
ghost use Rattle.gate_log.specs.Batches.{framed};
ghost use Rattle.gate_log.specs.Calls.{WholeTicks, calls_of_end, behind_in};
ghost use Rattle.gate_log.specs.declared.log_errors.LogErr.TheVariants as log_err;

use crate::appends::append;
use crate::batches::Batch;
use crate::log_errors::LogErr;
use crate::readers::{LogReader, read_parts, read_through};
use disk_model::DiskCalls;
use ota_core::Octets;
use std::alloc::Global;
use std::marker::Model;

/// A log on a disk. It keeps no parts in memory. Contracts see its length in octets.
#[derive(Debug, Drop)]
pub struct Log {
    len: u64,
}

impl Model for Log {
    ghost use Rattle.std.specs.Prelude.{ℕ, ◌≤◌, ◌<◌, ◌^◌};

    ghost Value = { ℕ };

    ghost view = { λ log. log.len };

    ghost invariant = { λ log. (11 ≤ log.len) × (log.len < 2 ^ 63) };
}

/// The greatest length of a log in octets.
const LIMIT: u64 = 16_777_216;

impl Log {
    /// A log of this length in octets.
    pub(crate) fn of_length(len: u64) -> Log
        requires long { 11 ≤ len }
        requires fits { len < 2 ^ 63 }
        ensures { result ≡ len }
    {
        Log { len }
    }

    /// The log's length in octets.
    pub fn length(&self) -> u64
        ensures { result ≡ self.now }
    {
        self.len
    }

    /// Adds a batch of 1 to 16 parts, all or none. It takes no memory.
    ///
    /// The disk is as `open`, or the last `append` that answered Ok, left it for this log. A stop at any moment leaves
    /// what opens to the parts so far, or to them and the whole batch; after Ok, to these. `Full` comes exactly where
    /// the log would be longer than 16,777,216 octets, and nothing is changed. After a fault the log is opened again.
    pub fn append<D: DiskCalls>(&mut self, disk: &mut D, batch: &Batch) -> Result<(), LogErr>
        requires some { 1 ≤ length batch.now.parts }
        requires few { length batch.now.parts ≤ 16 }
        requires settled { Tells D.told disk.old → IsOpenLog D.told disk.old self.old }
        ensures moments { Tells D.told disk.old → (head : List ℕ) (parts : List (List ℕ)) → parts_of head (D.told.seen disk.old) ≡ Opened parts []
            → DiskRun D.told disk.old disk.new (λ image. OpensTo head parts image ⊎ OpensTo head (parts ++ batch.now.parts) image) }
        ensures appended { Tells D.told disk.old → OnOk result ((head : List ℕ) (parts : List (List ℕ)) → parts_of head (D.told.seen disk.old) ≡ Opened parts []
            → parts_of head (D.told.seen disk.new) ≡ Opened (parts ++ batch.now.parts) []) }
        ensures content { Tells D.told disk.old → OnOk result (D.told.seen disk.new ≡ opened_with (D.told.seen disk.old) (framed batch.now.parts)) }
        ensures settled { Tells D.told disk.old → OnOk result (IsOpenLog D.told disk.new self.new) }
        ensures answer { AppendAnswer self.old (need_of batch.now.parts) result }
        ensures unchanged { (size need : ℕ) → result ≡ Err (log_err.Full size need) → disk.new ≡ disk.old }
        ensures length { OnOk result (self.new ≡ self.old + need_of batch.now.parts) }
        ensures err { OnErr result (self.new ≡ self.old) }
        ensures clock { Tells D.told disk.old → AppendTicks (D.told.clock disk.old) (D.told.clock disk.new) result }
        ensures tells { D.told.tells disk.new ≡ D.told.tells disk.old }
        ensures cause { LogCause (D.counts disk.old) (D.counts disk.new) result }
    {
        let framed = batch.framed();
        let need = framed.len() as u64;
        if self.len + need > LIMIT {
            return Err(LogErr::Full {
                length: self.len,
                need,
            });
        }
        append(disk, self.len, framed)?;
        self.len += need;
        Ok(())
    }
}

/// Opens the log with this head.
///
/// The disk is synced first. Where octets lie behind the first closed gate they are cut off, and the disk is synced again;
/// that gate stays as it stands, since a stop inside a write of it could leave an open gate with nothing behind it. A stop at any
/// moment leaves what opens to the same parts.
pub fn open<D: DiskCalls>(alloc: Global, disk: &mut D, head: [u8; 9]) -> Result<Log, LogErr>
    ensures answer { Tells D.told disk.old → Answers (IsOpened head (D.told.seen disk.old) (D.told.seen disk.new)) (parts_of head (D.told.seen disk.old)) result }
    ensures same { Tells D.told disk.old → OnErr result (UnlessFault result (D.told.seen disk.new ≡ D.told.seen disk.old)) }
    ensures durable { Tells D.told disk.old → UnlessFault result (Only (D.told.seen disk.new) (image_now D.told disk.new)) }
    ensures settled { Tells D.told disk.old → IfOk result (IsOpenLog D.told disk.new) }
    ensures moments { Tells D.told disk.old → DiskRun D.told disk.old disk.new (λ image. image_now D.told disk.old image ⊎ OpensAlike head (D.told.seen disk.old) image) }
    ensures clock { Tells D.told disk.old → WholeTicks 2 (calls_of_end (behind_in (parts_of head (D.told.seen disk.old)))) (parts_of head (D.told.seen disk.old)) (length (D.told.seen disk.old)) (D.told.clock disk.old) (D.told.clock disk.new) result }
    ensures tells { D.told.tells disk.new ≡ D.told.tells disk.old }
    ensures cause { LogCause (D.counts disk.old) (D.counts disk.new) result }
    ensures not_full { IfErr result IsNotFull }
{
    let mut reader = LogReader::begin(alloc, disk, head)?;
    read_through(&mut reader, disk)?;
    reader.finish(disk)
}

/// The parts of a log, in order.
pub fn records<D: DiskCalls>(
    alloc: Global,
    disk: &mut D,
    head: [u8; 9],
) -> Result<Vec<Octets>, LogErr>
    ensures answer { Tells D.told disk.old → Answers (λ parts. OpensTo head parts.items (D.told.seen disk.old)) (parts_of head (D.told.seen disk.old)) result }
    ensures content { Tells D.told disk.old → UnlessFault result (D.told.seen disk.new ≡ D.told.seen disk.old) }
    ensures moments { Tells D.told disk.old → DiskRun D.told disk.old disk.new (image_now D.told disk.old) }
    ensures clock { Tells D.told disk.old → WholeTicks 1 0 (parts_of head (D.told.seen disk.old)) (length (D.told.seen disk.old)) (D.told.clock disk.old) (D.told.clock disk.new) result }
    ensures tells { D.told.tells disk.new ≡ D.told.tells disk.old }
    ensures cause { LogCause (D.counts disk.old) (D.counts disk.new) result }
    ensures not_full { IfErr result IsNotFull }
{
    let mut reader = LogReader::look(alloc, disk, head)?;
    let parts = read_parts(alloc, &mut reader, disk)?;
    reader.ending()?;
    Ok(parts)
}

/// The parts of a log up to the gate that ends it, or up to the first batch that is damaged. It never answers `Damaged`.
pub fn sound_records<D: DiskCalls>(
    alloc: Global,
    disk: &mut D,
    head: [u8; 9],
) -> Result<Vec<Octets>, LogErr>
    ensures answer { Tells D.told disk.old → Answers (λ parts. OpensTo head parts.items (D.told.seen disk.old) ⊎ (parts_of head (D.told.seen disk.old) ≡ Damaged parts.items)) (parts_of head (D.told.seen disk.old)) result }
    ensures content { Tells D.told disk.old → UnlessFault result (D.told.seen disk.new ≡ D.told.seen disk.old) }
    ensures moments { Tells D.told disk.old → DiskRun D.told disk.old disk.new (image_now D.told disk.old) }
    ensures clock { Tells D.told disk.old → WholeTicks 1 0 (parts_of head (D.told.seen disk.old)) (length (D.told.seen disk.old)) (D.told.clock disk.old) (D.told.clock disk.new) result }
    ensures tells { D.told.tells disk.new ≡ D.told.tells disk.old }
    ensures cause { LogCause (D.counts disk.old) (D.counts disk.new) result }
    ensures not_full { IfErr result IsNotFull }
    ensures not_damaged { IfErr result IsNotDamaged }
{
    let mut reader = LogReader::look(alloc, disk, head)?;
    read_parts(alloc, &mut reader, disk)
}
