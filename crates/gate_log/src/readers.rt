//! A log is read part by part.

ghost use Rattle.std.specs.Prelude.{◌≡◌, ◌⊎◌, ℕ, ◌+◌, ◌^◌, ◌≤◌, ◌<◌, List, [], ◌++◌, length, take, drop, true, false, Some, IfOk, IfErr, OnOk, OnErr};
ghost use Rattle.disk_model.specs.Disk.{Tells, image_now, DiskRun, Only};
ghost use Rattle.gate_log.specs.Reading.{parts_of, measured};
ghost use Rattle.gate_log.specs.Answers.{LogCause, UnlessFault, Answers, IsNotFull, IsNotDamaged, IsWantOrFault};
ghost use Rattle.gate_log.specs.Windows.{Looks, IsWithin, windows_in};
ghost use Rattle.gate_log.specs.Calls.{BeginTicks, EndTicks, behind_in};
ghost use Rattle.gate_log.specs.Readers.{ReaderState, has_ended, left, IsReading, IsReadOn, IsCounted, ReadOnTicks, FinishAnswer, IsFinishErr, IsReadTo, IsReadUp};
ghost use Rattle.gate_log.specs.Opening.{OpensAlike};
ghost use Rattle.gate_log.specs.ReaderSteps.{GivesPart, IsReached, EndAnswer, body_length};
ghost use Rattle.gate_log.specs.BatchesRead.{IsHeld};
ghost use Rattle.gate_log.specs.declared.standings.Standing.TheVariants.{Going, Closed};

use crate::batches_read::read_step;
use crate::contents::cut_behind;
use crate::headings::check_heading;
use crate::log_errors::LogErr;
use crate::logs::Log;
use crate::measures::measured;
use crate::standings::Standing;
use crate::windows::Windows;
use disk_model::DiskCalls;
use ota_core::Octets;
use std::alloc::Global;
use std::marker::Model;

/// A log that is read part by part, through one window of 65,536 octets. It holds the octets of one batch, and of a log
/// never more: a batch counts only once it is read whole.
///
/// The parts of a batch that is damaged aren't given, nor is anything behind it. After an error the reading is begun
/// anew.
#[derive(Debug, Drop)]
pub struct LogReader {
    windows: Windows,
    /// The batch with its gate and its length in front.
    batch: Vec<u8>,
    /// The length of the part that was given last. It stands in front of what is left of the batch.
    part: usize,
    /// How many octets of the batch are left.
    left: usize,
    given: u64,
    standing: Standing,
}

impl Model for LogReader {
    ghost use Rattle.std.specs.Prelude.{◌-◌, take, drop, vec_len};
    ghost use Rattle.gate_log.specs.Readers.{ReaderState};
    ghost use Rattle.gate_log.specs.ReaderKept.{IsReader};

    ghost Value = { ReaderState };

    ghost view = { λ r. record { given = r.given; part = take r.part (drop (vec_len r.batch - r.left - r.part) r.batch.items); batch = drop (vec_len r.batch - r.left) r.batch.items; windows = r.windows; standing = r.standing } };

    ghost invariant = { λ r. IsReader r.batch.items (vec_len r.batch) r.part r.left r.given r.windows r.standing };
}

impl LogReader {
    /// Begins to read the log with this head. The disk is synced first; then its length is asked, and its first window read.
    pub fn begin<D: DiskCalls>(
        alloc: Global,
        disk: &mut D,
        head: [u8; 9],
    ) -> Result<LogReader, LogErr>
        ensures answer { Tells D.told disk.old → Answers (IsReading head (D.told.seen disk.new) []) (parts_of head (D.told.seen disk.old)) result }
        ensures content { Tells D.told disk.old → UnlessFault result (D.told.seen disk.new ≡ D.told.seen disk.old) }
        ensures durable { Tells D.told disk.old → UnlessFault result (Only (D.told.seen disk.new) (image_now D.told disk.new)) }
        ensures moments { Tells D.told disk.old → DiskRun D.told disk.old disk.new (image_now D.told disk.old) }
        ensures tells { D.told.tells disk.new ≡ D.told.tells disk.old }
        ensures cause { LogCause (D.counts disk.old) (D.counts disk.new) result }
        ensures none { IfOk result (λ reader. reader.given ≡ 0) }
        ensures window { IfOk result (λ reader. windows_in reader.windows.read ≡ 1) }
        ensures within { IfOk result (λ reader. IsWithin reader.windows) }
        ensures clock { Tells D.told disk.old → BeginTicks 2 (length (D.told.seen disk.old)) (D.told.clock disk.old) (D.told.clock disk.new) result }
        ensures not_full { IfErr result IsNotFull }
        ensures not_damaged { IfErr result IsNotDamaged }
    {
        disk.sync()?;
        LogReader::look(alloc, disk, head)
    }

    /// The same without the sync.
    pub(crate) fn look<D: DiskCalls>(
        alloc: Global,
        disk: &mut D,
        head: [u8; 9],
    ) -> Result<LogReader, LogErr>
        ensures answer { Tells D.told disk.old → Answers (IsReading head (D.told.seen disk.old) []) (parts_of head (D.told.seen disk.old)) result }
        ensures content { Tells D.told disk.old → UnlessFault result (D.told.seen disk.new ≡ D.told.seen disk.old) }
        ensures moments { Tells D.told disk.old → DiskRun D.told disk.old disk.new (image_now D.told disk.old) }
        ensures tells { D.told.tells disk.new ≡ D.told.tells disk.old }
        ensures cause { LogCause (D.counts disk.old) (D.counts disk.new) result }
        ensures none { IfOk result (λ reader. reader.given ≡ 0) }
        ensures window { IfOk result (λ reader. windows_in reader.windows.read ≡ 1) }
        ensures within { IfOk result (λ reader. IsWithin reader.windows) }
        ensures clock { Tells D.told disk.old → BeginTicks 1 (length (D.told.seen disk.old)) (D.told.clock disk.old) (D.told.clock disk.new) result }
        ensures not_full { IfErr result IsNotFull }
        ensures not_damaged { IfErr result IsNotDamaged }
    {
        let mut windows = Windows::begin(alloc, disk)?;
        windows.first(disk)?;
        check_heading(windows.ahead(), &head)?;
        windows.pass(10);
        Ok(LogReader {
            windows,
            batch: Vec::new(alloc),
            part: 0,
            left: 0,
            given: 0,
            standing: Standing::Going,
        })
    }

    /// Reads on to the next part, and says whether there is one. Each window is read once, and only where it is wanted.
    pub fn next_part<D: DiskCalls>(&mut self, disk: &mut D) -> Result<bool, LogErr>
        ensures reading { Tells D.told disk.old → (head : List ℕ) (parts : List (List ℕ)) → IsReading head (D.told.seen disk.old) parts self.old
            → IfOk result (λ more. IsReadOn head (D.told.seen disk.new) parts more self.new) }
        ensures counted { IfOk result (λ more. IsCounted self.old more self.new) }
        ensures content { Tells D.told disk.old → UnlessFault result (D.told.seen disk.new ≡ D.told.seen disk.old) }
        ensures moments { Tells D.told disk.old → DiskRun D.told disk.old disk.new (image_now D.told disk.old) }
        ensures clock { Tells D.told disk.old → self.old.windows.long ≡ length (D.told.seen disk.old) → ReadOnTicks (D.told.clock disk.old) (D.told.clock disk.new) self.old self.new result }
        ensures within { IsWithin self.new.windows }
        ensures tells { D.told.tells disk.new ≡ D.told.tells disk.old }
        ensures cause { LogCause (D.counts disk.old) (D.counts disk.new) result }
        ensures err { IfErr result IsWantOrFault }
    {
        self.reach_part(disk)?;
        Ok(self.give_part())
    }

    /// The part that was given last.
    pub fn part(&self) -> &[u8]
        ensures { result.now ≡ self.now.part }
    {
        let end = self.batch.len() - self.left;
        &self.batch[end - self.part..end]
    }

    /// How many parts were given: the number, from 1, of the last.
    pub fn given(&self) -> u64
        ensures { result ≡ self.now.given }
    {
        self.given
    }

    /// Ends a reading whose parts were all given. `Damaged` has one more than their number, where a batch behind them is
    /// damaged; else what lies behind the closed gate is cut off, where anything does, and the disk is synced.
    ///
    /// The disk is as the last call of the reading left it.
    pub fn finish<D: DiskCalls>(self, disk: &mut D) -> Result<Log, LogErr>
        requires ended { has_ended self ≡ true }
        requires long { Tells D.told disk.old → self.windows.long ≡ length (D.told.seen disk.old) }
        requires only { Tells D.told disk.old → Only (D.told.seen disk.old) (image_now D.told disk.old) }
        ensures answer { Tells D.told disk.old → (head : List ℕ) (parts : List (List ℕ)) → IsReading head (D.told.seen disk.old) parts self
            → FinishAnswer head (D.told.seen disk.old) (D.told.seen disk.new) parts result }
        ensures same { Tells D.told disk.old → OnErr result (UnlessFault result (D.told.seen disk.new ≡ D.told.seen disk.old)) }
        ensures durable { Tells D.told disk.old → UnlessFault result (Only (D.told.seen disk.new) (image_now D.told disk.new)) }
        ensures moments { Tells D.told disk.old → (head : List ℕ) (parts : List (List ℕ)) → IsReading head (D.told.seen disk.old) parts self
            → DiskRun D.told disk.old disk.new (λ image. image_now D.told disk.old image ⊎ OpensAlike head (D.told.seen disk.old) image) }
        ensures clock { Tells D.told disk.old → (head : List ℕ) (parts : List (List ℕ)) → IsReading head (D.told.seen disk.old) parts self
            → EndTicks (behind_in (parts_of head (D.told.seen disk.old))) (D.told.clock disk.old) (D.told.clock disk.new) result }
        ensures err { IfErr result (IsFinishErr self.given) }
        ensures tells { D.told.tells disk.new ≡ D.told.tells disk.old }
        ensures cause { LogCause (D.counts disk.old) (D.counts disk.new) result }
    {
        self.ending()?;
        let end = self.end();
        cut_behind(disk, self.windows.long(), end)?;
        Ok(Log::of_length(end))
    }

    /// Whether the log ends in a closed gate, and no batch is damaged.
    pub(crate) fn ending(&self) -> Result<(), LogErr>
        requires { has_ended self.now ≡ true }
        ensures { EndAnswer self.now result }
    {
        match self.standing {
            Standing::Damaged => Err(LogErr::Damaged(self.given + 1)),
            _ => Ok(()),
        }
    }

    /// The place behind the closed gate.
    fn end(&self) -> u64
        requires { self.now.standing ≡ Closed }
        ensures place { result + length self.now.windows.ahead ≡ self.now.windows.read }
        ensures within { (11 ≤ result) × (result ≤ self.now.windows.long) × (self.now.windows.read ≤ self.now.windows.long) × (self.now.windows.long < 2 ^ 63) }
    {
        self.windows.place()
    }

    /// Reads on until a part stands in front, or the end of the log.
    fn reach_part<D: DiskCalls>(&mut self, disk: &mut D) -> Result<(), LogErr>
        ensures reached { OnOk result (IsReached self.old self.new) }
        ensures within { IsWithin self.new.windows }
        ensures same { Tells D.told disk.old → self.old.windows.long ≡ length (D.told.seen disk.old) → OnOk result (left self.new (D.told.seen disk.old) ≡ left self.old (D.told.seen disk.old)) }
        ensures looks { Looks D.told D.counts disk.old disk.new self.old.windows self.new.windows result }
    {
        if self.left > 0 {
            return Ok(());
        }
        match self.standing {
            Standing::Going => self.next_batch(disk),
            _ => Ok(()),
        }
    }

    /// Reads the next batch, or the end of the log.
    fn next_batch<D: DiskCalls>(&mut self, disk: &mut D) -> Result<(), LogErr>
        requires over { self.old.batch ≡ [] }
        requires going { self.old.standing ≡ Going }
        ensures reached { OnOk result (IsReached self.old self.new) }
        ensures within { IsWithin self.new.windows }
        ensures same { Tells D.told disk.old → self.old.windows.long ≡ length (D.told.seen disk.old) → OnOk result (left self.new (D.told.seen disk.old) ≡ left self.old (D.told.seen disk.old)) }
        ensures looks { Looks D.told D.counts disk.old disk.new self.old.windows self.new.windows result }
    {
        self.part = 0;
        self.left = 0;
        let standing = read_step(&mut self.windows, disk, &mut self.batch)?;
        self.standing = standing;
        self.left = body_length(standing, &self.batch);
        Ok(())
    }

    /// Gives the next part of the batch, and says whether there is one.
    fn give_part(&mut self) -> bool
        ensures { GivesPart result self.old self.new }
    {
        let front = self.batch.len() - self.left;
        match measured(&self.batch[front..]) {
            None => false,
            Some((part, behind)) => {
                self.part = part.len();
                self.left = behind.len();
                self.given += 1;
                true
            }
        }
    }
}

/// How many octets of parts lie in a room.
fn body_length(standing: Standing, room: &[u8]) -> usize
    requires { IsHeld standing room.now }
    ensures { result ≡ body_length standing room.now }
{
    match standing {
        Standing::Going => room.len() - 5,
        _ => 0,
    }
}

/// Reads on to the end of the log.
pub(crate) fn read_through<D: DiskCalls>(reader: &mut LogReader, disk: &mut D) -> Result<(), LogErr>
    ensures reading { Tells D.told disk.old → (head : List ℕ) (parts : List (List ℕ)) → IsReading head (D.told.seen disk.old) parts reader.old
        → OnOk result (IsReadUp head (D.told.seen disk.old) reader.new) }
    ensures ended { OnOk result (has_ended reader.new ≡ true) }
    ensures clock { Tells D.told disk.old → (head : List ℕ) (parts : List (List ℕ)) → IsReading head (D.told.seen disk.old) parts reader.old
        → ReadOnTicks (D.told.clock disk.old) (D.told.clock disk.new) reader.old reader.new result }
    ensures within { IsWithin reader.new.windows }
    ensures content { Tells D.told disk.old → UnlessFault result (D.told.seen disk.new ≡ D.told.seen disk.old) }
    ensures moments { Tells D.told disk.old → DiskRun D.told disk.old disk.new (image_now D.told disk.old) }
    ensures tells { D.told.tells disk.new ≡ D.told.tells disk.old }
    ensures cause { LogCause (D.counts disk.old) (D.counts disk.new) result }
    ensures err { IfErr result IsWantOrFault }
{
    while reader.next_part(disk)? {}
    Ok(())
}

/// Reads on to the end of the log, and gives all parts.
pub(crate) fn read_parts<D: DiskCalls>(
    alloc: Global,
    reader: &mut LogReader,
    disk: &mut D,
) -> Result<Vec<Octets>, LogErr>
    ensures reading { Tells D.told disk.old → (head : List ℕ) → IsReading head (D.told.seen disk.old) [] reader.old
        → IfOk result (λ parts. IsReading head (D.told.seen disk.old) parts.items reader.new × IsReadTo parts.items (parts_of head (D.told.seen disk.old))) }
    ensures ended { OnOk result (has_ended reader.new ≡ true) }
    ensures clock { Tells D.told disk.old → (head : List ℕ) → IsReading head (D.told.seen disk.old) [] reader.old
        → ReadOnTicks (D.told.clock disk.old) (D.told.clock disk.new) reader.old reader.new result }
    ensures within { IsWithin reader.new.windows }
    ensures content { Tells D.told disk.old → UnlessFault result (D.told.seen disk.new ≡ D.told.seen disk.old) }
    ensures moments { Tells D.told disk.old → DiskRun D.told disk.old disk.new (image_now D.told disk.old) }
    ensures tells { D.told.tells disk.new ≡ D.told.tells disk.old }
    ensures cause { LogCause (D.counts disk.old) (D.counts disk.new) result }
    ensures err { IfErr result IsWantOrFault }
{
    let mut parts = Vec::new(alloc);
    while reader.next_part(disk)? {
        parts.push(Octets::from_slice(alloc, reader.part())?)?;
    }
    Ok(parts)
}
