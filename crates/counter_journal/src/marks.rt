//! How a journal of the first version is taken over.

ghost use Rattle.std.specs.Prelude.{◌≡◌, ◌⊎◌, ◌+◌, ◌≤◌, [], ◌∷◌, ◌++◌, ℕ, List, IfOk, IfErr};
ghost use Rattle.disk_model.specs.Disk.{Tells, DiskRun};
ghost use Rattle.gate_log.specs.Reading.{parts_of, OpensTo};
ghost use Rattle.gate_log.specs.Reading.Reading.{Opened};
ghost use Rattle.gate_log.specs.Answers.{LogCause};
ghost use Rattle.gate_log.specs.Opening.{IsOpenLog};
ghost use Rattle.counter_journal.specs.declared.versions.Version.TheVariants.{First};
ghost use Rattle.counter_journal.specs.EntryOctets.{MARK};
ghost use Rattle.counter_journal.specs.JournalOpening.{IsGoingOn, IsFault, is_full};

use crate::histories_read::MARK;
use crate::versions::Version;
use disk_model::DiskCalls;
use gate_log::{Batch, Log, LogErr};

/// Takes over a log whose parts are of the first version: the mark of the second one is added in a batch of its own,
/// which the empty batch has room for. Where the log has no room for it, it stays as it is. So it does where the second
/// version has begun.
pub fn go_on<D: DiskCalls>(
    disk: &mut D,
    log: Log,
    batch: &mut Batch,
    version: Version,
) -> Result<Log, LogErr>
    requires settled { Tells D.told disk.old → IsOpenLog D.told disk.old log }
    requires empty { batch.old.parts ≡ [] }
    requires some { 1 ≤ batch.old.parts_room }
    requires room { 2 ≤ batch.old.octets_room }
    ensures gone { IfOk result (IsGoingOn D.told disk.old disk.new version log) }
    ensures moments { Tells D.told disk.old → (head : List ℕ) (parts : List (List ℕ)) → parts_of head (D.told.seen disk.old) ≡ Opened parts []
        → DiskRun D.told disk.old disk.new (λ image. OpensTo head parts image ⊎ ((version ≡ First) × OpensTo head (parts ++ MARK ∷ []) image)) }
    ensures batch { batch.new ≡ batch.old }
    ensures clock { Tells D.told disk.old → IfErr result (λ error. (D.told.clock disk.old ≤ D.told.clock disk.new) × (D.told.clock disk.new ≤ D.told.clock disk.old + 4)) }
    ensures tells { D.told.tells disk.new ≡ D.told.tells disk.old }
    ensures cause { LogCause (D.counts disk.old) (D.counts disk.new) result }
    ensures err { IfErr result IsFault }
{
    match version {
        Version::Second => Ok(log),
        Version::First => add_mark(disk, log, batch),
    }
}

/// The same where the second version hasn't begun.
fn add_mark<D: DiskCalls>(disk: &mut D, log: Log, batch: &mut Batch) -> Result<Log, LogErr>
    requires settled { Tells D.told disk.old → IsOpenLog D.told disk.old log }
    requires empty { batch.old.parts ≡ [] }
    requires some { 1 ≤ batch.old.parts_room }
    requires room { 2 ≤ batch.old.octets_room }
    ensures gone { IfOk result (IsGoingOn D.told disk.old disk.new First log) }
    ensures moments { Tells D.told disk.old → (head : List ℕ) (parts : List (List ℕ)) → parts_of head (D.told.seen disk.old) ≡ Opened parts []
        → DiskRun D.told disk.old disk.new (λ image. OpensTo head parts image ⊎ OpensTo head (parts ++ MARK ∷ []) image) }
    ensures batch { batch.new ≡ batch.old }
    ensures clock { Tells D.told disk.old → IfErr result (λ error. (D.told.clock disk.old ≤ D.told.clock disk.new) × (D.told.clock disk.new ≤ D.told.clock disk.old + 4)) }
    ensures tells { D.told.tells disk.new ≡ D.told.tells disk.old }
    ensures cause { LogCause (D.counts disk.old) (D.counts disk.new) result }
    ensures err { IfErr result IsFault }
{
    let mut log = log;
    batch.put(&MARK);
    let appended = log.append(disk, batch);
    batch.clear();
    match appended {
        Ok(()) => Ok(log),
        Err(error) => {
            if is_full(error) {
                return Ok(log);
            }
            Err(error)
        }
    }
}

fn is_full(error: LogErr) -> bool
    ensures { result ≡ is_full error }
{
    match error {
        LogErr::Full { .. } => true,
        _ => false,
    }
}
