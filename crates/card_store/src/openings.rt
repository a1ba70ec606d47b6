//! How a card's store is opened and replayed, part by part.

ghost use Rattle.std.specs.Prelude.{◌≡◌, ◌⊎◌, ℕ, ◌+◌, List, [], ◌∷◌, ◌++◌, length, true, IfOk, IfErr, OnOk, OnErr};
ghost use Rattle.disk_model.specs.Disk.{Tells, image_now, DiskRun};
ghost use Rattle.gate_log.specs.Answers.{LogCause, UnlessFault as UnlessLogFault, IsWantOrFault as IsLogWantOrFault, IsNotFull as IsLogNotFull};
ghost use Rattle.gate_log.specs.Opening.{IsOpenLog, OpensAlike};
ghost use Rattle.gate_log.specs.Reading.{parts_of};
ghost use Rattle.gate_log.specs.Readers.{has_ended, IsReading};
ghost use Rattle.card_store.specs.Parts.{command_part, store_head};
ghost use Rattle.card_store.specs.Opening.{opened_in, IsShown, IsReplayedSoFar, IsReplayedThrough, ReplayAnswer, ReadAnswer, IsCutAtMost, checked, first_bad};
ghost use Rattle.card_store.specs.Store.{IsBeforeOrOpened, StoreCause, UnlessFault, IsLeftByRefusal, IsNotFull};

use crate::issued_facts::IssuedFacts;
use crate::kept::Kept;
use crate::parts::{HEAD, command_batch};
use crate::store_errors::StoreErr;
use disk_model::DiskCalls;
use gate_log::{Batch, Log, LogErr, LogReader, format};
use ota_core::{CardFacts, Memory};
use std::alloc::Global;

/// A store's log that was opened, and the card that its parts lead to.
#[derive(Drop)]
pub struct OpenedStore {
    pub log: Log,
    pub kept: Kept,
}

/// What was replayed of a log, and the number of the first part that is bad.
#[derive(Drop)]
pub struct Replayed {
    pub kept: Kept,
    pub bad: Option<u64>,
}

/// All that an opening makes beside the disk.
#[derive(Drop)]
pub struct OpenedAnew {
    pub facts: IssuedFacts,
    pub command: Batch,
    pub opened: OpenedStore,
}

/// Opens the store of a card with these facts.
pub fn open_anew<D: DiskCalls>(
    alloc: Global,
    disk: &mut D,
    facts: &CardFacts,
) -> Result<OpenedAnew, StoreErr>
    ensures made { IfOk result (λ anew. (anew.facts ≡ facts.now) × (anew.command.parts ≡ command_part ∷ [])) }
    ensures answer { Tells D.told disk.old → ReplayAnswer facts.now (D.told.seen disk.old) (D.told.seen disk.new) (opened_in result) }
    ensures settled { Tells D.told disk.old → IfOk result (λ anew. IsOpenLog D.told disk.new anew.opened.log) }
    ensures shown { IfOk result (λ anew. IsShown anew.opened.kept) }
    ensures refused { Tells D.told disk.old → OnErr result (UnlessFault result (IsLeftByRefusal (D.told.seen disk.old) (D.told.seen disk.new))) }
    ensures moments { Tells D.told disk.old → DiskRun D.told disk.old disk.new (IsBeforeOrOpened D.told disk.old) }
    ensures tells { D.told.tells disk.new ≡ D.told.tells disk.old }
    ensures cause { StoreCause (D.counts disk.old) (D.counts disk.new) result }
    ensures not_full { IfErr result IsNotFull }
{
    let facts = IssuedFacts::of(alloc, facts)?;
    let command = command_batch(alloc)?;
    let opened = open_log(alloc, disk, &facts)?;
    Ok(OpenedAnew {
        facts,
        command,
        opened,
    })
}

/// Opens the log of the store of a card with these facts, and replays it. Where no log is made yet, an empty one is made.
pub fn open_log<D: DiskCalls>(
    alloc: Global,
    disk: &mut D,
    facts: &IssuedFacts,
) -> Result<OpenedStore, StoreErr>
    ensures answer { Tells D.told disk.old → ReplayAnswer facts.now (D.told.seen disk.old) (D.told.seen disk.new) result }
    ensures settled { Tells D.told disk.old → IfOk result (λ opened. IsOpenLog D.told disk.new opened.log) }
    ensures shown { IfOk result (λ opened. IsShown opened.kept) }
    ensures refused { Tells D.told disk.old → OnErr result (UnlessFault result (IsLeftByRefusal (D.told.seen disk.old) (D.told.seen disk.new))) }
    ensures moments { Tells D.told disk.old → DiskRun D.told disk.old disk.new (IsBeforeOrOpened D.told disk.old) }
    ensures tells { D.told.tells disk.new ≡ D.told.tells disk.old }
    ensures cause { StoreCause (D.counts disk.old) (D.counts disk.new) result }
    ensures not_full { IfErr result IsNotFull }
{
    format(disk, HEAD)?;
    let opened = read_log(alloc, disk, facts)?;
    Ok(opened)
}

/// Opens a log that is made, and replays it.
///
/// A part that is bad ahead of a damaged batch comes first. What lies behind the closed gate is cut off, also where a
/// part is then bad.
fn read_log<D: DiskCalls>(
    alloc: Global,
    disk: &mut D,
    facts: &IssuedFacts,
) -> Result<OpenedStore, LogErr>
    ensures answer { Tells D.told disk.old → ReadAnswer facts.now (D.told.seen disk.old) (D.told.seen disk.new) result }
    ensures settled { Tells D.told disk.old → IfOk result (λ opened. IsOpenLog D.told disk.new opened.log) }
    ensures shown { IfOk result (λ opened. IsShown opened.kept) }
    ensures refused { Tells D.told disk.old → OnErr result (UnlessLogFault result (IsCutAtMost (D.told.seen disk.old) (D.told.seen disk.new))) }
    ensures moments { Tells D.told disk.old → DiskRun D.told disk.old disk.new (λ image. image_now D.told disk.old image ⊎ OpensAlike store_head (D.told.seen disk.old) image) }
    ensures tells { D.told.tells disk.new ≡ D.told.tells disk.old }
    ensures cause { LogCause (D.counts disk.old) (D.counts disk.new) result }
    ensures not_full { IfErr result IsLogNotFull }
{
    let mut reader = LogReader::begin(alloc, disk, HEAD)?;
    let replayed = replay(alloc, &mut reader, disk, facts)?;
    let finished = reader.finish(disk);
    let log = checked(finished, replayed.bad)?;
    Ok(OpenedStore {
        log,
        kept: replayed.kept,
    })
}

/// The log, unless a part of it was bad.
fn checked(finished: Result<Log, LogErr>, bad: Option<u64>) -> Result<Log, LogErr>
    ensures { result ≡ checked finished bad }
{
    match finished {
        Ok(log) => match bad {
            None => Ok(log),
            Some(number) => Err(LogErr::Damaged(number)),
        },
        Err(error) => Err(first_bad(error, bad)),
    }
}

/// The refusal of a log, or of a bad part ahead of its damaged batch.
fn first_bad(error: LogErr, bad: Option<u64>) -> LogErr
    ensures { result ≡ first_bad error bad }
{
    match error {
        LogErr::Damaged(end) => match bad {
            None => LogErr::Damaged(end),
            Some(number) => LogErr::Damaged(number),
        },
        _ => error,
    }
}

/// Replays the parts up to the end of the log. From the first bad part on they are only counted.
fn replay<D: DiskCalls>(
    alloc: Global,
    reader: &mut LogReader,
    disk: &mut D,
    facts: &IssuedFacts,
) -> Result<Replayed, LogErr>
    ensures read { Tells D.told disk.old → (head : List ℕ) → IsReading head (D.told.seen disk.old) [] reader.old
        → IfOk result (IsReplayedThrough head (D.told.seen disk.old) facts.now reader.new) }
    ensures shown { IfOk result (λ replayed. IsShown replayed.kept) }
    ensures ended { OnOk result (has_ended reader.new ≡ true) }
    ensures content { Tells D.told disk.old → UnlessLogFault result (D.told.seen disk.new ≡ D.told.seen disk.old) }
    ensures moments { Tells D.told disk.old → DiskRun D.told disk.old disk.new (image_now D.told disk.old) }
    ensures tells { D.told.tells disk.new ≡ D.told.tells disk.old }
    ensures cause { LogCause (D.counts disk.old) (D.counts disk.new) result }
    ensures err { IfErr result IsLogWantOrFault }
{
    let mut kept = Kept::issued(alloc, facts)?;
    let mut bad = None;
    while reader.next_part(disk)? {
        bad = take_part(alloc, facts, &mut kept, bad, reader.part(), reader.given())?;
    }
    Ok(Replayed { kept, bad })
}

/// Takes the part of this number, where none before it was bad. The number of the first that is bad.
fn take_part(
    alloc: Global,
    facts: &IssuedFacts,
    kept: &mut Kept,
    bad: Option<u64>,
    part: &[u8],
    number: u64,
) -> Result<Option<u64>, Memory>
    requires { IsShown kept.old }
    ensures replayed { (parts : List (List ℕ)) → IsReplayedSoFar facts.now parts kept.old bad → number ≡ length parts + 1
        → IfOk result (IsReplayedSoFar facts.now (parts ++ part.now ∷ []) kept.new) }
    ensures shown { OnOk result (IsShown kept.new) }
{
    match bad {
        Some(first) => Ok(Some(first)),
        None => {
            let taken = kept.take_part(alloc, facts, part)?;
            if taken {
                return Ok(None);
            }
            Ok(Some(number))
        }
    }
}
