//! How the journal of a lane is made on a disk.

ghost use Rattle.std.specs.Prelude.{◌≡◌, ◌<◌, IfErr, OnOk};
ghost use Rattle.disk_model.specs.Disk.{Tells, image_now, DiskRun, Only};
ghost use Rattle.gate_log.specs.Answers.{LogCause, UnlessFault};
ghost use Rattle.gate_log.specs.Formatting.{FormatAnswer, IsFormatErr, FormatTicks};
ghost use Rattle.counter_journal.specs.Journal.{journal_head};
ghost use Rattle.counter_journal.specs.JournalMaking.{IsJournalMade, IsBeforeOrNewJournal};

use crate::heads::head_of;
use disk_model::DiskCalls;
use gate_log::LogErr;

/// Makes the journal of this lane, of so many lanes, where no log is made yet or its making was stopped.
///
/// It has no entries then. A journal of this lane is left as it is, whether its parts are sound or not. `NotALog` and
/// `OtherHead` come exactly where the disk holds something else, and change nothing; the only other refusal is
/// `DiskFault`. A stop at any moment leaves what stood before, or what can be made a journal again, or the journal
/// without entries.
pub fn format<D: DiskCalls>(disk: &mut D, lane: u16, lanes: u16) -> Result<(), LogErr>
    requires { lane < lanes }
    ensures answer { Tells D.told disk.old → FormatAnswer (journal_head lane lanes) (D.told.seen disk.old) (D.told.seen disk.new) result }
    ensures made { Tells D.told disk.old → OnOk result (IsJournalMade lane lanes (D.told.seen disk.old) (D.told.seen disk.new)) }
    ensures durable { Tells D.told disk.old → UnlessFault result (Only (D.told.seen disk.new) (image_now D.told disk.new)) }
    ensures moments { Tells D.told disk.old → DiskRun D.told disk.old disk.new (IsBeforeOrNewJournal D.told disk.old lane lanes) }
    ensures clock { Tells D.told disk.old → FormatTicks (journal_head lane lanes) (D.told.seen disk.old) (D.told.clock disk.old) (D.told.clock disk.new) result }
    ensures tells { D.told.tells disk.new ≡ D.told.tells disk.old }
    ensures cause { LogCause (D.counts disk.old) (D.counts disk.new) result }
    ensures err { IfErr result IsFormatErr }
{
    gate_log::format(disk, head_of(lane, lanes))
}
