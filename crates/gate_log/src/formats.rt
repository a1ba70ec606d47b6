//! How a log is made on a disk.

ghost use Rattle.std.specs.Prelude.{◌≡◌, ◌++◌, [], ◌∷◌, length, take, OnOk, IfErr};
ghost use Rattle.disk_model.specs.Counts.{HasCause};
ghost use Rattle.disk_model.specs.Disk.{Tells, image_now, DiskRun, Only};
ghost use Rattle.gate_log.specs.Log.{log_octets, CLOSED};
ghost use Rattle.gate_log.specs.Reading.{heading_of, parts_of};
ghost use Rattle.gate_log.specs.Reading.Reading.{Unformatted};
ghost use Rattle.gate_log.specs.Answers.{LogCause, UnlessFault};
ghost use Rattle.gate_log.specs.Making.{IsNew, IsMarked};
ghost use Rattle.gate_log.specs.Formatting.{FormatAnswer, IsFormatErr, IsBeforeOrNew, HasMark, FormatTicks, calls_of_making, ClearTicks};
ghost use Rattle.gate_log.specs.Append.{CallTicks};

use crate::appends::write_through;
use crate::headings::{Heading, heading_of};
use crate::log_errors::LogErr;
use disk_model::{DiskCalls, DiskFault};

/// The mark of a log that is made.
const MARK: u8 = 0xA5;

/// Makes an empty log with this head, where no log is made yet or its making was stopped. A log with this head is left
/// as it is. A stop at any moment leaves what can be made a log again, or a log without parts.
pub fn format<D: DiskCalls>(disk: &mut D, head: [u8; 9]) -> Result<(), LogErr>
    ensures answer { Tells D.told disk.old → FormatAnswer head (D.told.seen disk.old) (D.told.seen disk.new) result }
    ensures durable { Tells D.told disk.old → UnlessFault result (Only (D.told.seen disk.new) (image_now D.told disk.new)) }
    ensures moments { Tells D.told disk.old → DiskRun D.told disk.old disk.new (IsBeforeOrNew D.told disk.old head) }
    ensures tells { D.told.tells disk.new ≡ D.told.tells disk.old }
    ensures cause { LogCause (D.counts disk.old) (D.counts disk.new) result }
    ensures err { IfErr result IsFormatErr }
    ensures clock { Tells D.told disk.old → FormatTicks head (D.told.seen disk.old) (D.told.clock disk.old) (D.told.clock disk.new) result }
{
    disk.sync()?;
    let mut room = [0; 12];
    let count = disk.read_at(0, &mut room)?;
    let front = &room[..count];
    match heading_of(front, &head) {
        Heading::Formatted => Ok(()),
        Heading::NotALog => Err(LogErr::NotALog),
        Heading::OtherHead(rest) => Err(LogErr::OtherHead(rest)),
        Heading::Unformatted => {
            make(disk, has_mark(front), head)?;
            Ok(())
        }
    }
}

/// Whether the first octet is the mark 00.
fn has_mark(octets: &[u8]) -> bool
    ensures { HasMark result octets.now }
{
    !octets.is_empty() && octets[0] == 0
}

/// Makes an empty log where none is.
fn make<D: DiskCalls>(disk: &mut D, marked: bool, head: [u8; 9]) -> Result<(), DiskFault>
    requires mark { Tells D.told disk.old → HasMark marked (D.told.seen disk.old) }
    requires only { Tells D.told disk.old → Only (D.told.seen disk.old) (image_now D.told disk.old) }
    requires unformatted { Tells D.told disk.old → parts_of head (D.told.seen disk.old) ≡ Unformatted }
    ensures content { Tells D.told disk.old → OnOk result (D.told.seen disk.new ≡ log_octets head []) }
    ensures durable { Tells D.told disk.old → OnOk result (Only (D.told.seen disk.new) (image_now D.told disk.new)) }
    ensures moments { Tells D.told disk.old → DiskRun D.told disk.old disk.new (IsNew head) }
    ensures clock { Tells D.told disk.old → CallTicks (calls_of_making marked) (D.told.clock disk.old) (D.told.clock disk.new) result }
    ensures tells { D.told.tells disk.new ≡ D.told.tells disk.old }
    ensures cause { HasCause (D.counts disk.old) (D.counts disk.new) result }
{
    clear_mark(disk, marked, head)?;
    lay_out(disk, head)?;
    write_mark(disk, head)
}

/// Writes the mark 00, unless it stands.
fn clear_mark<D: DiskCalls>(disk: &mut D, marked: bool, head: [u8; 9]) -> Result<(), DiskFault>
    requires mark { Tells D.told disk.old → HasMark marked (D.told.seen disk.old) }
    requires only { Tells D.told disk.old → Only (D.told.seen disk.old) (image_now D.told disk.old) }
    requires unformatted { Tells D.told disk.old → parts_of head (D.told.seen disk.old) ≡ Unformatted }
    ensures content { Tells D.told disk.old → OnOk result (IsMarked (D.told.seen disk.new)) }
    ensures durable { Tells D.told disk.old → OnOk result (Only (D.told.seen disk.new) (image_now D.told disk.new)) }
    ensures moments { Tells D.told disk.old → DiskRun D.told disk.old disk.new (IsNew head) }
    ensures clock { Tells D.told disk.old → ClearTicks marked (D.told.clock disk.old) (D.told.clock disk.new) result }
    ensures tells { D.told.tells disk.new ≡ D.told.tells disk.old }
    ensures cause { HasCause (D.counts disk.old) (D.counts disk.new) result }
{
    if marked {
        return Ok(());
    }
    write_through(disk, 0, &[0])
}

/// Writes all of an empty log behind the mark 00.
fn lay_out<D: DiskCalls>(disk: &mut D, head: [u8; 9]) -> Result<(), DiskFault>
    requires mark { Tells D.told disk.old → IsMarked (D.told.seen disk.old) }
    requires only { Tells D.told disk.old → Only (D.told.seen disk.old) (image_now D.told disk.old) }
    ensures content { Tells D.told disk.old → OnOk result (D.told.seen disk.new ≡ 0 ∷ (head ++ CLOSED ∷ [])) }
    ensures durable { Tells D.told disk.old → OnOk result (Only (D.told.seen disk.new) (image_now D.told disk.new)) }
    ensures moments { Tells D.told disk.old → DiskRun D.told disk.old disk.new IsMarked }
    ensures clock { Tells D.told disk.old → CallTicks 3 (D.told.clock disk.old) (D.told.clock disk.new) result }
    ensures tells { D.told.tells disk.new ≡ D.told.tells disk.old }
    ensures cause { HasCause (D.counts disk.old) (D.counts disk.new) result }
{
    let rest = with_gate(head);
    disk.cut(1)?;
    write_through(disk, 1, &rest)
}

/// A head with a closed gate behind it.
fn with_gate(head: [u8; 9]) -> [u8; 10]
    ensures { result ≡ head ++ CLOSED ∷ [] }
{
    let mut rest = [0; 10];
    rest[..9].copy_from_slice(&head);
    rest
}

/// Writes the mark of a log over the mark 00.
fn write_mark<D: DiskCalls>(disk: &mut D, head: [u8; 9]) -> Result<(), DiskFault>
    requires content { Tells D.told disk.old → D.told.seen disk.old ≡ 0 ∷ (head ++ CLOSED ∷ []) }
    requires only { Tells D.told disk.old → Only (D.told.seen disk.old) (image_now D.told disk.old) }
    ensures content { Tells D.told disk.old → OnOk result (D.told.seen disk.new ≡ log_octets head []) }
    ensures durable { Tells D.told disk.old → OnOk result (Only (D.told.seen disk.new) (image_now D.told disk.new)) }
    ensures moments { Tells D.told disk.old → DiskRun D.told disk.old disk.new (IsNew head) }
    ensures clock { Tells D.told disk.old → CallTicks 2 (D.told.clock disk.old) (D.told.clock disk.new) result }
    ensures tells { D.told.tells disk.new ≡ D.told.tells disk.old }
    ensures cause { HasCause (D.counts disk.old) (D.counts disk.new) result }
{
    write_through(disk, 0, &[MARK])
}
