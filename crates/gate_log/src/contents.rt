//! What a log does with a disk, beside an append.

ghost use Rattle.std.specs.Prelude.{◌≡◌, ◌-◌, ◌≤◌, length, take, OnOk};
ghost use Rattle.disk_model.specs.Counts.{HasCause};
ghost use Rattle.disk_model.specs.Disk.{Tells, image_now, DiskRun, Only, Cut};
ghost use Rattle.gate_log.specs.Append.{CallTicks};
ghost use Rattle.gate_log.specs.Calls.{CutTicks};

use crate::log_errors::LogErr;
use disk_model::{DiskCalls, DiskFault};
use std::alloc::Global;

/// Cuts off what lies behind a length, where anything does, and syncs.
pub(crate) fn cut_behind<D: DiskCalls>(disk: &mut D, len: u64, end: u64) -> Result<(), DiskFault>
    requires within { end ≤ len }
    requires long { Tells D.told disk.old → length (D.told.seen disk.old) ≡ len }
    requires only { Tells D.told disk.old → Only (D.told.seen disk.old) (image_now D.told disk.old) }
    ensures content { Tells D.told disk.old → OnOk result (D.told.seen disk.new ≡ take end (D.told.seen disk.old)) }
    ensures durable { Tells D.told disk.old → OnOk result (Only (D.told.seen disk.new) (image_now D.told disk.new)) }
    ensures moments { Tells D.told disk.old → DiskRun D.told disk.old disk.new (Cut end (D.told.seen disk.old)) }
    ensures clock { Tells D.told disk.old → CutTicks (len - end) (D.told.clock disk.old) (D.told.clock disk.new) result }
    ensures tells { D.told.tells disk.new ≡ D.told.tells disk.old }
    ensures cause { HasCause (D.counts disk.old) (D.counts disk.new) result }
{
    if end < len {
        return cut_through(disk, end);
    }
    Ok(())
}

/// Cuts the disk to a length and syncs.
pub(crate) fn cut_through<D: DiskCalls>(disk: &mut D, end: u64) -> Result<(), DiskFault>
    requires within { Tells D.told disk.old → end ≤ length (D.told.seen disk.old) }
    requires only { Tells D.told disk.old → Only (D.told.seen disk.old) (image_now D.told disk.old) }
    ensures content { Tells D.told disk.old → OnOk result (D.told.seen disk.new ≡ take end (D.told.seen disk.old)) }
    ensures durable { Tells D.told disk.old → OnOk result (Only (D.told.seen disk.new) (image_now D.told disk.new)) }
    ensures moments { Tells D.told disk.old → DiskRun D.told disk.old disk.new (Cut end (D.told.seen disk.old)) }
    ensures clock { Tells D.told disk.old → CallTicks 2 (D.told.clock disk.old) (D.told.clock disk.new) result }
    ensures tells { D.told.tells disk.new ≡ D.told.tells disk.old }
    ensures cause { HasCause (D.counts disk.old) (D.counts disk.new) result }
{
    disk.cut(end)?;
    disk.sync()
}
