ghost use Rattle.std.specs.Prelude.{◌≡◌, ◌+◌, ◌<◌, ◌≤◌, length, OnOk};
ghost use Rattle.disk_model.specs.Counts.{HasCause};
ghost use Rattle.disk_model.specs.Disk.{Tells, image_now, DiskRun, overwritten, Torn, Follows, Only};
ghost use Rattle.gate_log.specs.Append.{EndsClosed, opened_with, IsBeforeOrAfter, IsSettled, CallTicks};

use disk_model::{DiskCalls, DiskFault};

/// An open gate: a batch follows it.
const OPEN: u8 = 0xA5;

/// Adds a framed batch with its closed gate to a log of this length in octets, all or none.
///
/// The batch and its gate are written behind the closed gate that ends the log, and synced; then that gate alone is
/// opened, and synced. A stop at any moment leaves the log without the batch or with the whole of it, and once the
/// answer is Ok, with it. After a fault the log is opened again.
pub fn append<D: DiskCalls>(disk: &mut D, len: u64, framed: &[u8]) -> Result<(), DiskFault>
    requires long { 0 < len }
    requires settled { Tells D.told disk.old → IsSettled D.told disk.old len }
    requires framed { EndsClosed framed.now }
    ensures moments { Tells D.told disk.old → DiskRun D.told disk.old disk.new (IsBeforeOrAfter (D.told.seen disk.old) framed.now) }
    ensures content { Tells D.told disk.old → OnOk result (D.told.seen disk.new ≡ opened_with (D.told.seen disk.old) framed.now) }
    ensures settled { Tells D.told disk.old → OnOk result (IsSettled D.told disk.new (len + length framed.now)) }
    ensures clock { Tells D.told disk.old → CallTicks 4 (D.told.clock disk.old) (D.told.clock disk.new) result }
    ensures tells { D.told.tells disk.new ≡ D.told.tells disk.old }
    ensures cause { HasCause (D.counts disk.old) (D.counts disk.new) result }
{
    write_through(disk, len, framed)?;
    write_through(disk, len - 1, &[OPEN])
}

/// Writes octets and syncs them.
pub(crate) fn write_through<D: DiskCalls>(
    disk: &mut D,
    at: u64,
    from: &[u8],
) -> Result<(), DiskFault>
    requires { Tells D.told disk.old → at ≤ length (D.told.seen disk.old) }
    ensures moments { Tells D.told disk.old → DiskRun D.told disk.old disk.new (Follows (Torn at (length from.now)) (image_now D.told disk.old)) }
    ensures content { Tells D.told disk.old → OnOk result (D.told.seen disk.new ≡ overwritten (D.told.seen disk.old) at from.now) }
    ensures durable { Tells D.told disk.old → OnOk result (Only (D.told.seen disk.new) (image_now D.told disk.new)) }
    ensures clock { Tells D.told disk.old → CallTicks 2 (D.told.clock disk.old) (D.told.clock disk.new) result }
    ensures tells { D.told.tells disk.new ≡ D.told.tells disk.old }
    ensures cause { HasCause (D.counts disk.old) (D.counts disk.new) result }
{
    disk.write_at(at, from)?;
    disk.sync()
}
