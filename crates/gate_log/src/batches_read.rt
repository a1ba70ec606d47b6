//! A batch is read whole, and counts only where its parts fill it and a gate follows.

ghost use Rattle.std.specs.Prelude.{◌≡◌, ℕ, ◌+◌, ◌<◌, ◌≤◌, length, drop, is_some, true, IfOk};
ghost use Rattle.disk_model.specs.Disk.{Tells};
ghost use Rattle.gate_log.specs.Reading.{size_at, parts_from};
ghost use Rattle.gate_log.specs.Windows.{rest_of, Looks, IsWithin};
ghost use Rattle.gate_log.specs.BatchesRead.{is_framed, IsBody, IsBatchRead, IsStepRead, IsHeld};

use crate::log_errors::LogErr;
use crate::measures::{measured, size_at};
use crate::standings::Standing;
use crate::windows::Windows;
use disk_model::DiskCalls;

/// An open gate: a batch follows it.
const OPEN: u8 = 0xA5;

/// Whether octets are parts, one after another.
fn are_parts(octets: &[u8]) -> bool
    ensures { result ≡ is_some (parts_from 0 octets.now) }
{
    let mut rest = octets;
    while !rest.is_empty() {
        match measured(rest) {
            None => return false,
            Some((_, behind)) => rest = behind,
        }
    }
    true
}

/// Whether octets are parts, one at least.
fn is_framed(octets: &[u8]) -> bool
    ensures { result ≡ is_framed octets.now }
{
    !octets.is_empty() && are_parts(octets)
}

/// Reads what stands from a gate on: the closed gate, a whole batch, which then lies in the room with its gate and its
/// length, or one that is damaged.
pub(crate) fn read_step<D: DiskCalls>(
    windows: &mut Windows,
    disk: &mut D,
    room: &mut Vec<u8>,
) -> Result<Standing, LogErr>
    ensures step { Tells D.told disk.old → windows.old.long ≡ length (D.told.seen disk.old)
        → IfOk result (λ standing. IsStepRead standing (D.told.seen disk.old) room.new.items windows.old windows.new) }
    ensures held { IfOk result (λ standing. IsHeld standing room.new.items) }
    ensures place { windows.new.read + length windows.old.ahead ≡ windows.old.read + length windows.new.ahead + length room.new.items }
    ensures within { IsWithin windows.new }
    ensures looks { Looks D.told D.counts disk.old disk.new windows.old windows.new result }
{
    room.clear();
    if !windows.take(disk, 1, room)? {
        return Ok(Standing::Damaged);
    }
    if room[0] != OPEN {
        return Ok(Standing::Closed);
    }
    read_batch(windows, disk, room)
}

/// Reads the batch behind an open gate.
fn read_batch<D: DiskCalls>(
    windows: &mut Windows,
    disk: &mut D,
    room: &mut Vec<u8>,
) -> Result<Standing, LogErr>
    requires gate { length room.old.items ≡ 1 }
    ensures batch { Tells D.told disk.old → windows.old.long ≡ length (D.told.seen disk.old)
        → IfOk result (λ standing. IsBatchRead standing (D.told.seen disk.old) room.new.items windows.old windows.new) }
    ensures held { IfOk result (λ standing. IsHeld standing room.new.items) }
    ensures place { windows.new.read + length windows.old.ahead + length room.old.items ≡ windows.old.read + length windows.new.ahead + length room.new.items }
    ensures within { IsWithin windows.new }
    ensures looks { Looks D.told D.counts disk.old disk.new windows.old windows.new result }
{
    if !windows.take(disk, 4, room)? {
        return Ok(Standing::Damaged);
    }
    let size = size_at(&room[1..]);
    read_body(windows, disk, room, size)
}

/// Reads the parts of a batch behind its length. One that runs past the end takes no room.
fn read_body<D: DiskCalls>(
    windows: &mut Windows,
    disk: &mut D,
    room: &mut Vec<u8>,
    size: u32,
) -> Result<Standing, LogErr>
    requires length { length room.old.items ≡ 5 }
    ensures body { Tells D.told disk.old → windows.old.long ≡ length (D.told.seen disk.old)
        → IfOk result (λ standing. IsBody standing (D.told.seen disk.old) size room.new.items windows.old windows.new) }
    ensures held { IfOk result (λ standing. IsHeld standing room.new.items) }
    ensures place { windows.new.read + length windows.old.ahead + length room.old.items ≡ windows.old.read + length windows.new.ahead + length room.new.items }
    ensures within { IsWithin windows.new }
    ensures looks { Looks D.told D.counts disk.old disk.new windows.old windows.new result }
{
    if windows.octets_left() <= size as u64 {
        return Ok(Standing::Damaged);
    }
    room.reserve(size as usize)?;
    if !windows.take(disk, size as usize, room)? {
        return Ok(Standing::Damaged);
    }
    if !is_framed(&room[5..]) {
        return Ok(Standing::Damaged);
    }
    Ok(Standing::Going)
}
