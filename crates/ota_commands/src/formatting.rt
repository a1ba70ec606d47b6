//! The command `format`.

ghost use Rattle.std.specs.Prelude.{◌≤◌, length};
ghost use Rattle.ota_commands.specs.Command.{HasRunFormat};

use crate::ends::fault_of_opening;
use crate::faults::Fault;
use crate::writing::{answer_of, write_formatted};
use disk_model::DiskCalls;
use lane_session::format_lanes;
use ota_io::Sink;
use std::alloc::Global;

/// Makes the journals of all lanes, one on each site, and writes that they stand.
pub fn format<K: Sink, T: DiskCalls>(alloc: Global, out: &mut K, sites: &mut [T]) -> Option<Fault>
    requires few { length sites.old ≤ 64 }
    ensures { HasRunFormat T.told T.counts K.tells K.written K.faults sites.old sites.new out.old out.new result }
{
    match format_lanes(sites) {
        Err(error) => Some(fault_of_opening(error)),
        Ok(()) => {
            let written = write_formatted(alloc, out, sites.len());
            answer_of(written, None)
        }
    }
}
