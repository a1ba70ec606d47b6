//! How the journals of all lanes are opened.

ghost use Rattle.std.specs.Prelude.{◌≡◌, ◌<◌, ◌≤◌, ◌^◌, IfOk, IfErr, length};
ghost use Rattle.lane_session.specs.Lanes.{AreReady};
ghost use Rattle.lane_session.specs.Opening.{AreOpenedBelow, IsOpeningErr};

use crate::lanes::Lane;
use counter_journal::Journal;
use disk_model::DiskCalls;
use gate_log::LogErr;
use std::alloc::Global;

/// Why the journals of the lanes weren't opened.
#[derive(Clone, Copy, Debug, PartialEq, Eq)]
pub enum OpeningErr {
    /// Memory is wanting for the lanes.
    Memory,
    /// The journal of the lane of this number, from 0, was refused.
    Refused(u16, LogErr),
}

/// Opens the journals of all lanes, one on each site, in order, up to the first that is refused.
pub fn open_lanes<T: DiskCalls>(alloc: Global, sites: &mut [T]) -> Result<Vec<Lane>, OpeningErr>
    requires some { 0 < length sites.old }
    requires few { length sites.old < 2 ^ 16 }
    ensures opened { IfOk result (λ lanes. AreOpenedBelow T.told T.counts sites.old sites.new lanes.items (length sites.old)) }
    ensures refused { IfErr result (IsOpeningErr T.told T.counts sites.old sites.new) }
    ensures ready { IfOk result (λ lanes. AreReady T.told T.counts sites.new lanes.items) }
{
    let count = sites.len();
    let mut lanes = Vec::new(alloc);
    for number in 0..count {
        let journal = match Journal::open(alloc, &mut sites[number], number as u16, count as u16) {
            Ok(journal) => journal,
            Err(error) => return Err(OpeningErr::Refused(number as u16, error)),
        };
        if lanes.push(Lane { journal, end: None }).is_err() {
            return Err(OpeningErr::Memory);
        }
    }
    Ok(lanes)
}
