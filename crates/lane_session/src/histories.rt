//! The histories of the lanes.

ghost use Rattle.std.specs.Prelude.{◌≡◌, map, IfOk, All};
ghost use Rattle.counter_journal.specs.EntryRanges.{IsEntry};
ghost use Rattle.lane_session.specs.Differences.{histories_of};

use crate::lanes::Lane;
use ota_core::{History, Memory};
use std::alloc::Global;

/// The histories of the lanes, in order. Each reserved script in them has 1 to 4,096 octets.
pub fn into_histories(alloc: Global, lanes: Vec<Lane>) -> Result<Vec<History>, Memory>
    ensures fit { IfOk result (λ histories. All (λ history. All IsEntry history.entries) histories.items) }
    ensures entries { IfOk result (λ histories. map (λ history. history.entries) histories.items ≡ histories_of lanes.items) }
{
    let mut histories = Vec::with_capacity(alloc, lanes.len())?;
    for lane in lanes {
        histories.push(history_of(lane))?;
    }
    Ok(histories)
}

fn history_of(lane: Lane) -> History
    ensures entries { result.entries ≡ lane.journal.entries }
    ensures fit { All IsEntry result.entries }
{
    lane.journal.into_history()
}
