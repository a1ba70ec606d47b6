//! How a lane adds entries to its history.

ghost use Rattle.std.specs.Prelude.{◌≡◌, ◌≤◌, ℕ, List, true, false, None, Err, All, length, reverse, OnErr};
ghost use Rattle.std.specs.List.{list_any};
ghost use Rattle.disk_model.specs.Disk.{Tells};
ghost use Rattle.ota_core.specs.History.{broken_batch};
ghost use Rattle.counter_journal.specs.EntryRanges.{IsEntry, IsSized, IsOfLane};
ghost use Rattle.counter_journal.specs.JournalReading.{IsRoomy};
ghost use Rattle.site_model.specs.Causes.{empty_polls};
ghost use Rattle.lane_engine.specs.Adding.{AddingAnswer, IsAddition, IsAddingRun, LaneCause, UnlessWanting, is_settlement, site_fault};
ghost use Rattle.lane_engine.specs.Kept.{KeptSince, IsLater};
ghost use Rattle.lane_engine.specs.Opening.{Opening};

use crate::answers::LaneErr;
use crate::lanes::Lane;
use disk_model::DiskFault;
use gate_log::LogErr;
use ota_core::Entry;
use site_model::{SiteCalls, SiteFault};
use std::snapshot::Snapshot;

impl<T: SiteCalls> Lane<T> {
    /// Adds 1 to 16 entries in one batch, all or none, by a lane that isn't stale. It wants memory only where there is no
    /// room for them.
    pub(crate) fn append(&mut self, entries: Vec<Entry>) -> Result<(), LaneErr>
        requires live { self.old.is_stale ≡ false }
        requires some { 1 ≤ length entries.items }
        requires few { length entries.items ≤ 16 }
        requires sized { All IsSized entries.items }
        requires of_lane { All (IsOfLane self.old.journal.lane self.old.journal.lanes) entries.items }
        requires legal { broken_batch (reverse self.old.journal.entries) entries.items ≡ None }
        ensures answer { AddingAnswer self.old None entries.items result }
        ensures added { IsAddition self.old self.new entries.items result }
        ensures fit { UnlessWanting result (All IsEntry entries.items) }
        ensures memory { result ≡ Err LaneErr.Memory → ¬ IsRoomy self.old.journal entries.items }
        ensures run { Tells T.told self.old.site → IsAddingRun T.told T.port T.lines self.old self.new entries.items result }
        ensures cause { LaneCause (T.counts self.old.site) (T.counts self.new.site) result }
        ensures empty_polls { empty_polls (T.counts self.new.site) ≡ empty_polls (T.counts self.old.site) }
        ensures later { IsLater T.told T.counts T.port T.lines self.old self.new }
        ensures kept { list_any is_settlement entries.items ≡ false → (opening : Opening) → KeptSince T.told T.counts T.port T.lines opening self.old → KeptSince T.told T.counts T.port T.lines opening self.new }
    {
        let batch = Snapshot::of(&entries);
        match self.journal.add(&mut self.site, entries) {
            Ok(()) => Ok(()),
            Err(LogErr::DiskFault(fault)) => {
                self.is_stale = true;
                self.lost = batch;
                Err(LaneErr::SiteFault(site_fault(fault)))
            }
            Err(LogErr::Full { length, need }) => Err(LaneErr::Full { length, need }),
            Err(_) => Err(LaneErr::Memory),
        }
    }
}

/// The fault of a site whose disk answered this one.
fn site_fault(fault: DiskFault) -> SiteFault
    ensures { result ≡ site_fault fault }
{
    match fault {
        DiskFault::Failed => SiteFault::Failed,
        DiskFault::Memory => SiteFault::Memory,
    }
}
