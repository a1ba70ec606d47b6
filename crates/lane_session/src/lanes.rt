//! The lanes of a session.

ghost use Rattle.std.specs.Prelude.{◌≡◌, ◌≤◌, ◌%◌, None, All, Result, IfOk, option_map, length, reverse};
ghost use Rattle.disk_model.specs.Disk.{Tells};
ghost use Rattle.gate_log.specs.declared.log_errors.LogErr.{LogErr};
ghost use Rattle.ota_core.specs.History.{broken_batch};
ghost use Rattle.counter_journal.specs.EntryRanges.{IsSized, IsOfLane, LONGEST_BODY};
ghost use Rattle.counter_journal.specs.JournalReading.{IsReady};
ghost use Rattle.lane_session.specs.Due.{IsBatchFor};
ghost use Rattle.lane_session.specs.Run.{UnlessFailed, IsAddition, IsRowStep};

use crate::due::due_reservation;
use counter_journal::Journal;
use disk_model::DiskCalls;
use gate_log::LogErr;
use ota_core::{Entry, History, Job, Memory};
use std::alloc::Global;

/// A lane of a session: its journal, and the error by which it stopped.
#[derive(Debug, Drop)]
pub struct Lane {
    pub journal: Journal,
    /// None while the lane goes on.
    pub end: Option<LogErr>,
}

impl Lane {
    /// Reserves the counter that is due to a row of this lane, where the lane goes on and one is due.
    pub(crate) fn reserve<T: DiskCalls>(&mut self, alloc: Global, site: &mut T, job: &Job)
        requires some { 1 ≤ length job.now.body }
        requires short { length job.now.body ≤ LONGEST_BODY }
        requires of_lane { job.now.keyset.card.0 % self.old.journal.lanes ≡ self.old.journal.lane }
        requires ready { Tells T.told site.old → UnlessFailed self.old.end (IsReady T.told site.old self.old.journal) }
        ensures { IsRowStep T.told T.counts site.old site.new self.old self.new job.now }
    {
        if self.end.is_some() {
            return;
        }
        match batch_for(alloc, self.journal.history(), job) {
            Ok(None) => {}
            Ok(Some(batch)) => self.add(site, batch),
            Err(_) => self.end = Some(LogErr::Memory),
        }
    }

    /// Adds entries in one batch. Where they can't be added, the lane stops with that error.
    pub(crate) fn add<T: DiskCalls>(&mut self, site: &mut T, entries: Vec<Entry>)
        requires goes_on { self.old.end ≡ None }
        requires some { 1 ≤ length entries.items }
        requires few { length entries.items ≤ 16 }
        requires sized { All IsSized entries.items }
        requires of_lane { All (IsOfLane self.old.journal.lane self.old.journal.lanes) entries.items }
        requires legal { broken_batch (reverse self.old.journal.entries) entries.items ≡ None }
        requires ready { Tells T.told site.old → IsReady T.told site.old self.old.journal }
        ensures { (outcome : Result (Unit {0}) LogErr) × IsAddition T.told T.counts site.old site.new self.old self.new entries.items outcome }
    {
        if let Err(error) = self.journal.add(site, entries) {
            self.end = Some(error);
        }
    }
}

/// The reservation that is due to a row, in a batch of its own. None where nothing is due.
fn batch_for(alloc: Global, history: &History, job: &Job) -> Result<Option<Vec<Entry>>, Memory>
    ensures { IfOk result (λ batch. IsBatchFor (reverse history.now.entries) job.now (option_map (λ entries. entries.items) batch)) }
{
    match due_reservation(alloc, history, job)? {
        None => Ok(None),
        Some(entry) => {
            let mut batch = Vec::with_capacity(alloc, 1)?;
            batch.push(entry)?;
            Ok(Some(batch))
        }
    }
}
