//! The only lane of its journals.

ghost use Rattle.std.specs.Prelude.{◌≡◌, ◌≤◌, true, All, length};
ghost use Rattle.lane_engine.specs.Reserving.{AreOthers, IsJobOf, JobsDiffer};

use anyhow::{Result, ensure};
use gate_log::LogErr;
use lane_engine::{Lane, LaneErr, Poll};
use ota_core::{Counter, Entry, Job, JobId, KeysetFacts, KeysetId};
use site_model::SiteCalls;
use std::alloc::Global;

/// Lane 0 of 1. Its calls fail where a lane can't be asked so.
#[derive(Drop)]
pub struct OneLane<T: SiteCalls> {
    lane: Lane<T>,
    ghost is_first: { lane.journal.lane ≡ 0 },
    ghost is_alone: { lane.journal.lanes ≡ 1 },
}

/// Whether no job has this number.
fn are_others(id: JobId, jobs: &[Job]) -> bool
    ensures { result ≡ true → AreOthers id jobs.now }
{
    match jobs {
        [] => true,
        [job, rest @ ..] => job.id != id && are_others(id, rest),
    }
}

/// Whether no job stands twice.
fn jobs_differ(jobs: &[Job]) -> bool
    ensures { result ≡ true → JobsDiffer jobs.now }
{
    match jobs {
        [] => true,
        [job, rest @ ..] => are_others(job.id, rest) && jobs_differ(rest),
    }
}

/// Whether each script has 1 to 4,096 octets.
fn are_sized(jobs: &[Job]) -> bool
    ensures { result ≡ true → All (IsJobOf 0 1) jobs.now }
{
    match jobs {
        [] => true,
        [job, rest @ ..] => {
            let len = job.body.as_slice().len();
            1 <= len && len <= 4096 && are_sized(rest)
        }
    }
}

/// Whether a lane can be asked to reserve these jobs.
fn can_be_asked(jobs: &[Job]) -> bool
    ensures some { result ≡ true → 1 ≤ length jobs.now }
    ensures few { result ≡ true → length jobs.now ≤ 16 }
    ensures differ { result ≡ true → JobsDiffer jobs.now }
    ensures of_lane { result ≡ true → All (IsJobOf 0 1) jobs.now }
{
    !jobs.is_empty() && jobs.len() <= 16 && jobs_differ(jobs) && are_sized(jobs)
}

impl<T: SiteCalls> OneLane<T> {
    /// A refusal gives the site back.
    pub fn open(alloc: Global, site: T) -> Result<OneLane<T>, (T, LogErr)> {
        match Lane::open(alloc, site, 0, 1) {
            Ok(lane) => Ok(OneLane { lane }),
            Err(refused) => Err(refused),
        }
    }

    pub fn open_keyset(&mut self, keyset: KeysetId, facts: KeysetFacts) -> Result<(), LaneErr> {
        self.lane.open_keysets(0, &[(keyset, facts)])
    }

    pub fn reserve(&mut self, jobs: &[Job]) -> Result<Result<(), LaneErr>> {
        ensure!(can_be_asked(jobs), "no jobs of a batch");
        Ok(self.lane.reserve(1, jobs))
    }

    pub fn reserve_and_send(&mut self, jobs: &[Job]) -> Result<Result<(), LaneErr>> {
        ensure!(can_be_asked(jobs), "no jobs of a batch");
        Ok(self.lane.reserve_and_send(1, jobs))
    }

    pub fn resend(&mut self, keyset: KeysetId, counter: Counter) -> Result<(), LaneErr> {
        self.lane.resend(1, keyset, counter)
    }

    pub fn poll_settle(&mut self) -> Result<Poll, LaneErr> {
        self.lane.poll_settle(1)
    }

    pub fn close_keyset(&mut self, keyset: KeysetId) -> Result<(), LaneErr> {
        self.lane.close_keyset(1, keyset)
    }

    pub fn at(&mut self, moment: u64) {
        self.lane.at(moment);
    }

    pub fn name(&mut self, name: &[u8]) -> Result<()> {
        ensure!(name.len() <= 32, "a name has at most 32 octets");
        self.lane.name(name);
        Ok(())
    }

    pub fn entries(&self) -> &[Entry] {
        self.lane.history().entries()
    }

    pub fn into_site(self) -> T {
        self.lane.into_parts().0
    }
}
