//! What a sender does with a lane under one hold.
ghost use Rattle.std.specs.Prelude.{◌≡◌, ◌≤◌, ℕ, None, Some, [], All, length};
ghost use Rattle.ota_core.specs.History.{IsLegal};
ghost use Rattle.lane_engine.specs.Keeping.{IsAtHome};
ghost use Rattle.lane_engine.specs.Reserving.{IsJobOf, JobsDiffer};
ghost use Rattle.senders.specs.Served.{IsServed, ends_lane, IsStopped};

use lane_engine::{Lane, LaneErr};
use ota_core::Job;
use ota_io::Clock;
use site_model::Site;

/// Serves the jobs where the lane has no end. A lane that has one is left as it was.
pub(crate) fn serve_open<T: Site, C: Clock>(
    lane: &mut Lane<T>,
    by: u32,
    jobs: &[Job],
    clock: &C,
) -> Option<LaneErr>
    requires some { 1 ≤ length jobs.now }
    requires few { length jobs.now ≤ 16 }
    requires differ { JobsDiffer jobs.now }
    requires of_lane { All (IsJobOf lane.old.journal.lane lane.old.journal.lanes) jobs.now }
    ensures legal { IsLegal lane.old.journal.entries }
    ensures ended { (end : _) → lane.old.end ≡ Some end → (lane.new ≡ lane.old) × (result ≡ None) }
    ensures served { (pace : ℕ) → lane.old.end ≡ None → length jobs.now ≤ pace → IsAtHome T.told T.counts T.port T.lines pace lane.old → (lane.old.lost ≡ []) × IsServed T.told T.counts T.port T.lines pace by jobs.now lane.old lane.new result }
{
    match lane.end() {
        Some(_) => None,
        None => serve(lane, by, jobs, clock),
    }
}

/// Reserves and sends the jobs together, and asks the lane's port once. Want of memory, a fault of the site or want of room
/// becomes the lane's end. Another refusal comes back, and leaves the lane as it was.
fn serve<T: Site, C: Clock>(lane: &mut Lane<T>, by: u32, jobs: &[Job], clock: &C) -> Option<LaneErr>
    requires no_end { lane.old.end ≡ None }
    requires some { 1 ≤ length jobs.now }
    requires few { length jobs.now ≤ 16 }
    requires differ { JobsDiffer jobs.now }
    requires of_lane { All (IsJobOf lane.old.journal.lane lane.old.journal.lanes) jobs.now }
    ensures { (pace : ℕ) → length jobs.now ≤ pace → IsAtHome T.told T.counts T.port T.lines pace lane.old → lane.old.lost ≡ [] → IsServed T.told T.counts T.port T.lines pace by jobs.now lane.old lane.new result }
{
    lane.at(clock.now());
    if let Err(error) = lane.reserve_and_send(by, jobs) {
        return stop(lane, error);
    }
    lane.at(clock.now());
    match lane.poll_settle(by) {
        Ok(_) => None,
        Err(error) => stop(lane, error),
    }
}

/// Sets the lane's end where the answer is one, and gives back any other.
fn stop<T: Site>(lane: &mut Lane<T>, error: LaneErr) -> Option<LaneErr>
    ensures { lane.old.end ≡ None → IsStopped lane.old lane.new error result }
{
    if !is_end(&error) {
        return Some(error);
    }
    lane.set_end(error);
    None
}

/// Whether a lane ends by the answer.
fn is_end(error: &LaneErr) -> bool
    ensures { result ≡ ends_lane error.now }
{
    match error {
        LaneErr::Memory | LaneErr::SiteFault(_) | LaneErr::Full { .. } => true,
        _ => false,
    }
}
