//! The rows of a session, one after the other.

ghost use Rattle.std.specs.Prelude.{◌≡◌, ◌%◌, ◌<◌, All, [], length};
ghost use Rattle.plan_reader.specs.declared.plans.Plan.{Plan};
ghost use Rattle.lane_session.specs.Lanes.{HasScript, AreReady, ArePassed, AllServed};
ghost use Rattle.lane_session.specs.Order.{AllInOrder};

use crate::lanes::Lane;
use disk_model::DiskCalls;
use ota_core::Job;
use std::alloc::Global;

/// Reserves the counter that is due to each row, one row after the other, on the lane of its card.
pub(crate) fn reserve_rows<T: DiskCalls>(
    alloc: Global,
    lanes: &mut [Lane],
    sites: &mut [T],
    jobs: &[Job],
)
    requires sized { All HasScript jobs.now }
    requires ready { AreReady T.told T.counts sites.old lanes.old }
    ensures passed { (plan : Plan) → ArePassed T.told T.counts plan jobs.now sites.old lanes.old sites.new lanes.new }
    ensures served { AllServed jobs.now (length jobs.now) lanes.new }
    ensures order { AllInOrder jobs.now [] lanes.old lanes.new }
{
    for job in jobs {
        let lane = lane_of(job, lanes.len());
        lanes[lane].reserve(alloc, &mut sites[lane], job);
    }
}

/// The lane of a row: the number of its card modulo the number of lanes.
pub(crate) fn lane_of(job: &Job, lanes: usize) -> usize
    requires { 0 < lanes }
    ensures lane { result ≡ job.now.keyset.card.0 % lanes }
    ensures within { result < lanes }
{
    (job.keyset.card.0 % lanes as u64) as usize
}
