//! What a session adds for a plan and the rows of a list of jobs.

ghost use Rattle.std.specs.Prelude.{All, length};
ghost use Rattle.lane_session.specs.Lanes.{HasScript, AreReady, ArePassed, AllOpened, AllServed};
ghost use Rattle.lane_session.specs.Order.{AreFrontsOfDue};

use crate::lanes::Lane;
use crate::opens::open_rows;
use crate::rows::reserve_rows;
use disk_model::DiskCalls;
use ota_core::Job;
use plan_reader::Plan;
use std::alloc::Global;

/// Adds what the plan and the rows ask for: an Open for each keyset that a row names and its lane lacks, lane by lane; and
/// then the reservation that is due to each row, one row after the other. A lane that can't go on stops; the others go on.
pub fn add_for_rows<T: DiskCalls>(
    alloc: Global,
    lanes: &mut [Lane],
    sites: &mut [T],
    plan: &Plan,
    jobs: &[Job],
)
    requires sized { All HasScript jobs.now }
    requires ready { AreReady T.told T.counts sites.old lanes.old }
    ensures adds { ArePassed T.told T.counts plan.now jobs.now sites.old lanes.old sites.new lanes.new }
    ensures opened { AllOpened plan.now jobs.now lanes.new }
    ensures served { AllServed jobs.now (length jobs.now) lanes.new }
    ensures order { AreFrontsOfDue plan.now jobs.now lanes.old lanes.new }
{
    open_rows(alloc, lanes, sites, plan, jobs);
    reserve_rows(alloc, lanes, sites, jobs);
}
