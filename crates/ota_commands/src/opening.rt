//! How the journals are opened for a plan and the rows of a list of jobs.

ghost use Rattle.std.specs.Prelude.{◌≤◌, IfOk, IfErr, length};
ghost use Rattle.lane_session.specs.Lanes.{AreReady};
ghost use Rattle.ota_commands.specs.Inputs.{AreRows};
ghost use Rattle.ota_commands.specs.Command.{Agree, StopsWith};

use crate::ends::{difference, fault_of_opening};
use crate::faults::Fault;
use disk_model::DiskCalls;
use lane_session::{Lane, open_lanes};
use ota_core::Job;
use plan_reader::Plan;
use std::alloc::Global;

/// Opens the journals of all lanes. The fault is that of the first that is refused, or the first difference from the plan or
/// the rows.
pub fn open_agreeing<T: DiskCalls>(
    alloc: Global,
    plan: &Plan,
    jobs: &[Job],
    sites: &mut [T],
) -> Result<Vec<Lane>, Fault>
    requires some { 1 ≤ length sites.old }
    requires few { length sites.old ≤ 64 }
    requires rows { AreRows jobs.now }
    ensures opened { IfOk result (λ lanes. Agree T.told T.counts plan.now jobs.now sites.old sites.new lanes.items) }
    ensures ready { IfOk result (λ lanes. AreReady T.told T.counts sites.new lanes.items) }
    ensures stopped { IfErr result (StopsWith T.told T.counts plan.now jobs.now sites.old sites.new) }
{
    let lanes = match open_lanes(alloc, sites) {
        Ok(lanes) => lanes,
        Err(error) => return Err(fault_of_opening(error)),
    };
    match difference(&lanes, plan, jobs) {
        None => Ok(lanes),
        Some(fault) => Err(fault),
    }
}
