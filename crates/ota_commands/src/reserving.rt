//! The command `reserve`.

ghost use Rattle.std.specs.Prelude.{◌≡◌, ◌⊎◌, ◌≤◌, length};
ghost use Rattle.lane_session.specs.Lanes.{AreReady};
ghost use Rattle.ota_commands.specs.Inputs.{source_input, IsReadWithin, AreRows};
ghost use Rattle.ota_commands.specs.Command.{NoneEnded, HasAdded, HasStopped, HasReserved, HasRunReserve};

use crate::ends::{first_end, set_ends};
use crate::faults::Fault;
use crate::inputs::{jobs_from, plan_from};
use crate::opening::open_agreeing;
use crate::writing::{answer_of, write_report};
use disk_model::DiskCalls;
use lane_session::{Lane, add_for_rows};
use ota_core::Job;
use ota_io::{Sink, Source};
use plan_reader::Plan;
use std::alloc::Global;

/// Reads the plan and the jobs, opens the journals, reserves a counter for each job, each durably before the next, and
/// writes the report.
#[tactic(auto, using(crate::proofs::Untouched::takes_nothing))]
pub fn reserve<S: Source, K: Sink, T: DiskCalls>(
    alloc: Global,
    plan: &mut S,
    jobs: &mut S,
    out: &mut K,
    sites: &mut [T],
    ends: &mut [Option<Fault>],
) -> Option<Fault>
    requires some { 1 ≤ length sites.old }
    requires few { length sites.old ≤ 64 }
    requires not_ended { NoneEnded sites.old ends.old }
    ensures course { HasRunReserve T.told T.counts K.tells K.written K.faults (source_input S.tells S.left S.faults plan.old plan.new) (source_input S.tells S.left S.faults jobs.old jobs.new)
        jobs.old jobs.new sites.old sites.new out.old out.new result ends.new }
    ensures plan_reads { IsReadWithin S.tells S.left plan.old plan.new }
    ensures jobs_reads { IsReadWithin S.tells S.left jobs.old jobs.new }
{
    let plan = match plan_from(alloc, plan) {
        Ok(plan) => plan,
        Err(fault) => return Some(fault),
    };
    let jobs = match jobs_from(alloc, jobs, &plan) {
        Ok(jobs) => jobs,
        Err(fault) => return Some(fault),
    };
    reserve_for(alloc, &plan, &jobs, out, sites, ends)
}

/// Opens the journals, reserves a counter for each job, and writes the report.
fn reserve_for<K: Sink, T: DiskCalls>(
    alloc: Global,
    plan: &Plan,
    jobs: &[Job],
    out: &mut K,
    sites: &mut [T],
    ends: &mut [Option<Fault>],
) -> Option<Fault>
    requires some { 1 ≤ length sites.old }
    requires few { length sites.old ≤ 64 }
    requires not_ended { NoneEnded sites.old ends.old }
    requires rows { AreRows jobs.now }
    ensures { HasStopped T.told T.counts plan.now jobs.now sites.old sites.new out.old out.new result ends.new
        ⊎ HasReserved T.told T.counts K.tells K.written K.faults plan.now jobs.now sites.old sites.new out.old out.new result ends.new }
{
    match open_agreeing(alloc, plan, jobs, sites) {
        Ok(lanes) => reserve_on(alloc, plan, jobs, out, sites, lanes, ends),
        Err(fault) => Some(fault),
    }
}

/// Reserves a counter for each job on opened lanes, and writes the report.
fn reserve_on<K: Sink, T: DiskCalls>(
    alloc: Global,
    plan: &Plan,
    jobs: &[Job],
    out: &mut K,
    sites: &mut [T],
    lanes: Vec<Lane>,
    ends: &mut [Option<Fault>],
) -> Option<Fault>
    requires ready { AreReady T.told T.counts sites.old lanes.items }
    requires few { length sites.old ≤ 64 }
    requires ends { length ends.old ≡ length sites.old }
    requires rows { AreRows jobs.now }
    ensures { HasAdded T.told T.counts K.tells K.written K.faults plan.now jobs.now sites.old sites.new lanes.items out.old out.new result ends.new }
{
    let mut lanes = lanes;
    add_for_rows(alloc, &mut lanes, sites, plan, jobs);
    set_ends(ends, &lanes);
    let written = write_report(alloc, out, jobs, lanes);
    answer_of(written, first_end(ends))
}
