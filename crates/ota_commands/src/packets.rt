//! The command `packet`.

ghost use Rattle.std.specs.Prelude.{◌⊎◌, ◌≤◌, List, Option, length};
ghost use Rattle.ota_commands.specs.Inputs.{source_input, IsReadWithin, AreRows};
ghost use Rattle.ota_commands.specs.declared.faults.Fault as fault;
ghost use Rattle.ota_commands.specs.Command.{NoneEnded, HasStopped, HasShown, HasRunPacket};

use crate::faults::Fault;
use crate::inputs::{jobs_from, plan_from};
use crate::opening::open_agreeing;
use crate::writing::{answer_of, write_packets};
use disk_model::DiskCalls;
use ota_core::Job;
use ota_io::{Sink, Source};
use plan_reader::Plan;
use std::alloc::Global;

/// Reads the plan and the jobs, opens the journals, and writes the messages of the jobs that are reserved and not settled.
/// It adds nothing.
#[tactic(auto, using(crate::proofs::Untouched::takes_nothing))]
pub fn packet<S: Source, K: Sink, T: DiskCalls>(
    alloc: Global,
    plan: &mut S,
    jobs: &mut S,
    out: &mut K,
    sites: &mut [T],
) -> Option<Fault>
    requires some { 1 ≤ length sites.old }
    requires few { length sites.old ≤ 64 }
    ensures course { (ends : List (Option fault.Fault)) → NoneEnded sites.old ends → HasRunPacket T.told T.counts K.tells K.written K.faults (source_input S.tells S.left S.faults plan.old plan.new) (source_input S.tells S.left S.faults jobs.old jobs.new)
        jobs.old jobs.new sites.old sites.new out.old out.new result ends }
    ensures plan_reads { IsReadWithin S.tells S.left plan.old plan.new }
    ensures jobs_reads { IsReadWithin S.tells S.left jobs.old jobs.new }
{
    let plan = match plan_from(alloc, plan) {
        Ok(plan) => plan,
        Err(fault) => return Some(fault),
    };
    let jobs = match jobs_from(alloc, jobs, &plan) {
        Ok(jobs) => jobs,
        Err(fault) => return Some(fault),
    };
    show_for(alloc, &plan, &jobs, out, sites)
}

/// Opens the journals, and writes the messages.
fn show_for<K: Sink, T: DiskCalls>(
    alloc: Global,
    plan: &Plan,
    jobs: &[Job],
    out: &mut K,
    sites: &mut [T],
) -> Option<Fault>
    requires some { 1 ≤ length sites.old }
    requires few { length sites.old ≤ 64 }
    requires rows { AreRows jobs.now }
    ensures { (ends : List (Option fault.Fault)) → NoneEnded sites.old ends → HasStopped T.told T.counts plan.now jobs.now sites.old sites.new out.old out.new result ends
        ⊎ HasShown T.told T.counts K.tells K.written K.faults plan.now jobs.now sites.old sites.new out.old out.new result ends }
{
    match open_agreeing(alloc, plan, jobs, sites) {
        Ok(lanes) => {
            let written = write_packets(alloc, out, jobs, lanes);
            answer_of(written, None)
        }
        Err(fault) => Some(fault),
    }
}
