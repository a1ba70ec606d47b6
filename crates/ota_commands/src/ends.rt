//! The faults by which lanes are refused and stop.

ghost use Rattle.std.specs.Prelude.{◌≡◌, ◌<◌, ◌^◌, None, length};
ghost use Rattle.lane_session.specs.Rows.{NoneDiffers};
ghost use Rattle.lane_session.specs.Differences.{histories_of};
ghost use Rattle.ota_commands.specs.Ends.{two_at, fault_of_log, fault_of_opening, difference, end_of, AreEnds, first_end};

use crate::faults::Fault;
use disk_model::DiskFault;
use gate_log::LogErr;
use lane_session::{Lane, OpeningErr, job_difference, keyset_difference};
use ota_core::Job;
use plan_reader::Plan;

/// The fault by which the journals weren't all opened or made.
pub fn fault_of_opening(error: OpeningErr) -> Fault
    ensures { result ≡ fault_of_opening error }
{
    match error {
        OpeningErr::Memory => Fault::Memory,
        OpeningErr::Refused(lane, error) => fault_of_log(u32::from(lane), error),
    }
}

/// The fault of a lane by the error of its journal.
fn fault_of_log(lane: u32, error: LogErr) -> Fault
    ensures { result ≡ fault_of_log lane error }
{
    match error {
        LogErr::Memory => Fault::Memory,
        LogErr::DiskFault(DiskFault::Failed) => Fault::SiteFault(lane),
        LogErr::DiskFault(DiskFault::Memory) => Fault::Memory,
        LogErr::Unformatted => Fault::Unformatted(lane),
        LogErr::NotALog => Fault::NotAJournal(lane),
        LogErr::OtherHead(rest) => Fault::WrongLane(lane, two_at(rest, 0, 1), two_at(rest, 2, 3)),
        LogErr::Damaged(number) => Fault::Damaged(lane, number),
        LogErr::Full { length, need } => Fault::Full(lane, length, need),
    }
}

/// The number that two octets of a head say.
fn two_at(octets: [u8; 4], first: usize, second: usize) -> u16
    requires first { first < 4 }
    requires second { second < 4 }
    ensures { result ≡ two_at octets first second }
{
    u16::from_be_bytes([octets[first], octets[second]])
}

/// The first fault of lanes that differ from the plan, or else from the rows.
pub fn difference(lanes: &[Lane], plan: &Plan, jobs: &[Job]) -> Option<Fault>
    requires few { length jobs.now < 2 ^ 32 }
    ensures first { result ≡ difference plan.now jobs.now (histories_of lanes.now) }
    ensures none { result ≡ None → NoneDiffers jobs.now (histories_of lanes.now) }
{
    if let Some(keyset) = keyset_difference(lanes, plan) {
        return Some(Fault::KeysetDiffers(keyset));
    }
    match job_difference(lanes, jobs) {
        None => None,
        Some((row, counter)) => Some(Fault::JobDiffers(row, counter)),
    }
}

/// Sets the end of each lane.
pub fn set_ends(ends: &mut [Option<Fault>], lanes: &[Lane])
    requires same { length ends.old ≡ length lanes.now }
    requires few { length lanes.now < 2 ^ 32 }
    ensures { AreEnds lanes.now ends.new }
{
    for number in 0..lanes.len() {
        ends[number] = end_of(number as u32, &lanes[number]);
    }
}

fn end_of(number: u32, lane: &Lane) -> Option<Fault>
    ensures { result ≡ end_of number lane.now.end }
{
    match lane.end {
        None => None,
        Some(error) => Some(fault_of_log(number, error)),
    }
}

/// The fault of the first lane that stopped.
pub fn first_end(ends: &[Option<Fault>]) -> Option<Fault>
    ensures { result ≡ first_end ends.now }
{
    for end in ends {
        if let Some(fault) = end {
            return Some(*fault);
        }
    }
    None
}
