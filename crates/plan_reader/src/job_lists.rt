ghost use Rattle.std.specs.Prelude.{◌≡◌, ◌≤◌, Ok, bytes_eq, length, IsTrue, IfOk, IfErr};
ghost use Rattle.csv.specs.Records.{fields_of};
ghost use Rattle.plan_reader.specs.Jobs.{are_distinct};
ghost use Rattle.plan_reader.specs.JobRows.{cell, is_header, jobs_of, RefusesJobs, AreListed};

use crate::columns::Column;
use crate::job_rows::{MOST_JOBS, read_rows};
use crate::plan_index::PlanIndex;
use crate::plans::Plan;
use crate::records::{cell, next_record, open_records};
use csv::ByteRecord;
use ota_core::{Job, Memory};
use std::alloc::{AllocError, AllocFailed, Global};

/// The least number of octets in a row, with the end of its line.
const SHORTEST_ROW: usize = 16;

/// Why the octets of a list of jobs give none.
#[derive(Clone, Copy, Debug, PartialEq, Eq)]
pub enum JobsErr {
    /// They aren't a list of jobs on cards of the plan: the row, from 1 or 0 for the header line, and what is wrong there.
    Refused(u32, Column),
    /// Memory is wanting.
    Memory,
}

impl From<Memory> for JobsErr {
    ghost use Rattle.std.specs.Prelude.{◌≡◌};
    ghost use Rattle.plan_reader.specs.declared.job_lists.JobsErr.TheVariants as jobs_err;

    ghost from_gives = { λ _ err. err ≡ jobs_err.Memory };

    fn from(_memory: Memory) -> JobsErr {
        JobsErr::Memory
    }
}

impl From<AllocError> for JobsErr {
    ghost use Rattle.std.specs.Prelude.{◌≡◌};
    ghost use Rattle.plan_reader.specs.declared.job_lists.JobsErr.TheVariants as jobs_err;

    ghost from_gives = { λ _ err. err ≡ jobs_err.Memory };

    fn from(_error: AllocError) -> JobsErr {
        JobsErr::Memory
    }
}

impl From<AllocFailed<Job>> for JobsErr {
    ghost use Rattle.std.specs.Prelude.{◌≡◌};
    ghost use Rattle.plan_reader.specs.declared.job_lists.JobsErr.TheVariants as jobs_err;

    ghost from_gives = { λ _ err. err ≡ jobs_err.Memory };

    fn from(_failed: AllocFailed<Job>) -> JobsErr {
        JobsErr::Memory
    }
}

/// Reads a list of jobs for a plan: the records of a CSV text, a header and a row for each job. It is refused exactly
/// with the first thing that is wrong, by row, and in a row by column.
#[tactic(auto, unfolding(crate::specs::JobRows::jobs_of))]
pub fn read_jobs(alloc: Global, octets: &[u8], plan: &Plan) -> Result<Vec<Job>, JobsErr>
    ensures ok { IfOk result (λ jobs. jobs_of plan.now octets.now ≡ Ok jobs.items) }
    ensures err { IfErr result (RefusesJobs (jobs_of plan.now octets.now)) }
    ensures distinct { IfOk result (λ jobs. IsTrue (are_distinct jobs.items)) }
    ensures few { IfOk result (λ jobs. length jobs.items ≤ 100000) }
    ensures listed { IfOk result (λ jobs. AreListed plan.now jobs.items) }
{
    let index = PlanIndex::new(alloc, plan)?;
    let mut reader = open_records(alloc, octets);
    let mut row = ByteRecord::new(alloc);
    if !next_record(&mut reader, &mut row)? {
        return Err(JobsErr::Refused(0, Column::Header));
    }
    if !is_header(&row) {
        return Err(JobsErr::Refused(0, Column::Header));
    }
    let room = (octets.len() / SHORTEST_ROW).min(MOST_JOBS);
    read_rows(alloc, &mut reader, &mut row, &index, room)
}

/// Whether a record is the header.
#[tactic(auto, unfolding(crate::specs::JobRows::is_header))]
fn is_header(row: &ByteRecord) -> bool
    ensures { result ≡ is_header (fields_of row.now) }
{
    if row.len() != 5 {
        return false;
    }
    if !has_field(row, 0, b"job") {
        return false;
    }
    if !has_field(row, 1, b"card") {
        return false;
    }
    if !has_field(row, 2, b"kvn") {
        return false;
    }
    if !has_field(row, 3, b"tar") {
        return false;
    }
    has_field(row, 4, b"script")
}

fn has_field(row: &ByteRecord, place: usize, name: &[u8]) -> bool
    ensures { result ≡ bytes_eq (cell place (fields_of row.now)) name.now }
{
    cell(row, place) == name
}
