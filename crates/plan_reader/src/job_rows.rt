//! The rows of a list of jobs.

ghost use Rattle.std.specs.Prelude.{◌≡◌, ◌==◌, ◌<◌, ◌≤◌, ◌&&◌, ◌||◌, not, nat_lt, nat_le, nat_eq, ℕ, Some, None, [], ◌∷◌, ◌++◌, map, length, is_none, IfOk, IfErr, IfSome};
ghost use Rattle.std.specs.HashSet.{contains};
ghost use Rattle.csv.specs.Records.{fields_of};
ghost use Rattle.plan_reader.specs.Check.{first_wrong, is_wrong};
ghost use Rattle.plan_reader.specs.JobRows.{cell, card_in, is_listed, job_number_of, card_number_of, kvn_in, tar_of, script_in, longest_script, takes_wide, has_job_number, job_said, row_checks, first_of_rows, NamesRow};
ghost use Rattle.plan_reader.specs.PlanPlaces.{HasNumbers, IsListing};
ghost use Rattle.plan_reader.specs.RowStop.{StopComes};
ghost use Rattle.plan_reader.specs.RowsLeft.{IsReading, rows_left};
ghost use Rattle.plan_reader.specs.declared.plans.Plan.{Plan};

use crate::columns::Column;
use crate::field_values::tar_of;
use crate::hexadecimals::decoded;
use crate::job_lists::JobsErr;
use crate::numbers::number;
use crate::plan_index::{CardListing, PlanIndex};
use crate::records::{cell, next_record};
use csv::{ByteRecord, Reader};
use ota_core::{CardId, Job, JobId, KeysetId, Memory, Octets, Tar};
use std::alloc::Global;
use std::collections::HashSet;

const CELLS: usize = 5;

/// The greatest number of jobs in a list.
pub(crate) const MOST_JOBS: usize = 100_000;

const LAST_JOB: u64 = 4_294_967_295;

const LAST_CARD: u64 = 999_999_999_999_999_999;

const LAST_KVN: u64 = 15;

const LONGEST_SCRIPT: usize = 1024;

const LONGEST_WIDE_SCRIPT: usize = 4096;

/// Why a row gives no job.
#[derive(Clone, Copy)]
pub(crate) enum Stop {
    Wrong(Column),
    Memory,
}

impl From<Memory> for Stop {
    ghost use Rattle.std.specs.Prelude.{◌≡◌};
    ghost use Rattle.plan_reader.specs.declared.job_rows.Stop.TheVariants as stop;

    ghost from_gives = { λ _ stopped. stopped ≡ stop.Memory };

    fn from(_memory: Memory) -> Stop {
        Stop::Memory
    }
}

/// Reads the rows that a reader has left, for a plan, with room for so many jobs from the start.
pub(crate) fn read_rows(
    alloc: Global,
    reader: &mut Reader<&[u8]>,
    row: &mut ByteRecord,
    plan: &PlanIndex,
    room: usize,
) -> Result<Vec<Job>, JobsErr>
    requires reading { IsReading reader.old }
    ensures right { IfOk result (λ _. first_of_rows plan.now [] (rows_left reader.old) ≡ None) }
    ensures jobs { IfOk result (λ jobs. jobs.items ≡ map (job_said plan.now) (rows_left reader.old)) }
    ensures few { IfOk result (λ jobs. length jobs.items ≤ 100000) }
    ensures err { IfErr result (NamesRow (first_of_rows plan.now [] (rows_left reader.old))) }
{
    let mut jobs = Vec::with_capacity(alloc, room)?;
    let mut numbers = HashSet::with_capacity(alloc, room)?;
    let mut place: u32 = 0;
    'rows: loop {
        if !next_record(reader, row)? {
            return Ok(jobs);
        }
        place += 1;
        match read_row(alloc, row, plan, jobs.as_slice(), &mut numbers) {
            Ok(job) => jobs.push(job)?,
            Err(Stop::Wrong(column)) => return Err(JobsErr::Refused(place, column)),
            Err(Stop::Memory) => return Err(JobsErr::Memory),
        }
    }
}

/// Reads a row, with the jobs of the rows in front of it and their numbers, to which it adds its own.
#[tactic(auto, unfolding(crate::specs::JobRows::job_said))]
fn read_row(
    alloc: Global,
    row: &ByteRecord,
    plan: &PlanIndex,
    before: &[Job],
    numbers: &mut HashSet<u32>,
) -> Result<Job, Stop>
    requires numbers { HasNumbers numbers.old before.now }
    ensures right { IfOk result (λ _. first_wrong (row_checks plan.now before.now (fields_of row.now)) ≡ None) }
    ensures job { IfOk result (λ job. job ≡ job_said plan.now (fields_of row.now)) }
    ensures few { IfOk result (λ _. length before.now < 100000) }
    ensures numbers { IfOk result (λ job. HasNumbers numbers.new (before.now ++ job ∷ [])) }
    ensures err { IfErr result (StopComes (first_wrong (row_checks plan.now before.now (fields_of row.now)))) }
{
    if row.len() != CELLS {
        return Err(Stop::Wrong(Column::Shape));
    }
    if before.len() >= MOST_JOBS {
        return Err(Stop::Wrong(Column::TooMany));
    }
    let job = new_number(row, numbers)?.ok_or(Stop::Wrong(Column::Job))?;
    let (card, listing) = listed_card(row, plan).ok_or(Stop::Wrong(Column::Card))?;
    let keyset = listed_keyset(row, card, listing).ok_or(Stop::Wrong(Column::Kvn))?;
    let tar = tar(row).ok_or(Stop::Wrong(Column::Tar))?;
    let body = script(alloc, row, listing.wide)?.ok_or(Stop::Wrong(Column::Script))?;
    Ok(Job {
        id: JobId {
            campaign: plan.campaign(),
            job,
        },
        keyset,
        tar,
        body,
    })
}

/// Adds the number of a job to those in front, if it is right and none of these.
fn new_number(row: &ByteRecord, numbers: &mut HashSet<u32>) -> Result<Option<u32>, Memory>
    ensures wrong { IfOk result (λ found. is_none found ≡ is_wrong (λ number. contains nat_eq numbers.old number) (job_number_of (fields_of row.now))) }
    ensures read { IfOk result (λ found. IfSome found (λ number. job_number_of (fields_of row.now) ≡ Some number)) }
    ensures added { IfOk result (λ found. IfSome found (λ number. (other : ℕ) → contains nat_eq numbers.new other ≡ ((number == other) || contains nat_eq numbers.old other))) }
{
    let number = match job_number(row) {
        Some(number) => number,
        None => return Ok(None),
    };
    if numbers.insert(number)? {
        Ok(Some(number))
    } else {
        Ok(None)
    }
}

#[tactic(auto, unfolding(crate::specs::JobRows::job_number_of))]
fn job_number(row: &ByteRecord) -> Option<u32>
    ensures { result ≡ job_number_of (fields_of row.now) }
{
    match number(cell(row, 0), 10, LAST_JOB) {
        Some(number) => Some(number as u32),
        None => None,
    }
}

/// The card of a row, if it is right and the plan has it, and what the plan lists of it.
fn listed_card<'a>(row: &ByteRecord, plan: &'a PlanIndex) -> Option<(u64, &'a CardListing)>
    ensures wrong { is_none result ≡ is_wrong (λ number. is_none (card_in plan.now number)) (card_number_of (fields_of row.now)) }
    ensures read { IfSome result (λ card. card_number_of (fields_of row.now) ≡ Some card.0) }
    ensures wide { IfSome result (λ card. takes_wide plan.now (fields_of row.now) ≡ card.1.now.wide) }
    ensures listing { IfSome result (λ card. IsListing plan.now card.0 card.1.now) }
{
    let card = card_number(row)?;
    let listing = plan.card(card)?;
    Some((card, listing))
}

#[tactic(auto, unfolding(crate::specs::JobRows::card_number_of))]
fn card_number(row: &ByteRecord) -> Option<u64>
    ensures { result ≡ card_number_of (fields_of row.now) }
{
    number(cell(row, 1), 18, LAST_CARD)
}

/// The keyset of a row on this card, if it is right and the plan lists it.
fn listed_keyset(row: &ByteRecord, card: u64, listing: &CardListing) -> Option<KeysetId>
    ensures wrong { (plan : Plan) → IsListing plan card listing.now → is_none result ≡ is_wrong (λ kvn. not (is_listed plan (record { card = record { 0 = card }; kvn = kvn }))) (kvn_in (fields_of row.now)) }
    ensures card { IfSome result (λ keyset. keyset.card.0 ≡ card) }
    ensures read { IfSome result (λ keyset. kvn_in (fields_of row.now) ≡ Some keyset.kvn) }
{
    let kvn = kvn(row)?;
    if !listing.has(kvn) {
        return None;
    }
    Some(KeysetId {
        card: CardId(card),
        kvn,
    })
}

#[tactic(auto, unfolding(crate::specs::JobRows::kvn_in))]
fn kvn(row: &ByteRecord) -> Option<u8>
    ensures read { result ≡ kvn_in (fields_of row.now) }
    ensures above { IfSome result (λ kvn. 1 ≤ kvn) }
    ensures below { IfSome result (λ kvn. kvn ≤ 15) }
{
    let kvn = number(cell(row, 2), 2, LAST_KVN)?;
    if kvn > 0 { Some(kvn as u8) } else { None }
}

#[tactic(auto, unfolding(crate::specs::JobRows::tar_of))]
fn tar(row: &ByteRecord) -> Option<Tar>
    ensures { result ≡ tar_of (fields_of row.now) }
{
    tar_of(cell(row, 3))
}

/// The script of a row, if it is right and not too long for a card that is wide or isn't.
#[tactic(auto, unfolding(crate::specs::JobRows::script_in))]
fn script(alloc: Global, row: &ByteRecord, wide: bool) -> Result<Option<Octets>, Memory>
    ensures wrong { IfOk result (λ script. is_none script ≡ is_wrong (λ octets. nat_lt (longest_script wide) (length octets)) (script_in (fields_of row.now))) }
    ensures read { IfOk result (λ script. IfSome script (λ octets. script_in (fields_of row.now) ≡ Some octets)) }
{
    let digits = cell(row, 4);
    if !is_script_length(digits.len() / 2, wide) {
        return Ok(None);
    }
    match decoded(alloc, digits)? {
        Some(octets) => Ok(Some(Octets::from(octets))),
        None => Ok(None),
    }
}

/// Whether a script for a card that is wide or isn't may have so many octets.
fn is_script_length(len: usize, wide: bool) -> bool
    ensures { result ≡ (nat_lt 0 len && nat_le len (longest_script wide)) }
{
    let most = if wide {
        LONGEST_WIDE_SCRIPT
    } else {
        LONGEST_SCRIPT
    };
    len > 0 && len <= most
}
