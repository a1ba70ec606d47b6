use anyhow::{Result, bail};
use csv::{ByteRecord, ReaderBuilder};
use plan_reader::{JobsErr, Plan, PlanErr, read_jobs, read_plan};
use std::alloc::Global;
use std::time::CpuClock;

fn plan_of(alloc: Global, octets: &[u8]) -> Result<Plan> {
    match read_plan(alloc, octets) {
        Ok(plan) => Ok(plan),
        Err(PlanErr::Refused(table, row, field)) => bail!("plan refused: {table} {row} {field}"),
        Err(PlanErr::Memory) => bail!("out of memory"),
    }
}

fn keysets(plan: &Plan) -> usize {
    let mut count: usize = 0;
    for card in plan.cards.as_slice() {
        count = count.saturating_add(card.keysets.as_slice().len());
    }
    count
}

fn jobs_of(alloc: Global, octets: &[u8], plan: &Plan) -> Result<usize> {
    match read_jobs(alloc, octets, plan) {
        Ok(jobs) => Ok(jobs.len()),
        Err(JobsErr::Refused(row, column)) => bail!("jobs refused: row {row} {column}"),
        Err(JobsErr::Memory) => bail!("out of memory"),
    }
}

fn document(alloc: Global, octets: &[u8]) -> Result<usize> {
    match toml::table_from_slice(alloc, octets) {
        Ok(table) => Ok(table.len()),
        Err(_) => bail!("no TOML"),
    }
}

fn records(alloc: Global, octets: &[u8]) -> Result<usize> {
    let mut reader = ReaderBuilder::new()
        .has_headers(false)
        .flexible(true)
        .from_reader(alloc, octets);
    let mut row = ByteRecord::new(alloc);
    let mut count: usize = 0;
    for _ in 0..u64::MAX {
        match reader.read_byte_record(&mut row) {
            Ok(true) => count = count.saturating_add(1),
            Ok(false) => return Ok(count),
            Err(_) => bail!("no CSV"),
        }
    }
    Ok(count)
}

/// One turn of a task; what it counted.
fn turn(alloc: Global, task: &str, text: &[u8], list: &[u8], plan: &Plan) -> Result<usize> {
    match task {
        "plan" => Ok(keysets(&plan_of(alloc, text)?)),
        "toml" => document(alloc, text),
        "jobs" => jobs_of(alloc, list, plan),
        "csv" => records(alloc, list),
        _ => bail!("no such task: {task:?}"),
    }
}

/// The processor's nanoseconds of so many turns of a task, and what the last one counted.
pub fn measured(
    rt: &impl CpuClock,
    alloc: Global,
    task: &str,
    turns: u32,
    text: &[u8],
    list: &[u8],
) -> Result<(u128, usize)> {
    let plan = plan_of(alloc, text)?;
    let mut count = 0;
    let start = rt.thread_cpu_time()?;
    for _ in 0..turns {
        count = turn(alloc, task, text, list, &plan)?;
    }
    let nanoseconds = rt.thread_cpu_time()?.saturating_sub(start).as_nanos();
    Ok((nanoseconds, count))
}
