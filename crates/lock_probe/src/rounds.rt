//! One round of holds, and what came of it.
ghost use Rattle.std.specs.Prelude.{◌≤◌};

use crate::rows::Row;
use crate::{lanes, mutexes};
use anyhow::{Result, bail, ensure};
use std::alloc::Global;
use std::sync::Wait;
use std::thread::Threads;
use std::time::{Clock, Instant};

fn held<R: Threads + Wait + Sync>(
    rt: &R,
    alloc: Global,
    lock: &str,
    threads: u32,
    holds: u32,
) -> Result<Row> {
    ensure!(threads >= 1 && threads <= 64, "1 to 64 threads");
    match lock {
        "lane" => Ok(lanes::held(rt, alloc, threads, holds)?),
        "mutex" => Ok(mutexes::held(rt, alloc, threads, holds)?),
        _ => bail!("no such lock: {lock:?}"),
    }
}

/// How many entries the lane has, and how many of them the threads made that held it most and least.
pub fn outcome<R: Threads + Wait + Sync>(
    rt: &R,
    alloc: Global,
    lock: &str,
    threads: &str,
    holds: &str,
) -> Result<String> {
    let threads = threads.parse::<u32>()?;
    let lane = held(rt, alloc, lock, threads, holds.parse()?)?;
    let mut most = 0;
    let mut least = usize::MAX;
    for number in 1..=threads {
        let made = lane.made_by(number);
        most = most.max(made);
        least = least.min(made);
    }
    let entries = lane.numbers.len();
    Ok(format!(in alloc; "{lock}: {entries} entries, {least} to {most} of a thread")?)
}

/// The nanoseconds of the round by the clock, and how many entries the lane has.
pub fn measured<R: Threads + Wait + Clock + Sync>(
    rt: &R,
    alloc: Global,
    lock: &str,
    threads: &str,
    holds: &str,
) -> Result<String> {
    let threads = threads.parse::<u32>()?;
    let holds = holds.parse::<u32>()?;
    let start = Instant::now(rt)?;
    let lane = held(rt, alloc, lock, threads, holds)?;
    let nanoseconds = start.elapsed(rt)?.as_nanos();
    let entries = lane.numbers.len();
    Ok(format!(in alloc; "{nanoseconds} {entries}")?)
}
