//! Reads lines of work for a simulated site on disks in memory. `one` and a number of deliveries send so many packets to the
//! only card of a site, `many` and a number send one packet to each of so many cards. The port is polled until there is no
//! message: that gives how many messages came, how many lines the cards' logs have, and how often the port was asked.
//! `speed-one` and `speed-many` give the processor's nanoseconds of the same.
#![tactic(auto)]

mod deliveries;
mod packets;

use crate::deliveries::Deliveries;
use anyhow::{Result, bail};
use std::alloc::Global;
use std::time::CpuClock;

/// The deliveries that a task does.
fn prepared(alloc: Global, task: &str, count: u32) -> Result<Deliveries> {
    match task {
        "one" | "speed-one" => Deliveries::new(alloc, 1, count),
        "many" | "speed-many" => Deliveries::new(alloc, count, 1),
        _ => bail!("no such task: {task:?}"),
    }
}

/// What a line of work gives.
fn answer(rt: &impl CpuClock, alloc: Global, line: &str) -> Result<String> {
    let mut words = line.split_whitespace();
    let task = words.next().unwrap_or("");
    let count = words.next().unwrap_or("").parse::<u32>()?;
    let mut deliveries = prepared(alloc, task, count)?;
    if task.starts_with("speed-") {
        let nanoseconds = deliveries.measure(rt, count)?;
        return Ok(format!(in alloc; "{task} {nanoseconds}")?);
    }
    let given = deliveries.deliver()?;
    let lines = deliveries.count_lines();
    let polls = deliveries.polls();
    Ok(format!(in alloc; "{given} messages, {lines} lines, {polls} polls")?)
}

fn do_lines(rt: &HostRuntime) -> Result<()> {
    for line in rt.lines(rt.alloc()) {
        let line = line?;
        let answer = answer(rt, rt.alloc(), line.as_str())?;
        println!(rt; "{answer}")?;
    }
    Ok(())
}

fn main(rt: HostRuntime) -> Result<()> {
    do_lines(&rt)
}
