//! Counts and measures what the readers of plans and of lists of jobs read, beside `toml` and `csv` alone. Each line of
//! input is a task, how often it is done, and the file of a plan: `plan` and `toml` read it, as a plan or as a document
//! whose values are discarded. With a further file of a list of jobs, `jobs` and `csv` read that one, for the plan or as
//! records that are discarded. It prints what the last turn counted: keysets, names at the top, jobs or records; with
//! `speed` before the line, the processor's nanoseconds of all turns as well.
#![tactic(auto)]

mod readings;

use anyhow::Result;
use std::fs;

fn main(rt: HostRuntime) -> Result<()> {
    for line in rt.lines(rt.alloc()) {
        let line = line?;
        let mut words = line.as_str().split_whitespace();
        let first = words.next().unwrap_or("");
        let is_timed = first == "speed";
        let task = if is_timed {
            words.next().unwrap_or("")
        } else {
            first
        };
        let turns = words.next().unwrap_or("1").parse::<u32>()?;
        let plan = fs::read(&rt, words.next().unwrap_or(""))?;
        let jobs = match words.next() {
            Some(path) => fs::read(&rt, path)?,
            None => Vec::new(rt.alloc()),
        };
        let (nanoseconds, count) = readings::measured(&rt, rt.alloc(), task, turns, &plan, &jobs)?;
        if is_timed {
            println!(rt; "{nanoseconds} {count}")?;
        } else {
            println!(rt; "{count}")?;
        }
    }
    Ok(())
}
