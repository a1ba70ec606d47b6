//! Reads scripts in hexadecimal digits, one a line, and prints the compact response to each on a new card:
//! `files` or `applets`, and then the script. `speed`, a script for the files, a number of turns and a script
//! that runs once before them (it may be missing) give the processor's nanoseconds for all turns on one card,
//! and the last response.
#![tactic(auto)]

mod scripts;

use anyhow::Result;

fn main(rt: HostRuntime) -> Result<()> {
    for line in rt.lines(rt.alloc()) {
        let line = line?;
        let mut words = line.as_str().split_whitespace();
        let task = words.next().unwrap_or("");
        let script = words.next().unwrap_or("");
        let turns = words.next().unwrap_or("1");
        let before = words.next().unwrap_or("");
        let alloc = rt.alloc();
        let answer = match task {
            "speed" => scripts::measured(&rt, alloc, script, turns, before)?,
            _ => scripts::answer(alloc, task, script)?,
        };
        println!(rt; "{answer}")?;
    }
    Ok(())
}
