//! Reads lines of work for a card on a disk in memory. `answer` and messages in hexadecimal digits give what a new card
//! answers to them, one after the other: `-` for none. `speed-receive` and a number give the processor's nanoseconds
//! that a card takes for so many packets; `speed-cipher` those of the ciphers alone for as many, `speed-keys` the same
//! with the keys' schedules made anew for each, and `speed-open` those of opening a store that so many packets left.
#![tactic(auto)]

mod cards;
mod ciphers;
mod speed;

use anyhow::Result;

fn main(rt: HostRuntime) -> Result<()> {
    for line in rt.lines(rt.alloc()) {
        let line = line?;
        let mut words = line.as_str().split_whitespace();
        let task = words.next().unwrap_or("");
        if task == "answer" {
            let answers = cards::answers(rt.alloc(), words)?;
            println!(rt; "{answers}")?;
        } else {
            let turns = words.next().unwrap_or("").parse::<u32>()?;
            let nanoseconds = speed::measured(&rt, rt.alloc(), task, turns)?;
            println!(rt; "{task} {nanoseconds}")?;
        }
    }
    Ok(())
}
