//! Runs the events of many jobs on one card through a world: each line of input is a number of jobs. It prints how
//! many events were taken and how many of the card's lines are finished, or with `speed` before the number, the
//! processor's nanoseconds.
#![tactic(auto)]

mod campaign;

use anyhow::Result;

fn main(rt: HostRuntime) -> Result<()> {
    for line in rt.lines(rt.alloc()) {
        let line = line?;
        let mut words = line.as_str().split_whitespace();
        match (words.next(), words.next()) {
            (Some("speed"), Some(jobs)) => {
                let nanoseconds = campaign::measured(&rt, rt.alloc(), jobs.parse()?)?;
                println!(rt; "speed {jobs} {nanoseconds}")?;
            }
            (Some(jobs), None) => {
                let (events, finished) = campaign::outcome(rt.alloc(), jobs.parse()?)?;
                println!(rt; "{events} events, {finished} lines finished")?;
            }
            _ => println!(rt; "no such task")?,
        }
    }
    Ok(())
}
