//! Threads that hold one lane in turn, each as often as the others: each line of input is `lane` (a `LaneLock`) or
//! `mutex` (`std`'s), a number of threads, from 1 to 64, and how often each holds. It prints how many entries the
//! lane has then, and the most and the least of one thread's, or with `speed` before the line, nanoseconds by the
//! clock and the entries.
#![tactic(auto)]

mod lanes;
mod mutexes;
mod rounds;
mod rows;

use anyhow::Result;

fn main(rt: HostRuntime) -> Result<()> {
    for line in rt.lines(rt.alloc()) {
        let line = line?;
        let mut words = line.as_str().split_whitespace();
        let first = words.next().unwrap_or("");
        let is_timed = first == "speed";
        let lock = if is_timed {
            words.next().unwrap_or("")
        } else {
            first
        };
        let threads = words.next().unwrap_or("");
        let holds = words.next().unwrap_or("");
        let answer = if is_timed {
            rounds::measured(&rt, rt.alloc(), lock, threads, holds)?
        } else {
            rounds::outcome(&rt, rt.alloc(), lock, threads, holds)?
        };
        println!(rt; "{answer}")?;
    }
    Ok(())
}
