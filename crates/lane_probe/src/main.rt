//! Does lines of work on a lane, and prints what each gives.
//!
//! `disk` with octets is what the next lane is opened on, `give` with a card and octets a message that its port gives,
//! `fail` with `look`, `change` or `port` and a number a call of its site that fails. `open` opens lane 0 of 1 and gives the
//! number of its entries. `at` with a moment and `name` with octets are for the entries to come. `keyset` with a card, a key
//! version number, a base, `higher` or `next`, KIc and KID, `reserve` and `send` with a number of jobs and for each its
//! number, card, key version number, TAR and script, `resend` with a card, a key version number and a counter, `poll`, and
//! `close` with a card and a key version number give what the lane answers. `entries` gives the number of its entries. `stop`
//! with `old`, `new` or `torn` ends the lane, and gives what a stop leaves of its disk, which the next lane is opened on, and
//! each piece that left: card, reference, place and packet.
//!
//! `speed` with a task, a number of jobs and a number for a batch gives the processor's nanoseconds.
#![tactic(auto)]

mod bench;
mod listed_site;
mod one_lane;
mod speed;
mod words;

use crate::bench::Bench;
use anyhow::Result;

/// What a line of work gives.
fn answer(rt: &HostRuntime, bench: &mut Bench, line: &str) -> Result<String> {
    let mut words = line.split_whitespace();
    let task = words.next().unwrap_or("");
    if task == "speed" {
        let nanoseconds = speed::measured(rt, rt.alloc(), &mut words)?;
        return Ok(format!(in rt.alloc(); "{nanoseconds}")?);
    }
    bench.answer(task, &mut words)
}

fn do_lines(rt: &HostRuntime, bench: &mut Bench) -> Result<()> {
    for line in rt.lines(rt.alloc()) {
        let line = line?;
        let answer = answer(rt, bench, line.as_str())?;
        println!(rt; "{answer}")?;
    }
    Ok(())
}

fn main(rt: HostRuntime) -> Result<()> {
    let mut bench = Bench::new(rt.alloc());
    do_lines(&rt, &mut bench)
}
