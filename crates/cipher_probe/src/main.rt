//! Reads lines of work for the ciphers and prints what each gives, in hexadecimal digits:
//! `aes`, `unaes`, `cbc`, `uncbc`, `cmac` or `cmac8`, then a key, then octets, which may be missing.
//! `speed-cbc` or `speed-cmac`, a number of blocks and a number of turns give the processor's
//! nanoseconds.
#![tactic(auto)]

mod speed;
mod tasks;

use anyhow::Result;

fn main(rt: HostRuntime) -> Result<()> {
    for line in rt.lines(rt.alloc()) {
        let line = line?;
        let mut words = line.as_str().split_whitespace();
        let task = words.next().unwrap_or("");
        let first = words.next().unwrap_or("");
        let second = words.next().unwrap_or("");
        if task.starts_with("speed-") {
            let nanoseconds = speed::measured(&rt, rt.alloc(), task, first, second)?;
            println!(rt; "{task} {first} {second} {nanoseconds}")?;
        } else {
            let answer = tasks::answer(rt.alloc(), task, first, second)?;
            println!(rt; "{answer}")?;
        }
    }
    Ok(())
}
