//! Reads lines of work for packets and prints what each gives, octets in hexadecimal digits, `-` for none:
//! `command` with KIc, KID, key version number, SPI, TAR, counter and body, and `response` with KIc, KID, `plain` or
//! `ciphered`, TAR, counter, status and data give the packet; `open-command` with KIc, KID, key version number and
//! packet, and `open-response` with KIc, KID, `plain` or `ciphered` and packet give its fields or the refusal.
//! `cut` with 70 or 71, a reference of one octet or two, and a packet gives its messages; `assemble` with 70 or 71 and
//! messages, each behind its card's number and a colon, gives `more`, `not-ours` or the whole packet for each.
//! `speed-build`, `speed-open`, `speed-cipher` or `speed-decipher` and a number of turns give the processor's
//! nanoseconds and an octet.
#![tactic(auto)]

mod pieces;
mod speed;
mod tasks;
mod words;

use anyhow::Result;

fn main(rt: HostRuntime) -> Result<()> {
    for line in rt.lines(rt.alloc()) {
        let line = line?;
        let mut words = line.as_str().split_whitespace();
        let task = words.next().unwrap_or("");
        if task.starts_with("speed-") {
            let (nanoseconds, mixed) = speed::measured(&rt, rt.alloc(), task, &mut words)?;
            println!(rt; "{task} {nanoseconds} {mixed}")?;
        } else {
            let answer = tasks::answer(rt.alloc(), task, &mut words)?;
            println!(rt; "{answer}")?;
        }
    }
    Ok(())
}
