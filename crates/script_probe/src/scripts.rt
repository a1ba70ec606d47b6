//! What a script is answered, and how much time of the processor it takes.

ghost use Rattle.std.specs.Prelude.{◌^◌, ◌<◌, IfOk, length, vec_len};

use anyhow::{Result, bail, ensure};
use apdu_codec::{Reply, compact_response};
use arrayvec::ArrayVec;
use ota_core::Memory;
use script_engine::{CardState, Part, Ran};
use std::alloc::Global;
use std::time::CpuClock;

/// Runs a script on the files of a card, as often as `turns` says; what the last turn was answered.
fn run_in_turn(card: &mut CardState, script: &[u8], turns: u32) -> Result<Ran, Memory>
    requires { length script.now < 2 ^ 32 }
{
    let mut last = Ran {
        count: 0,
        reply: Reply::done(ArrayVec::new()),
    };
    for _ in 0..turns {
        last = card.run_script(Part::Files, script)?;
    }
    Ok(last)
}

/// The compact response in hexadecimal digits.
fn response(alloc: Global, ran: &Ran) -> Result<String> {
    let octets = compact_response(ran.count, ran.reply.sw, ran.reply.out.as_slice());
    Ok(hex::encode(alloc, octets.as_slice())?)
}

/// The octets of a script in hexadecimal digits.
fn octets(alloc: Global, script: &str) -> Result<Vec<u8>>
    ensures { IfOk result (λ script. vec_len script < 2 ^ 32) }
{
    let script = hex::decode(alloc, script)?;
    ensure!(script.len() < 65_536, "the script is too long");
    Ok(script)
}

/// The compact response to a script on a new card.
pub fn answer(alloc: Global, part: &str, script: &str) -> Result<String> {
    let part = match part {
        "files" => Part::Files,
        "applets" => Part::Applets,
        _ => bail!("no such part: {part:?}"),
    };
    let script = octets(alloc, script)?;
    let mut card = CardState::fresh(alloc)?;
    let ran = card.run_script(part, &script)?;
    response(alloc, &ran)
}

/// The processor's nanoseconds that a script takes on a card, as often as `turns` says, and its last
/// response. Another script runs once before.
pub fn measured(
    rt: &impl CpuClock,
    alloc: Global,
    script: &str,
    turns: &str,
    before: &str,
) -> Result<String> {
    let script = octets(alloc, script)?;
    let before = octets(alloc, before)?;
    let turns = turns.parse::<u32>()?;
    let mut card = CardState::fresh(alloc)?;
    let _ = card.run_script(Part::Files, &before)?;
    let start = rt.thread_cpu_time()?;
    let ran = run_in_turn(&mut card, &script, turns)?;
    let nanoseconds = rt.thread_cpu_time()?.saturating_sub(start).as_nanos();
    let response = response(alloc, &ran)?;
    Ok(format!(in alloc; "{nanoseconds} {response}")?)
}
