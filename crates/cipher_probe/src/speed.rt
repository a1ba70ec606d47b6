//! How much time of the processor the ciphers take.

ghost use Rattle.std.specs.Prelude.{◌≡◌, ◌%◌, ◌<◌, length};

use aes_modes::{cbc_encrypt, cmac};
use anyhow::{Result, bail, ensure};
use gf_aes::KeySchedule;
use std::alloc::Global;
use std::time::CpuClock;

fn encrypt_in_turn(key: &KeySchedule, octets: &mut [u8], turns: u32)
    requires { length octets.old % 16 ≡ 0 }
{
    for _ in 0..turns {
        cbc_encrypt(key, octets);
    }
}

// Each code goes into the next turn's text, so that no turn can be left out.
fn authenticate_in_turn(key: &KeySchedule, octets: &mut [u8], turns: u32)
    requires { 0 < length octets.old }
{
    for _ in 0..turns {
        let code = cmac(key, octets);
        octets[0] ^= code[0];
    }
}

/// The processor's nanoseconds that a task takes over as many blocks, as often as `turns` says.
pub fn measured(
    rt: &impl CpuClock,
    alloc: Global,
    task: &str,
    blocks: &str,
    turns: &str,
) -> Result<u128> {
    let blocks = blocks.parse::<u32>()?;
    let turns = turns.parse::<u32>()?;
    ensure!(blocks > 0, "no blocks");
    let key = KeySchedule::new(&[0x2b; 16])?;
    let mut octets = vec![in alloc; 0u8; blocks as usize * 16]?;
    let text = octets.as_mut_slice();
    let start = rt.thread_cpu_time()?;
    match task {
        "speed-cbc" => encrypt_in_turn(&key, text, turns),
        "speed-cmac" => authenticate_in_turn(&key, text, turns),
        _ => bail!("no such task: {task:?}"),
    }
    Ok(rt.thread_cpu_time()?.saturating_sub(start).as_nanos())
}
