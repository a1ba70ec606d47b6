//! How much time of the processor packets take, and the ciphers in them.

use aes_modes::{Keys, cbc_decrypt, cbc_encrypt, cmac8};
use anyhow::{Result, bail};
use command_packet::{PacketBuf, build_in, open};
use ota_core::{Counter, Mode, Spi, Tar};
use std::alloc::Global;
use std::str::SplitWhitespace;
use std::time::CpuClock;

const TAR: Tar = Tar([0xB0, 0x00, 0x10]);

const SPI: Spi = Spi {
    ciphered: true,
    mode: Mode::Higher,
    answer_ciphered: true,
};

/// A body that makes a packet of 138 octets, of which 128 are ciphered: the longest up to 140.
const BODY: [u8; 114] = [0x5A; 114];

// Each turn of a task goes into the octet that it gives, so that none can be left out.

fn build_in_turn(keys: &Keys, turns: u32) -> u8 {
    let mut out = PacketBuf::new();
    let mut mixed = 0;
    for turn in 0..turns {
        build_in(keys, 1, SPI, TAR, Counter(u64::from(turn)), &BODY, &mut out);
        mixed ^= out.as_slice().last().copied().unwrap_or(0);
    }
    mixed
}

fn open_in_turn(alloc: Global, keys: &Keys, turns: u32) -> Result<u8> {
    let mut packet = PacketBuf::new();
    build_in(keys, 1, SPI, TAR, Counter(1), &BODY, &mut packet);
    let mut mixed = 0;
    for _ in 0..turns {
        let command = open(alloc, keys, 1, packet.as_slice())?;
        mixed ^= command.body.as_slice().last().copied().unwrap_or(0);
    }
    Ok(mixed)
}

// What the ciphers do for a packet: CMAC of all octets but CC, and CBC of those behind TAR.
fn cipher_in_turn(keys: &Keys, turns: u32) -> u8 {
    let mut checked = [0x5A; 130];
    let mut sent = [0x5A; 128];
    for _ in 0..turns {
        let code = cmac8(keys.kid(), &checked);
        checked[0] ^= code[0];
        sent[0] ^= code[1];
        cbc_encrypt(keys.kic(), &mut sent);
    }
    sent[0]
}

fn decipher_in_turn(keys: &Keys, turns: u32) -> u8 {
    let mut checked = [0x5A; 130];
    let mut sent = [0x5A; 128];
    for _ in 0..turns {
        cbc_decrypt(keys.kic(), &mut sent);
        checked[0] ^= sent[0];
        let code = cmac8(keys.kid(), &checked);
        sent[0] ^= code[0];
    }
    sent[0]
}

/// The processor's nanoseconds that a task takes, as often as the next word says, and the octet that it gives.
pub fn measured(
    rt: &impl CpuClock,
    alloc: Global,
    task: &str,
    words: &mut SplitWhitespace<'_>,
) -> Result<(u128, u8)> {
    let turns = words.next().unwrap_or("").parse::<u32>()?;
    let keys = Keys::new(&[0x2B; 16], &[0x7E; 16])?;
    let start = rt.thread_cpu_time()?;
    let mixed = match task {
        "speed-build" => build_in_turn(&keys, turns),
        "speed-open" => open_in_turn(alloc, &keys, turns)?,
        "speed-cipher" => cipher_in_turn(&keys, turns),
        "speed-decipher" => decipher_in_turn(&keys, turns),
        _ => bail!("no such task: {task:?}"),
    };
    let nanoseconds = rt.thread_cpu_time()?.saturating_sub(start).as_nanos();
    Ok((nanoseconds, mixed))
}
