//! How much time of the processor a card takes for packets, and the ciphers in them.

use crate::cards::{KIC, KID, card_on};
use crate::ciphers;
use aes_modes::Keys;
use anyhow::{Result, bail, ensure};
use card_store::CardLine;
use command_packet::{PacketBuf, build_in};
use disk_model::MemDisk;
use ota_core::{Counter, Mode, Spi, Tar};
use receiving_entity::Card;
use std::alloc::Global;
use std::time::{CpuClock, Duration};

const TAR: Tar = Tar([0xB0, 0x00, 0x10]);

const SPI: Spi = Spi {
    ciphered: true,
    mode: Mode::Higher,
    answer_ciphered: true,
};

/// Selects a file of records and updates the first: three commands. The packet has 74 octets.
const SCRIPT: &[u8] =
    b"\x00\xA4\x00\x00\x02\x7F\x10\x00\xA4\x00\x00\x02\x6F\x3A\x00\xDC\x01\x04\x1COta\xFF\xFF\xFF\xFF\xFF\xFF\xFF\xFF\xFF\xFF\xFF\xFF\xFF\xFF\xFF\xFF\xFF\xFF\xFF\xFF\xFF\xFF\xFF\xFF\xFF";

/// The messages of packets with counters from 1 up, each with the script.
fn messages(alloc: Global, count: u32) -> Result<Vec<Vec<u8>>> {
    let keys = Keys::new(&KIC, &KID)?;
    let mut packet = PacketBuf::new();
    let mut messages = Vec::new(alloc);
    for before in 0..count {
        let counter = Counter(u64::from(before) + 1);
        build_in(&keys, 1, SPI, TAR, counter, SCRIPT, &mut packet);
        let mut message = Vec::from_slice(alloc, b"\x02\x70\x00")?;
        message.extend_from_slice(packet.as_slice())?;
        messages.push(message)?;
    }
    Ok(messages)
}

fn receive_one(card: &mut Card<MemDisk>, message: &[u8]) -> Result<()> {
    let answer = card.receive(message)?;
    ensure!(!answer.is_empty(), "a packet isn't answered");
    Ok(())
}

fn receive_all(card: &mut Card<MemDisk>, messages: &[Vec<u8>]) -> Result<()> {
    for message in messages {
        receive_one(card, message)?;
    }
    Ok(())
}

/// Whether these are the lines of a card that has run so many scripts.
fn are_of(lines: &[CardLine], count: u32) -> bool {
    match lines.last() {
        Some(line) => {
            lines.len() == count as usize
                && line.executed == 3
                && line.finished
                && line.status == 0x00
        }
        None => count == 0,
    }
}

/// Whether a card has run so many scripts.
fn has_run(card: &Card<MemDisk>, count: u32) -> bool {
    are_of(card.log(), count)
}

/// A disk with the octets of a card's store.
fn disk_like(alloc: Global, card: &Card<MemDisk>) -> Result<MemDisk> {
    match MemDisk::of(alloc, card.store().disk().content()) {
        Ok(disk) => Ok(disk),
        Err(_) => bail!("memory is wanting"),
    }
}

fn nanoseconds_between(start: Duration, end: Duration) -> u128 {
    end.saturating_sub(start).as_nanos()
}

fn time_of_receiving(
    rt: &impl CpuClock,
    card: &mut Card<MemDisk>,
    messages: &[Vec<u8>],
) -> Result<u128> {
    let start = rt.thread_cpu_time()?;
    receive_all(card, messages)?;
    let end = rt.thread_cpu_time()?;
    Ok(nanoseconds_between(start, end))
}

/// A new card to which these messages were sent, and the time that it took.
fn received(
    rt: &impl CpuClock,
    alloc: Global,
    messages: &[Vec<u8>],
) -> Result<(Card<MemDisk>, u128)> {
    let mut card = card_on(alloc, MemDisk::new(alloc))?;
    let nanoseconds = time_of_receiving(rt, &mut card, messages)?;
    Ok((card, nanoseconds))
}

/// The time that a new card took for the messages, which are so many scripts.
fn time_checked(received: (Card<MemDisk>, u128), count: u32) -> Result<u128> {
    ensure!(has_run(&received.0, count), "the scripts were run");
    Ok(received.1)
}

fn receive_time(rt: &impl CpuClock, alloc: Global, turns: u32) -> Result<u128> {
    let messages = messages(alloc, turns)?;
    let received = received(rt, alloc, &messages)?;
    time_checked(received, turns)
}

/// A card on a disk that holds a store, and the time that its opening took.
fn opened(rt: &impl CpuClock, alloc: Global, disk: MemDisk) -> Result<(Card<MemDisk>, u128)> {
    let start = rt.thread_cpu_time()?;
    let card = card_on(alloc, disk)?;
    let end = rt.thread_cpu_time()?;
    Ok((card, nanoseconds_between(start, end)))
}

fn open_time(rt: &impl CpuClock, alloc: Global, turns: u32) -> Result<u128> {
    let messages = messages(alloc, turns)?;
    let received = received(rt, alloc, &messages)?;
    let disk = disk_like(alloc, &received.0)?;
    let opened = opened(rt, alloc, disk)?;
    time_checked(opened, turns)
}

/// The time of what only computes an octet.
fn cipher_time(rt: &impl CpuClock, with_keys: bool, turns: u32) -> Result<u128> {
    let keys = Keys::new(&KIC, &KID)?;
    let start = rt.thread_cpu_time()?;
    let mixed = if with_keys {
        ciphers::with_keys(&KIC, &KID, turns)
    } else {
        ciphers::in_turn(&keys, turns)
    };
    let end = rt.thread_cpu_time()?;
    ensure!(turns > 0 || mixed == 0x5A, "no packet, no work");
    Ok(nanoseconds_between(start, end))
}

/// The processor's nanoseconds that a task takes for so many packets.
pub fn measured(rt: &impl CpuClock, alloc: Global, task: &str, turns: u32) -> Result<u128> {
    match task {
        "speed-receive" => receive_time(rt, alloc, turns),
        "speed-open" => open_time(rt, alloc, turns),
        "speed-cipher" => cipher_time(rt, false, turns),
        "speed-keys" => cipher_time(rt, true, turns),
        _ => bail!("no such task: {task:?}"),
    }
}
