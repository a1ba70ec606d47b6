// Cards whose store is almost full. The octets are those that `scripts/card-vectors` makes with openssl.
use crate::Card;
use crate::test_cards::{
    calls_of, card_on, expect, expect_answer, keyset, lines_of, second, second_answer,
};
use disk_model::MemDisk;
use ota_core::Mode;
use std::alloc::Global;
use std::test::Fail;

/// Counter 2 and a TAR that no application has, with the script of second().
fn elsewhere() -> &'static str {
    "02700000481516391212b0001199beb59d430b0b9c61fa90cf4043bae9b6f1163324052a5b16e55ff4beca0be985696b424b44a0249b50a607196c8f82483b53f09238fe13fffd4e3ce414d9ab"
}

/// The greatest length of a store.
const LIMIT: usize = 16_777_216;

/// The octets of a store that has so many fewer than the greatest length: its head, and a batch with one part, counter 1 of
/// keyset 1 with the TAR of the files and a script of FF.
fn long_store(alloc: Global, short: usize) -> Result<Vec<u8>, Fail> {
    let script = vec![in alloc; 0xFF; LIMIT.saturating_sub(30).saturating_sub(short)]?;
    let len = script.len() as u32;
    let mut octets = Vec::from_slice(alloc, b"\xA5OTAC\x01\x00\x00\x00\x00\xA5")?;
    octets.extend_from_slice(&len.wrapping_add(14).to_be_bytes())?;
    octets.extend_from_slice(&len.wrapping_add(10).to_be_bytes())?;
    octets.extend_from_slice(b"\x01\x01\x00\x00\x00\x00\x01\xB0\x00\x10")?;
    octets.extend_from_slice(&script)?;
    octets.push(0x00)?;
    Ok(octets)
}

/// A card whose store is so many octets short of its greatest length.
fn card_with_room(alloc: Global, room: usize) -> Result<Card<MemDisk>, Fail> {
    let octets = long_store(alloc, room)?;
    match MemDisk::of(alloc, &octets) {
        Ok(disk) => card_on(alloc, disk, 1, keyset(0, Mode::Higher, true)?, 1024, false),
        Err(_) => Err("memory is wanting")?,
    }
}

// The script needs 96 octets with its counter: 19 octets, its own 47, and 10 for each of its three commands.

fn drops_packets(alloc: Global, card: &mut Card<MemDisk>) -> Result<(), Fail> {
    let calls = calls_of(card);
    expect_answer(alloc, card, second(), "Full { length: 16777121, need: 96 }")?;
    expect_answer(
        alloc,
        card,
        elsewhere(),
        "Full { length: 16777121, need: 96 }",
    )?;
    expect(calls_of(card) == calls, "device calls were made")?;
    expect(card.store().length() == 16_777_121, "another length")?;
    expect(lines_of(card) == 1, "another log")
}

#[test]
fn packet_without_room_is_dropped(rt: HostRuntime) -> Result<(), Fail> {
    let mut card = card_with_room(rt.alloc(), 95)?;
    drops_packets(rt.alloc(), &mut card)
}

fn fills_the_store(alloc: Global, card: &mut Card<MemDisk>) -> Result<(), Fail> {
    expect_answer(alloc, card, second(), second_answer())?;
    expect(card.store().length() == 16_777_216, "another length")
}

#[test]
fn packet_that_just_fits_is_taken(rt: HostRuntime) -> Result<(), Fail> {
    let mut card = card_with_room(rt.alloc(), 96)?;
    fills_the_store(rt.alloc(), &mut card)
}
