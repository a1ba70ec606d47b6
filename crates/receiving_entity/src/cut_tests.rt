// Cards whose power is cut.
use crate::Card;
use crate::test_cards::{
    calls_of, expect, expect_answer, low, restarts, updates, updates_answer, usual_card,
};
use card_store::CardLine;
use disk_model::{DiskCalls, Image, MemDisk};
use std::alloc::Global;
use std::test::Fail;

/// The device calls of a counter and three commands.
const CALLS: u32 = 16;

/// The first two octets of the transparent file.
fn first_octets(card: &Card<MemDisk>) -> Option<(u8, u8)> {
    match card.store().state().files().octets_of(&[0x6FA1]) {
        Some([first, second, ..]) => Some((*first, *second)),
        _ => None,
    }
}

/// Whether a log is that behind so many steps of the script: its counter, and then its commands.
fn is_behind(lines: &[CardLine], steps: u32) -> bool {
    match lines {
        [] => steps == 0,
        [line] => line.executed.wrapping_add(1) == steps && line.finished == (steps == 4),
        _ => false,
    }
}

/// Whether a card stands behind so many steps of the script.
fn has_steps(card: &Card<MemDisk>, steps: u32) -> bool {
    let octets = match steps {
        0 | 1 | 2 => (0xFF, 0xFF),
        3 => (0x11, 0xFF),
        _ => (0x11, 0x22),
    };
    first_octets(card) == Some(octets) && is_behind(card.log(), steps)
}

/// The steps that stand where the power is cut at this device call.
fn steps_before(call: u32, image: Image) -> u32 {
    // Four device calls a step. The last of them is a sync, before which the step stands under New alone.
    let whole = call % 4 == 0 && image == Image::New;
    (call.saturating_sub(1) / 4).wrapping_add(u32::from(whole))
}

/// Cuts the power of a card at this device call of a receive, with this image, and restarts it.
fn restart_behind_cut(
    alloc: Global,
    card: &mut Card<MemDisk>,
    call: u32,
    image: Image,
) -> Result<(), Fail> {
    card.arm(call, image);
    expect_answer(alloc, card, updates(), "PowerCut")?;
    expect_answer(alloc, card, updates(), "Off")?;
    expect(restarts(card), "the card doesn't restart")
}

/// Sends the packet again to a card behind so many steps of it. A counter that is stored isn't taken again, and its script
/// not run on.
fn repeat(alloc: Global, card: &mut Card<MemDisk>, steps: u32) -> Result<(), Fail> {
    expect(has_steps(card, steps), "other steps stand")?;
    if steps == 0 {
        expect_answer(alloc, card, updates(), updates_answer())?;
        expect(has_steps(card, 4), "the repeat has other steps")
    } else {
        expect_answer(alloc, card, updates(), low())?;
        expect(has_steps(card, steps), "the repeat runs on")
    }
}

/// A new card whose power is cut at this device call of a receive.
fn cut(alloc: Global, call: u32, image: Image) -> Result<(), Fail> {
    let mut card = usual_card(alloc, 0, 1024, false)?;
    restart_behind_cut(alloc, &mut card, call, image)?;
    repeat(alloc, &mut card, steps_before(call, image))
}

#[test]
fn each_device_call_cut(rt: HostRuntime) -> Result<(), Fail> {
    for call in 1..=CALLS {
        cut(rt.alloc(), call, Image::Old)?;
        cut(rt.alloc(), call, Image::New)?;
        cut(rt.alloc(), call, Image::Torn)?;
    }
    Ok(())
}

fn makes_calls(alloc: Global, card: &mut Card<MemDisk>) -> Result<(), Fail> {
    let end = calls_of(card).wrapping_add(16);
    expect_answer(alloc, card, updates(), updates_answer())?;
    expect(calls_of(card) == end, "other calls")?;
    // None behind it.
    expect_answer(alloc, card, updates(), low())?;
    expect(calls_of(card) == end, "calls behind it")
}

/// The device calls of a card's disk.
fn calls_at_the_end(card: Card<MemDisk>) -> usize {
    card.into_disk().calls().len()
}

#[test]
fn receive_makes_four_device_calls_a_step(rt: HostRuntime) -> Result<(), Fail> {
    let mut card = usual_card(rt.alloc(), 0, 1024, false)?;
    makes_calls(rt.alloc(), &mut card)?;
    let calls = calls_of(&card);
    expect(calls_at_the_end(card) == calls, "another disk")
}

fn stays_off(alloc: Global, card: &mut Card<MemDisk>) -> Result<(), Fail> {
    card.arm(1, Image::Old);
    expect(!restarts(card), "it restarts")?;
    expect(card.is_off(), "it isn't off")?;
    expect_answer(alloc, card, updates(), "Off")
}

fn comes_back(alloc: Global, card: &mut Card<MemDisk>) -> Result<(), Fail> {
    expect(restarts(card), "it doesn't restart")?;
    expect(!card.is_off(), "it is off")?;
    expect_answer(alloc, card, updates(), updates_answer())
}

#[test]
fn refused_restart_leaves_it_off(rt: HostRuntime) -> Result<(), Fail> {
    let mut card = usual_card(rt.alloc(), 0, 1024, false)?;
    stays_off(rt.alloc(), &mut card)?;
    comes_back(rt.alloc(), &mut card)
}
