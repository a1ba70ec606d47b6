// Several packets to a card, one after the other. The octets are those that `scripts/card-vectors` makes with openssl.
use crate::Card;
use crate::test_cards::{
    card_on, expect, expect_answer, keyset, lines_of, low, restarts, second, second_answer,
    updates, updates_answer, usual_card,
};
use disk_model::MemDisk;
use ota_core::Mode;
use std::alloc::Global;
use std::test::Fail;

/// A record is updated, with counter 1.
fn first() -> &'static str {
    "02700000481516391212b000101bd899e12de26c03ba28c4abb4e151765b69ba2871012141be68ee4cff7d3f17f6b357dd2af3280e9e2f5d776b9b0b988577e776b20269fa9fc85bb6992c046d"
}

/// Counter 2, where it is stored.
fn second_low() -> &'static str {
    "027100001412b00010a24f66fa624649e5047085fa2f0cfb2d"
}

/// The same with counters 1 and 2 in packets that are to be one higher.
fn next_first() -> &'static str {
    "0270000048151e391212b000100067de8c5c01b4f0d5103fc510102700b494ccfbace3df8d05dd9c28350179c24706ad3a8a33f9ffb08f976685772dc111201ccb754670ab336261102398d503"
}

fn next_second() -> &'static str {
    "0270000048151e391212b00010e03796eb6dec5fc09e38850fab187df5b6663d7a5d0ce72fbe07a71fe60a38500fe8654f51cefa7da3d3eb2cd874619e6b9a729c114698d76e9cb9977f10b29f"
}

/// Counter 2, where none is stored.
fn next_high() -> &'static str {
    "027100001412b000102de314cd1457cb19bb8fcfb77163ff7f"
}

/// No application has the TAR: counter 1, and with the TAR of the files counter 2.
fn other_tar() -> &'static str {
    "02700000381516391212b00011ae209648e9ec3cec4b6b47b84355bd119c007c9479b0a424cc5080e0b57a3784b2902fb85a01b8c507aad09d5e0c0f3b"
}

fn other_tar_answer() -> &'static str {
    "027100001412b00011d0aa3363c43262df8f7d9c2b667731c8"
}

fn mended() -> &'static str {
    "02700000381516391212b00010ee8675720a90a21ca9d3f5784f8fd0140c54571c6eb7cb6bd9c4f5109bdf95760b749bdf14a3af7b6ad1ec280a91cd57"
}

fn mended_answer() -> &'static str {
    "027100002412b00010efcaf6904157132ecba5597175b018dc6902045ca9d76cac09e05ca96ba6deac"
}

/// Puts keyset 2.
fn put_key() -> &'static str {
    "0270000048151639121200000020c96b97124cbe3ed6551f284f43ed740ebefeb7d3f90be48572e26f1590ff942165729a273335482246b2f94cecb55d23ff4802c623ee15486905490b805795"
}

fn put_key_answer() -> &'static str {
    "027100002412000000adcb3770050208853565f61a09238110928f1736fd9546434b477a6f877c4a80"
}

/// A record is updated under keyset 2, with counter 1.
fn under_put() -> &'static str {
    "02700000481516392222b0001045122715dc4e64e1886c564ec8e11dd5f4fcfc0d251d08256537b2c2b2582865d58f6f3a1d8236c6695585769e584d1fe3e94cc22f5e9c722eaae14f6d7f6314"
}

fn under_put_answer() -> &'static str {
    "027100002412b00010320a2df7c9fc3b182709a5354e15672ed8021e1cb486f435dd09738dbc0e12f3"
}

fn under_put_low() -> &'static str {
    "027100001412b0001078af3f08f0572f7212b43150e6937591"
}

/// No such keyset.
fn not_put() -> &'static str {
    "027100000b0ab0001000000000000006"
}

fn takes_any_higher(alloc: Global, card: &mut Card<MemDisk>) -> Result<(), Fail> {
    expect_answer(alloc, card, second(), second_answer())?;
    expect_answer(alloc, card, first(), low())?;
    expect_answer(alloc, card, updates(), low())?;
    expect_answer(alloc, card, second(), second_low())?;
    expect(lines_of(card) == 1, "another log")
}

#[test]
fn any_higher_counter_is_taken_once(rt: HostRuntime) -> Result<(), Fail> {
    let mut card = usual_card(rt.alloc(), 0, 1024, false)?;
    takes_any_higher(rt.alloc(), &mut card)
}

fn takes_the_next(alloc: Global, card: &mut Card<MemDisk>) -> Result<(), Fail> {
    expect_answer(alloc, card, next_second(), next_high())?;
    expect_answer(alloc, card, next_first(), updates_answer())?;
    expect_answer(alloc, card, next_second(), second_answer())?;
    expect_answer(alloc, card, next_second(), second_low())?;
    expect_answer(alloc, card, next_first(), low())?;
    expect(lines_of(card) == 2, "another log")
}

#[test]
fn next_counter_is_taken_once(rt: HostRuntime) -> Result<(), Fail> {
    let facts = keyset(0, Mode::Next, true)?;
    let mut card = card_on(rt.alloc(), MemDisk::new(rt.alloc()), 1, facts, 1024, false)?;
    takes_the_next(rt.alloc(), &mut card)
}

fn uses_the_counter(alloc: Global, card: &mut Card<MemDisk>) -> Result<(), Fail> {
    expect_answer(alloc, card, other_tar(), other_tar_answer())?;
    expect_answer(alloc, card, mended(), mended_answer())?;
    expect(lines_of(card) == 2, "another log")
}

#[test]
fn other_tar_uses_its_counter(rt: HostRuntime) -> Result<(), Fail> {
    let mut card = usual_card(rt.alloc(), 0, 1024, false)?;
    uses_the_counter(rt.alloc(), &mut card)
}

fn puts_a_keyset(alloc: Global, card: &mut Card<MemDisk>) -> Result<(), Fail> {
    expect_answer(alloc, card, under_put(), not_put())?;
    expect_answer(alloc, card, put_key(), put_key_answer())?;
    expect_answer(alloc, card, under_put(), under_put_answer())?;
    expect_answer(alloc, card, under_put(), under_put_low())?;
    // Its counters are its own, and it stays.
    expect(restarts(card), "the card restarts")?;
    expect_answer(alloc, card, under_put(), under_put_low())?;
    expect_answer(alloc, card, second(), second_answer())?;
    expect(lines_of(card) == 3, "another log")
}

#[test]
fn keyset_that_was_put_is_the_cards(rt: HostRuntime) -> Result<(), Fail> {
    let mut card = usual_card(rt.alloc(), 0, 1024, false)?;
    puts_a_keyset(rt.alloc(), &mut card)
}
