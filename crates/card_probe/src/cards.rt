//! New cards, and what they answer.

use anyhow::{Result, bail};
use arrayvec::ArrayVec;
use disk_model::MemDisk;
use ota_core::{CardFacts, CardId, Counter, KeyBytes, KeysetFacts, KeysetList, Mode, Tar};
use receiving_entity::Card;
use std::alloc::Global;
use std::str::SplitWhitespace;

pub const KIC: [u8; 16] = [
    0x00, 0x01, 0x02, 0x03, 0x04, 0x05, 0x06, 0x07, 0x08, 0x09, 0x0A, 0x0B, 0x0C, 0x0D, 0x0E, 0x0F,
];

pub const KID: [u8; 16] = [
    0x2B, 0x7E, 0x15, 0x16, 0x28, 0xAE, 0xD2, 0xA6, 0xAB, 0xF7, 0x15, 0x88, 0x09, 0xCF, 0x4F, 0x3C,
];

/// Card 8901 on this disk. Its keyset 1 is ciphered and takes any counter above 0 that is higher.
pub fn card_on(alloc: Global, disk: MemDisk) -> Result<Card<MemDisk>> {
    let mut keysets = KeysetList::new(alloc);
    keysets.push(1, keyset()?)?;
    let facts = CardFacts {
        card: CardId(8901),
        buffer: 1024,
        rfm: Tar([0xB0, 0x00, 0x10]),
        ram: Tar([0x00, 0x00, 0x00]),
        keysets,
        wide: false,
    };
    match Card::issue(alloc, disk, facts) {
        Ok(card) => Ok(card),
        Err(_) => bail!("the card isn't issued"),
    }
}

fn keyset() -> Result<KeysetFacts> {
    match (KeyBytes::new(&KIC), KeyBytes::new(&KID)) {
        (Ok(kic), Ok(kid)) => Ok(KeysetFacts {
            base: Counter(0),
            mode: Mode::Higher,
            ciphered: true,
            kic,
            kid,
        }),
        _ => bail!("a key has 16 octets"),
    }
}

/// The octets of messages in hexadecimal digits, without anything between them: `-` for no message.
fn text_of(alloc: Global, messages: &[ArrayVec<u8, 140>]) -> Result<String> {
    let mut text = String::new(alloc);
    if messages.is_empty() {
        text.push_str("-")?;
    }
    for message in messages {
        text.push_str(&hex::encode(alloc, message.as_slice())?)?;
    }
    Ok(text)
}

/// What a card answers to a message in hexadecimal digits.
fn answer_to(alloc: Global, card: &mut Card<MemDisk>, message: &str) -> Result<String> {
    let octets = hex::decode(alloc, message)?;
    let answer = card.receive(&octets)?;
    text_of(alloc, &answer)
}

/// What a new card answers to messages in hexadecimal digits, one after the other: messages, or `-` for none.
pub fn answers(alloc: Global, words: SplitWhitespace<'_>) -> Result<String> {
    let mut card = card_on(alloc, MemDisk::new(alloc))?;
    let mut text = String::new(alloc);
    for word in words {
        if !text.is_empty() {
            text.push_str(" ")?;
        }
        let answer = answer_to(alloc, &mut card, word)?;
        text.push_str(&answer)?;
    }
    Ok(text)
}
