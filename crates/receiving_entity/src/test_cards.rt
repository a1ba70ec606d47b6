// Cards for tests, and messages to them. The octets are those that `scripts/card-vectors` makes with openssl.
use crate::Card;
use arrayvec::ArrayVec;
use disk_model::MemDisk;
use ota_core::{CardFacts, CardId, Counter, KeyBytes, KeysetFacts, KeysetList, Mode, Tar};
use std::alloc::Global;
use std::test::Fail;

/// Octets 0 and 1 of a transparent file are updated, one after the other: three commands, counter 1.
pub fn updates() -> &'static str {
    "02700000381516391212b00010d090f55aa3fd61639721d6919565a84369e608fdb555cf9cdaf499f8eea3deced19d3335aef1f06558947bf5752630c9"
}

pub fn updates_answer() -> &'static str {
    "027100002412b0001046bb6a6288fd79e5625808d4f9250c1163a4d4077b1a8579b575ed2f722ba26d"
}

/// Counter 1, where it is stored.
pub fn low() -> &'static str {
    "027100001412b00010524522e28ebe6127fa698560872fbfee"
}

/// A record is updated: three commands, counter 2.
pub fn second() -> &'static str {
    "02700000481516391212b0001032653a661163ae214394b8631ffdd863e32ef06fab666f6302d15e7a54f7757677127371ef5308873517a546e0d81a351de394f06aa1796bef22e8f14dfae3f2"
}

pub fn second_answer() -> &'static str {
    "027100002412b0001016ce425f6839429f6a47a13227f8968dea80cbf5c861bb7b832228c5cfe8acc0"
}

const KIC: [u8; 16] = [
    0x00, 0x01, 0x02, 0x03, 0x04, 0x05, 0x06, 0x07, 0x08, 0x09, 0x0A, 0x0B, 0x0C, 0x0D, 0x0E, 0x0F,
];

const KID: [u8; 16] = [
    0x2B, 0x7E, 0x15, 0x16, 0x28, 0xAE, 0xD2, 0xA6, 0xAB, 0xF7, 0x15, 0x88, 0x09, 0xCF, 0x4F, 0x3C,
];

/// A keyset with the keys of the messages.
pub fn keyset(base: u64, mode: Mode, ciphered: bool) -> Result<KeysetFacts, Fail> {
    if base > 0xFF_FFFF_FFFF {
        return Err("a counter has five octets")?;
    }
    let kic = KeyBytes::new(&KIC).ok().ok_or("a key has 16 octets")?;
    let kid = KeyBytes::new(&KID).ok().ok_or("a key has 16 octets")?;
    Ok(KeysetFacts {
        base: Counter(base),
        mode,
        ciphered,
        kic,
        kid,
    })
}

/// Card 8901 with one keyset, on a disk in memory.
pub fn card_on(
    alloc: Global,
    disk: MemDisk,
    kvn: u8,
    facts: KeysetFacts,
    buffer: u32,
    wide: bool,
) -> Result<Card<MemDisk>, Fail> {
    if kvn == 0 || kvn > 15 {
        return Err("a key version number is 1 to 15")?;
    }
    let mut keysets = KeysetList::new(alloc);
    keysets.push(kvn, facts)?;
    let facts = CardFacts {
        card: CardId(8901),
        buffer,
        rfm: Tar([0xB0, 0x00, 0x10]),
        ram: Tar([0x00, 0x00, 0x00]),
        keysets,
        wide,
    };
    match Card::issue(alloc, disk, facts) {
        Ok(card) => Ok(card),
        Err(_) => Err("the card is not issued")?,
    }
}

/// The card with the ciphered keyset 1 of mode Higher that begins behind this counter.
pub fn usual_card(
    alloc: Global,
    base: u64,
    buffer: u32,
    wide: bool,
) -> Result<Card<MemDisk>, Fail> {
    let facts = keyset(base, Mode::Higher, true)?;
    card_on(alloc, MemDisk::new(alloc), 1, facts, buffer, wide)
}

/// The octets of messages in hexadecimal, with a blank between two.
fn text_of(alloc: Global, messages: &[ArrayVec<u8, 140>]) -> Result<String, Fail> {
    let mut text = String::new(alloc);
    for message in messages {
        if !text.is_empty() {
            text.push_str(" ")?;
        }
        text.push_str(&hex::encode(alloc, message.as_slice())?)?;
    }
    Ok(text)
}

/// What a card answers to one message: messages, or the name of an error.
fn answer_to(alloc: Global, card: &mut Card<MemDisk>, message: &str) -> Result<String, Fail> {
    let octets = hex::decode(alloc, message)?;
    match card.receive(&octets) {
        Ok(made) => text_of(alloc, &made),
        Err(error) => Ok(format!(in alloc; "{error:?}")?),
    }
}

/// What a card answers to messages, each after the other.
fn answer_of(alloc: Global, card: &mut Card<MemDisk>, messages: &str) -> Result<String, Fail> {
    let mut answer = String::new(alloc);
    for message in messages.split(' ') {
        let made = answer_to(alloc, card, message)?;
        answer.push_str(&made)?;
    }
    Ok(answer)
}

/// Fails where a card answers otherwise to messages.
pub fn expect_answer(
    alloc: Global,
    card: &mut Card<MemDisk>,
    messages: &str,
    want: &str,
) -> Result<(), Fail> {
    let answer = answer_of(alloc, card, messages)?;
    if answer.as_str() == want {
        Ok(())
    } else {
        Err(Fail::new(answer))
    }
}

/// Fails where something isn't so.
pub fn expect(holds: bool, what: &'static str) -> Result<(), Fail> {
    if holds { Ok(()) } else { Err(Fail::new(what)) }
}

/// Whether a card restarts.
pub fn restarts(card: &mut Card<MemDisk>) -> bool {
    card.restart().is_ok()
}

/// The number of lines in a card's log.
pub fn lines_of(card: &Card<MemDisk>) -> usize {
    card.log().len()
}

/// The number of device calls that were made on a card's disk.
pub fn calls_of(card: &Card<MemDisk>) -> usize {
    card.store().disk().calls().len()
}

/// The status of a card's last line.
pub fn last_status(card: &Card<MemDisk>) -> Option<u8> {
    match card.log().last() {
        Some(line) => Some(line.status),
        None => None,
    }
}
