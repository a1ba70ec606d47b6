//! Cards, and packets for them.

ghost use Rattle.std.specs.Prelude.{◌≡◌, true, map, IfOk};
ghost use Rattle.air_sim.specs.Cards.{are_distinct, facts_of};

use aes_modes::Keys;
use anyhow::{Result, bail};
use command_packet::{PacketBuf, build_in};
use disk_model::MemDisk;
use ota_core::{CardFacts, CardId, Counter, KeyBytes, KeysetFacts, KeysetList, Mode, Spi, Tar};
use receiving_entity::Card;
use std::alloc::Global;

const KIC: [u8; 16] = [
    0x00, 0x01, 0x02, 0x03, 0x04, 0x05, 0x06, 0x07, 0x08, 0x09, 0x0A, 0x0B, 0x0C, 0x0D, 0x0E, 0x0F,
];

const KID: [u8; 16] = [
    0x2B, 0x7E, 0x15, 0x16, 0x28, 0xAE, 0xD2, 0xA6, 0xAB, 0xF7, 0x15, 0x88, 0x09, 0xCF, 0x4F, 0x3C,
];

const TAR: Tar = Tar([0xB0, 0x00, 0x10]);

const SPI: Spi = Spi {
    ciphered: true,
    mode: Mode::Higher,
    answer_ciphered: true,
};

/// Selects a file of records and updates the first: three commands. The packet has 74 octets.
const SCRIPT: &[u8] =
    b"\x00\xA4\x00\x00\x02\x7F\x10\x00\xA4\x00\x00\x02\x6F\x3A\x00\xDC\x01\x04\x1COta\xFF\xFF\xFF\xFF\xFF\xFF\xFF\xFF\xFF\xFF\xFF\xFF\xFF\xFF\xFF\xFF\xFF\xFF\xFF\xFF\xFF\xFF\xFF\xFF\xFF";

/// The card with this number, as it was issued: its keyset 1 is ciphered and takes any counter above 0 that is higher.
fn card(alloc: Global, number: u64) -> Result<Card<MemDisk>>
    ensures { IfOk result (λ card. card.store.facts.card.0 ≡ number) }
{
    let mut keysets = KeysetList::new(alloc);
    keysets.push(1, keyset()?)?;
    let facts = CardFacts {
        card: CardId(number),
        buffer: 1024,
        rfm: TAR,
        ram: Tar([0x00, 0x00, 0x00]),
        keysets,
        wide: false,
    };
    match Card::issue(alloc, MemDisk::new(alloc), facts) {
        Ok(card) => Ok(card),
        Err(_) => bail!("the card isn't issued"),
    }
}

/// Cards with the numbers from 1 to this one.
pub fn cards(alloc: Global, count: u32) -> Result<Vec<Card<MemDisk>>>
    ensures { IfOk result (λ cards. are_distinct (map facts_of cards.items) ≡ true) }
{
    let mut cards = Vec::new(alloc);
    for before in 0..count {
        let card = card(alloc, u64::from(before) + 1)?;
        cards.push(card)?;
    }
    Ok(cards)
}

fn keyset() -> Result<KeysetFacts> {
    match (KeyBytes::new(&KIC), KeyBytes::new(&KID)) {
        (Ok(kic), Ok(kid)) => Ok(KeysetFacts {
            base: Counter(0),
            mode: Mode::Higher,
            ciphered: true,
            kic,
            kid,
        }),
        _ => bail!("a key has 16 octets"),
    }
}

/// The packets with counters from 1 up, each with the script.
pub fn packets(alloc: Global, count: u32) -> Result<Vec<Vec<u8>>> {
    let keys = Keys::new(&KIC, &KID)?;
    let mut packet = PacketBuf::new();
    let mut packets = Vec::new(alloc);
    for before in 0..count {
        let counter = Counter(u64::from(before) + 1);
        build_in(&keys, 1, SPI, TAR, counter, SCRIPT, &mut packet);
        packets.push(Vec::from_slice(alloc, packet.as_slice())?)?;
    }
    Ok(packets)
}
