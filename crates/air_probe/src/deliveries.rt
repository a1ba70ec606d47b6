//! Packets that are sent to a site and come to its cards.

use crate::packets::{cards, packets};
use air_sim::{Schedule, SimSite};
use anyhow::{Result, bail, ensure};
use disk_model::MemDisk;
use ota_core::{CardId, Reference};
use site_model::SiteCalls;
use std::alloc::Global;
use std::time::CpuClock;

/// A site that polls in order, and packets of which each is for all its cards.
#[derive(Drop)]
pub struct Deliveries {
    site: SimSite<MemDisk>,
    cards: u32,
    packets: Vec<Vec<u8>>,
}

impl Deliveries {
    /// So many new cards, and so many packets for each.
    pub fn new(alloc: Global, count: u32, packet_count: u32) -> Result<Deliveries> {
        let packets = packets(alloc, packet_count)?;
        let cards = cards(alloc, count)?;
        let journal = MemDisk::new(alloc);
        Ok(Deliveries {
            site: SimSite::new(alloc, journal, cards, Schedule::Orderly),
            cards: count,
            packets,
        })
    }

    /// Sends the packets, and polls until there is no message. How many messages came.
    pub fn deliver(&mut self) -> Result<u32> {
        send_all(&mut self.site, self.cards, &self.packets)?;
        poll_all(&mut self.site, u32::MAX)
    }

    /// The processor's nanoseconds of that, where so many messages come.
    pub fn measure(&mut self, rt: &impl CpuClock, count: u32) -> Result<u128> {
        let start = rt.thread_cpu_time()?;
        let given = self.deliver()?;
        let end = rt.thread_cpu_time()?;
        ensure!(given == count, "each packet is answered");
        Ok(end.saturating_sub(start).as_nanos())
    }

    /// How many lines the cards' logs have.
    pub fn count_lines(&self) -> usize {
        let mut lines: usize = 0;
        for card in self.site.cards() {
            lines = lines.saturating_add(card.log().len());
        }
        lines
    }

    /// How often the port was asked for a message.
    pub fn polls(&self) -> u64 {
        self.site.polls()
    }
}

fn send_all<S: SiteCalls>(site: &mut S, cards: u32, packets: &[Vec<u8>]) -> Result<()> {
    for packet in packets {
        send_to_all(site, cards, packet.as_slice())?;
    }
    Ok(())
}

/// Sends a packet to cards 1 to that number.
fn send_to_all<S: SiteCalls>(site: &mut S, cards: u32, packet: &[u8]) -> Result<()> {
    for before in 0..cards {
        let card = CardId(u64::from(before) + 1);
        let sent = site.send(card, packet, Reference::Short(1), 1);
        ensure!(sent.is_ok(), "a packet isn't sent");
    }
    Ok(())
}

/// How many messages come, up to so many.
fn poll_all<S: SiteCalls>(site: &mut S, most: u32) -> Result<u32> {
    for given in 0..most {
        match site.poll() {
            Ok(Some(_)) => {}
            Ok(None) => return Ok(given),
            Err(_) => bail!("a poll fails"),
        }
    }
    Ok(most)
}
