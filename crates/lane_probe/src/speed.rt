//! How much time of the processor a lane takes, and the bare calls and ciphers below it.

use crate::listed_site::{ListedSite, disk_of};
use crate::one_lane::OneLane;
use crate::words::Words;
use aes_modes::{Keys, cbc_encrypt, cmac8};
use anyhow::{Result, bail, ensure};
use arrayvec::ArrayVec;
use disk_model::DiskCalls;
use lane_engine::Poll;
use ota_core::{
    CardId, Counter, Job, JobId, KeyBytes, KeysetFacts, KeysetId, Mode, Octets, Reference, Tar,
};
use site_model::{BareSite, SiteCalls};
use std::alloc::Global;
use std::time::CpuClock;

const KIC: [u8; 16] = [0x2B; 16];

const KID: [u8; 16] = [0x7E; 16];

const TAR: Tar = Tar([0xB0, 0x00, 0x10]);

/// A body that makes a packet of 74 octets, of which 64 are ciphered and 66 checked, and an entry of 86.
const BODY: [u8; 47] = [0x5A; 47];

/// The octets of a reservation in a batch, behind the 5 of the batch.
const PART: usize = 90;

/// The empty journal of lane 0 of 1.
const EMPTY: [u8; 11] = [
    0xA5, 0x4F, 0x54, 0x41, 0x4A, 0x01, 0x00, 0x00, 0x00, 0x01, 0x00,
];

/// Jobs with their numbers, and how many stand in a batch.
#[derive(Clone, Copy)]
struct Work {
    jobs: u32,
    batch: u32,
}

fn next_work(words: &mut Words<'_>) -> Result<Work> {
    let jobs = words.next().unwrap_or("").parse::<u32>()?;
    let batch = words.next().unwrap_or("").parse::<u32>()?;
    ensure!(1 <= batch && batch <= 16, "a batch has 1 to 16 jobs");
    Ok(Work { jobs, batch })
}

fn keyset() -> KeysetId {
    KeysetId {
        card: CardId(8901),
        kvn: 1,
    }
}

fn facts() -> Result<KeysetFacts> {
    Ok(KeysetFacts {
        base: Counter(0),
        mode: Mode::Higher,
        ciphered: true,
        kic: KeyBytes::new(&KIC)?,
        kid: KeyBytes::new(&KID)?,
    })
}

fn job(alloc: Global, job: u32) -> Result<Job> {
    Ok(Job {
        id: JobId { campaign: 7, job },
        keyset: keyset(),
        tar: TAR,
        body: Octets::from_slice(alloc, &BODY)?,
    })
}

/// The batches of jobs, which are numbered from 1.
fn batches(alloc: Global, work: Work) -> Result<Vec<Vec<Job>>> {
    let mut batches = Vec::new(alloc);
    let mut batch = Vec::new(alloc);
    for number in 1..=work.jobs {
        batch.push(job(alloc, number)?)?;
        if batch.len() as u64 >= u64::from(work.batch) {
            batches.push(batch)?;
            batch = Vec::new(alloc);
        }
    }
    if !batch.is_empty() {
        batches.push(batch)?;
    }
    Ok(batches)
}

/// The message in which a card answers to a counter that its script is done.
fn receipt(alloc: Global, keys: &Keys, counter: u32) -> Result<ArrayVec<u8, 140>> {
    let counter = Counter(u64::from(counter));
    let packet = response_packet::build(alloc, keys, true, TAR, counter, 0x00, &[1, 0x90, 0])?;
    let mut message = ArrayVec::new();
    let fits = message.try_extend_from_slice(&[0x02, 0x71, 0x00]).is_ok();
    let all = fits && message.try_extend_from_slice(packet.as_slice()).is_ok();
    ensure!(all, "a receipt is short");
    Ok(message)
}

/// A site whose port gives these messages.
fn site_giving(alloc: Global, messages: Vec<(CardId, ArrayVec<u8, 140>)>) -> Result<ListedSite> {
    let site = BareSite::new(alloc, disk_of(alloc, &EMPTY)?).giving(messages);
    Ok(ListedSite::new(alloc, site, Vec::new(alloc)))
}

/// A lane whose card answers so many jobs.
fn lane_over(alloc: Global, answered: u32) -> Result<OneLane<ListedSite>> {
    let keys = Keys::new(&KIC, &KID)?;
    let mut messages = Vec::new(alloc);
    for counter in 1..=answered {
        messages.push((CardId(8901), receipt(alloc, &keys, counter)?))?;
    }
    let site = site_giving(alloc, messages)?;
    let mut lane = match OneLane::open(alloc, site) {
        Ok(lane) => lane,
        Err(_) => bail!("no lane opens"),
    };
    ensure!(
        lane.open_keyset(keyset(), facts()?).is_ok(),
        "no keyset opens"
    );
    Ok(lane)
}

fn settle(lane: &mut OneLane<ListedSite>, receipts: usize) -> Result<()> {
    for _ in 0..receipts {
        match lane.poll_settle() {
            Ok(Poll::Settled(_, _)) => {}
            _ => bail!("a receipt isn't settled"),
        }
    }
    Ok(())
}

/// Reserves and sends a batch, and settles so many receipts of the card.
fn run_batch(lane: &mut OneLane<ListedSite>, batch: &[Job], receipts: usize) -> Result<()> {
    ensure!(lane.reserve_and_send(batch)?.is_ok(), "a batch isn't sent");
    settle(lane, receipts)
}

/// Reserves and sends each batch, and settles what the card answers.
fn run_batches(lane: &mut OneLane<ListedSite>, batches: &[Vec<Job>], answered: bool) -> Result<()> {
    for batch in batches {
        let receipts = if answered { batch.len() } else { 0 };
        run_batch(lane, batch, receipts)?;
    }
    Ok(())
}

/// The time of a lane.
fn run_lane(rt: &impl CpuClock, alloc: Global, work: Work, answered: bool) -> Result<u128> {
    let batches = batches(alloc, work)?;
    let mut lane = lane_over(alloc, if answered { work.jobs } else { 0 })?;
    let start = rt.thread_cpu_time()?;
    run_batches(&mut lane, &batches, answered)?;
    Ok(rt.thread_cpu_time()?.saturating_sub(start).as_nanos())
}

fn device_calls(site: &mut ListedSite, batch: &[Job], packet: &[u8]) -> Result<()> {
    let octets = [0x5A; 16 * PART + 6];
    let end = site.length();
    let len = (batch.len().min(16) * PART + 6).min(octets.len());
    let written = site.write_at(end, &octets[..len]).is_ok() && site.sync().is_ok();
    let opened = site.write_at(end.saturating_sub(1), &[0xA5]).is_ok() && site.sync().is_ok();
    ensure!(written && opened, "a call of the disk fails");
    for _ in batch {
        let left = site.send(CardId(8901), packet, Reference::Short(1), 1);
        ensure!(left.is_ok(), "a call of the port fails");
    }
    Ok(())
}

fn all_device_calls(site: &mut ListedSite, batches: &[Vec<Job>], packet: &[u8]) -> Result<()> {
    for batch in batches {
        device_calls(site, batch, packet)?;
    }
    Ok(())
}

/// The calls of disk and port alone.
fn run_device(rt: &impl CpuClock, alloc: Global, work: Work) -> Result<u128> {
    let batches = batches(alloc, work)?;
    let mut site = site_giving(alloc, Vec::new(alloc))?;
    let packet = [0x5A; 74];
    let start = rt.thread_cpu_time()?;
    all_device_calls(&mut site, &batches, &packet)?;
    Ok(rt.thread_cpu_time()?.saturating_sub(start).as_nanos())
}

/// The ciphers of the packets alone, with the schedules of their keys.
fn run_ciphers(rt: &impl CpuClock, work: Work) -> Result<u128> {
    let mut checked = [0x5A; 66];
    let mut sent = [0x5A; 64];
    let start = rt.thread_cpu_time()?;
    for _ in 0..work.jobs {
        let keys = Keys::new(&KIC, &KID)?;
        let code = cmac8(keys.kid(), &checked);
        checked[0] ^= code[0];
        sent[0] ^= code[1];
        cbc_encrypt(keys.kic(), &mut sent);
    }
    let time = rt.thread_cpu_time()?.saturating_sub(start).as_nanos();
    // The last octets go into the time's last bit, so that none can be left out.
    Ok(time | u128::from((checked[0] ^ sent[0]) & 1))
}

/// The processor's nanoseconds of a task for so many jobs in such batches.
pub fn measured(rt: &impl CpuClock, alloc: Global, words: &mut Words<'_>) -> Result<u128> {
    let task = words.next().unwrap_or("");
    let work = next_work(words)?;
    match task {
        "send" => run_lane(rt, alloc, work, false),
        "settle" => run_lane(rt, alloc, work, true),
        "device" => run_device(rt, alloc, work),
        "ciphers" => run_ciphers(rt, work),
        _ => bail!("no such task: {task:?}"),
    }
}
