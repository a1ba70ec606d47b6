// Small sessions over sites in memory, and senders that overlap.
ghost use Rattle.std.specs.Prelude.{◌≡◌, ℕ, ◌+◌, ◌*◌, ◌^◌, ◌<◌, ◌≤◌, [], length, true, IfOk, vec_len};
ghost use Rattle.senders.specs.Pieces.{EachAt, IsWatch, all_jobs};
ghost use Rattle.senders.specs.Trials.{AreTrialPieces, AreTrials, AreWatched, IsBegun, IsTrial, id_for, keyset_for};

use crate::held_site::{Flags, HeldSite, MOST_TURNS};
use crate::{Gate, JobList, OpenGate, Settings, Work, Worked, work};
use disk_model::MemDisk;
use lane_engine::Lane;
use ota_core::{
    CardId, Counter, Entry, Job, JobId, KeyBytes, KeysetFacts, KeysetId, Mode, Octets, Tar,
};
use ota_io::StillClock;
use site_model::BareSite;
use std::alloc::Global;
use std::sync::atomic::{AtomicBool, AtomicU64, Ordering};
use std::sync::{Arc, Wait};
use std::test::Fail;
use std::thread;
use std::thread::Threads;

const KIC: [u8; 16] = [0, 1, 2, 3, 4, 5, 6, 7, 8, 9, 10, 11, 12, 13, 14, 15];

const KID: [u8; 16] = [
    0x2B, 0x7E, 0x15, 0x16, 0x28, 0xAE, 0xD2, 0xA6, 0xAB, 0xF7, 0x15, 0x88, 0x09, 0xCF, 0x4F, 0x3C,
];

/// Settings of so many senders and jobs a batch, with one resend and two polls.
fn settings(senders: u32, batch: u32) -> Settings
    ensures { (result.senders ≡ senders) × (result.batch ≡ batch) }
{
    Settings {
        senders,
        batch,
        resends: 1,
        polls: 2,
    }
}

/// The keyset of the one card of a lane.
fn keyset(lane: u32) -> KeysetId
    ensures { result ≡ keyset_for lane }
{
    KeysetId {
        card: CardId(u64::from(lane)),
        kvn: 1,
    }
}

fn facts() -> Result<KeysetFacts, Fail>
    ensures { IfOk result (λ facts. facts.base ≡ 0) }
{
    match (KeyBytes::new(&KIC), KeyBytes::new(&KID)) {
        (Ok(kic), Ok(kid)) => Ok(KeysetFacts {
            base: Counter(0),
            mode: Mode::Higher,
            ciphered: true,
            kic,
            kid,
        }),
        _ => Err(Fail::from("a key of 16 octets")),
    }
}

fn id(number: u32) -> JobId
    ensures { result ≡ id_for number }
{
    JobId {
        campaign: 7,
        job: number,
    }
}

fn job(alloc: Global, number: u32, lane: u32) -> Result<Job, Fail>
    ensures { IfOk result (IsTrial lane number) }
{
    match Octets::from_slice(alloc, &[0x00, 0xA4, 0x00, 0x00, 0x02, 0x7F, 0x10]) {
        Ok(body) => Ok(Job {
            id: id(number),
            keyset: keyset(lane),
            tar: Tar([0xB0, 0x00, 0x10]),
            body,
        }),
        Err(_) => Err(Fail::from("memory for a script")),
    }
}

/// A piece of so many jobs of a lane, from that number on.
fn piece(alloc: Global, lane: u32, from: u32, count: u32) -> Result<Work, Fail>
    requires { from + count < 2 ^ 32 }
    ensures { IfOk result (λ work. (work.lane ≡ lane) × (length work.jobs ≡ count) × AreTrials lane from work.jobs) }
{
    let mut jobs = JobList::new(alloc);
    for number in from..from + count {
        match jobs.push(job(alloc, number, lane)?) {
            Ok(()) => {}
            Err(_) => return Err(Fail::from("memory for a job")),
        }
    }
    Ok(Work { lane, jobs })
}

/// A piece for each of these parts, which are a lane and how many jobs, numbered on from 1.
fn pieces(alloc: Global, lanes: u32, batch: u32, parts: &[(u32, u32)]) -> Result<Vec<Work>, Fail>
    requires { batch ≤ 16 }
    ensures pieces { IfOk result (λ works. AreTrialPieces batch lanes 1 works.items) }
    ensures few { IfOk result (λ works. length (all_jobs works.items) ≤ 1000) }
{
    let mut works = Vec::new(alloc);
    let mut number = 1;
    for part in parts {
        let (lane, count) = *part;
        if lane >= lanes {
            return Err(Fail::from("a lane that isn't there"));
        }
        if count == 0 {
            return Err(Fail::from("a piece without a job"));
        }
        if count > batch {
            return Err(Fail::from("a piece beyond the batch"));
        }
        if number > 900 {
            return Err(Fail::from("a part too many"));
        }
        works.push(piece(alloc, lane, number, count)?)?;
        number += count;
    }
    Ok(works)
}

/// The jobs of these parts, each beside its lane.
fn watched(alloc: Global, lanes: u32, parts: &[(u32, u32)]) -> Result<Vec<(u32, JobId)>, Fail>
    ensures { IfOk result (λ watch. IsWatch lanes watch.items) }
{
    let mut watch = Vec::new(alloc);
    let mut number = 1;
    for part in parts {
        let (lane, count) = *part;
        if lane >= lanes {
            return Err(Fail::from("a lane that isn't there"));
        }
        if count > 100 {
            return Err(Fail::from("a piece of many jobs"));
        }
        if number > 900 {
            return Err(Fail::from("a part too many"));
        }
        watch_part(&mut watch, lanes, lane, number, count)?;
        number += count;
    }
    Ok(watch)
}

/// Watches so many jobs of a lane, from that number on.
fn watch_part(
    watch: &mut Vec<(u32, JobId)>,
    lanes: u32,
    lane: u32,
    from: u32,
    count: u32,
) -> Result<(), Fail>
    requires there { lane < lanes }
    requires numbers { (from + count < 2 ^ 32) × (1 + length watch.old.items ≡ from) }
    requires before { AreWatched lanes 1 watch.old.items }
    ensures { IfOk result (λ _. AreWatched lanes 1 watch.new.items × (1 + length watch.new.items ≡ from + count)) }
{
    for number in from..from + count {
        watch.push((lane, id(number)))?;
    }
    Ok(())
}

/// A lane over an empty journal, with the keyset of its card open.
fn lane(
    alloc: Global,
    lane: u16,
    lanes: u16,
    flags: &Arc<Flags, Global>,
) -> Result<Lane<HeldSite>, Fail>
    requires { lane < lanes }
    ensures { IfOk result (IsBegun ⟦<HeldSite as disk_model::DiskCalls>⟧.counts lanes lane) }
{
    let [place_high, place_low] = lane.to_be_bytes();
    let [count_high, count_low] = lanes.to_be_bytes();
    let head = [
        0xA5, 0x4F, 0x54, 0x41, 0x4A, 0x01, place_high, place_low, count_high, count_low, 0x00,
    ];
    let Ok(disk) = MemDisk::of(alloc, &head) else {
        return Err(Fail::from("memory for a disk"));
    };
    let site = HeldSite::new(
        BareSite::new(alloc, disk),
        u32::from(lane),
        Arc::try_clone(flags)?,
    );
    let Ok(mut opened) = Lane::open(alloc, site, lane, lanes) else {
        return Err(Fail::from("a lane opens"));
    };
    if opened.history().entries().len() > 0 {
        return Err(Fail::from("an empty journal"));
    }
    let keysets = [(keyset(u32::from(lane)), facts()?)];
    match opened.open_keysets(0, &keysets) {
        Ok(()) => Ok(opened),
        Err(_) => Err(Fail::from("a keyset opens")),
    }
}

/// So many lanes, in order.
fn lanes_of(
    alloc: Global,
    count: u16,
    flags: &Arc<Flags, Global>,
) -> Result<Vec<Lane<HeldSite>>, Fail>
    ensures { IfOk result (λ lanes. EachAt (IsBegun ⟦<HeldSite as disk_model::DiskCalls>⟧.counts count) 0 lanes.items × (vec_len lanes ≡ count)) }
{
    let mut lanes = Vec::new(alloc);
    for number in 0..count {
        lanes.push(lane(alloc, number, count, flags)?)?;
    }
    Ok(lanes)
}

/// Runs the work of these parts on so many new lanes.
fn trial<G: Gate, R: Threads + Wait + Sync>(
    rt: &R,
    alloc: Global,
    lanes: u16,
    parts: &[(u32, u32)],
    watch: &[(u32, JobId)],
    settings: &Settings,
    flags: &Arc<Flags, Global>,
    gate: &G,
) -> Result<Worked<HeldSite>, Fail>
    requires senders { (1 ≤ settings.now.senders) × (settings.now.senders ≤ 64) }
    requires batch { (1 ≤ settings.now.batch) × (settings.now.batch ≤ 16) }
    requires watch { IsWatch lanes watch.now }
{
    let begun = lanes_of(alloc, lanes, flags)?;
    let works = pieces(alloc, u32::from(lanes), settings.batch, parts)?;
    match work(rt, alloc, begun, works, watch, settings, gate, &StillClock) {
        Ok(worked) => Ok(worked),
        Err(_) => Err(Fail::from("memory for the work")),
    }
}

fn is_reserve(entry: &Entry) -> bool {
    match entry {
        Entry::Reserve { .. } => true,
        _ => false,
    }
}

/// How many reservations a history has.
fn reserved(entries: &[Entry]) -> usize {
    entries.iter().filter(|entry| is_reserve(entry)).count()
}

/// How many of them a sender made.
fn reserved_by(entries: &[Entry], sender: u32) -> usize {
    entries
        .iter()
        .filter(|entry| is_reserve(entry) && entry.by() == sender)
        .count()
}

/// What two lanes tell each other; with `is_polled` no lane waits.
fn new_flags(alloc: Global, is_polled: bool) -> Result<Arc<Flags, Global>, Fail> {
    let flags = Arc::new(alloc, Flags::new())?;
    flags.is_polled.store(is_polled, Ordering::SeqCst);
    Ok(flags)
}

#[test]
fn each_job_is_reserved_once_sent_twice_and_polled_for(rt: HostRuntime) -> Result<(), Fail> {
    let alloc = rt.alloc();
    let flags = new_flags(alloc, true)?;
    // each lane has pieces of one, two, three and four jobs
    let parts = [
        (0, 1),
        (1, 1),
        (2, 1),
        (0, 2),
        (1, 2),
        (2, 2),
        (0, 3),
        (1, 3),
        (2, 3),
        (0, 4),
        (1, 4),
        (2, 4),
    ];
    let watch = watched(alloc, 3, &parts)?;
    assert_eq!(rt; watch.len(), 30);
    let Worked { lanes, ends } = trial(
        &rt,
        alloc,
        3,
        &parts,
        watch.as_slice(),
        &settings(4, 4),
        &flags,
        &OpenGate,
    )?;
    assert_eq!(rt; lanes.len(), 3);
    for end in ends {
        assert!(rt; end.is_none());
    }
    for lane in lanes {
        let (site, history) = lane.into_parts();
        assert_eq!(rt; reserved(history.entries()), 10);
        assert_eq!(rt; site.sends, 20);
        // one poll a piece, and then two rounds of two for each of ten jobs
        assert_eq!(rt; site.polls, 44);
    }
    Ok(())
}

#[test]
fn nothing_to_do_leaves_the_lanes(rt: HostRuntime) -> Result<(), Fail> {
    let alloc = rt.alloc();
    let flags = new_flags(alloc, false)?;
    let Worked { lanes, ends: _ } = trial(
        &rt,
        alloc,
        1,
        &[],
        &[],
        &settings(2, 1),
        &flags,
        &OpenGate,
    )?;
    assert_eq!(rt; lanes.len(), 1);
    for lane in lanes {
        let (site, history) = lane.into_parts();
        assert_eq!(rt; history.entries().len(), 1);
        assert_eq!(rt; (site.sends, site.polls), (0, 0));
    }
    Ok(())
}

/// Holds sender 1 until other senders have passed three times.
#[derive(Drop)]
struct HeldGate {
    passes: AtomicU64,
    is_used_up: AtomicBool,
}

impl Gate for HeldGate {
    fn pass(&self, sender: u32, _lane: u32) {
        if sender != 1 {
            self.passes.fetch_add(1, Ordering::SeqCst);
            return;
        }
        for _ in 0..MOST_TURNS {
            if self.passes.load(Ordering::SeqCst) >= 3 {
                return;
            }
            thread::yield_now();
        }
        self.is_used_up.store(true, Ordering::SeqCst);
    }
}

// With two senders and four pieces: one thread for both would come to sender 1 and wait in vain, and of pieces that are dealt
// out beforehand sender 2 would have two, and so never pass three times. One more piece that sender 1 took after its wait
// would leave it one of the four.
#[test]
fn held_sender_lets_another_pass(rt: HostRuntime) -> Result<(), Fail> {
    let alloc = rt.alloc();
    let flags = new_flags(alloc, true)?;
    let gate = HeldGate {
        passes: AtomicU64::new(0),
        is_used_up: AtomicBool::new(false),
    };
    let parts = [(0, 1), (0, 1), (0, 1), (0, 1)];
    let Worked { lanes, ends: _ } = trial(
        &rt,
        alloc,
        1,
        &parts,
        &[],
        &settings(2, 1),
        &flags,
        &gate,
    )?;
    assert!(rt; !gate.is_used_up.load(Ordering::SeqCst));
    assert!(rt; gate.passes.load(Ordering::SeqCst) >= 3);
    assert_eq!(rt; lanes.len(), 1);
    for lane in lanes {
        let entries = lane.history().entries();
        assert_eq!(rt; reserved(entries), 4);
        assert!(rt; reserved_by(entries, 2) >= 3);
    }
    Ok(())
}

/// Lets a sender to lane 1 once the port of lane 0 is held.
#[derive(Drop)]
struct SecondGate {
    flags: Arc<Flags, Global>,
}

impl Gate for SecondGate {
    fn pass(&self, _sender: u32, lane: u32) {
        if lane != 0 {
            self.flags.wait_for(&self.flags.is_held);
        }
    }
}

// With two senders and a piece for each of two lanes: one thread, and one lock round both lanes, would be in the poll of lane 0
// and wait in vain for that of lane 1, which comes only behind it.
#[test]
fn held_port_lets_another_lane_poll(rt: HostRuntime) -> Result<(), Fail> {
    let alloc = rt.alloc();
    let flags = new_flags(alloc, false)?;
    let gate = SecondGate {
        flags: Arc::try_clone(&flags)?,
    };
    let parts = [(0, 1), (1, 1)];
    let Worked { lanes, ends: _ } = trial(
        &rt,
        alloc,
        2,
        &parts,
        &[],
        &settings(2, 1),
        &flags,
        &gate,
    )?;
    assert!(rt; flags.is_held.load(Ordering::SeqCst));
    assert!(rt; !flags.is_used_up.load(Ordering::SeqCst));
    assert_eq!(rt; lanes.len(), 2);
    for lane in lanes {
        assert_eq!(rt; reserved(lane.history().entries()), 1);
    }
    Ok(())
}
