// The commands over memory: their rows, and each fault with its status.
use crate::{Command, Ended, Fault, Which, Words, plain_command, read_words};
use counter_journal::Journal;
use disk_model::{Call, Image, MemDisk, SimCalls};
use ota_core::{CardId, Counter, KeysetId};
use ota_io::{MemSink, MemSource};
use plan_reader::{Column, Field, Table};
use site_model::BareSite;
use std::alloc::{AllocError, Global};
use std::test::Fail;

const PLAN: &str =
    "campaign = 7\n[[card]]\nnumber = 8901\n[[keyset]]\ncard = 8901\nkvn = 1\nkic = \"000102030405060708090a0b0c0d0e0f\"\nkid = \"2b7e151628aed2a6abf7158809cf4f3c\"\n";

/// Two cards whose keysets have one key for the checksum.
const ONE_KEY_PLAN: &str =
    "campaign = 7\n[[card]]\nnumber = 8901\n[[card]]\nnumber = 8902\n[[keyset]]\ncard = 8901\nkvn = 1\nkic = \"000102030405060708090a0b0c0d0e0f\"\nkid = \"2b7e151628aed2a6abf7158809cf4f3c\"\n[[keyset]]\ncard = 8902\nkvn = 1\nkic = \"000102030405060708090a0b0c0d0e0f\"\nkid = \"2b7e151628aed2a6abf7158809cf4f3c\"\n";

/// The same plan with another last octet of the key for the checksum.
const OTHER_PLAN: &str =
    "campaign = 7\n[[card]]\nnumber = 8901\n[[keyset]]\ncard = 8901\nkvn = 1\nkic = \"000102030405060708090a0b0c0d0e0f\"\nkid = \"2b7e151628aed2a6abf7158809cf4f3d\"\n";

const HEADER: &str = "job,card,kvn,tar,script\n";

const FIRST: &str = "1,8901,1,b00010,00a40000027f1000a40000026f3a00d6000003aabbcc\n";

const SECOND: &str = "2,8901,1,b00010,00a40000027f1000a40000026f3a00d6000003aabbcc\n";

/// The first row with another last octet of its script.
const FIRST_CHANGED: &str = "1,8901,1,b00010,00a40000027f1000a40000026f3a00d6000003aabbcd\n";

const REPORT_HEADER: &str = "job,card,kvn,outcome,counter,note\n";

const FIRST_RESERVED: &str = "1,8901,1,unsettled,0000000001,-\n";

const SECOND_RESERVED: &str = "2,8901,1,unsettled,0000000002,-\n";

const FIRST_NEW: &str = "1,8901,1,unsettled,-,new\n";

/// The journal of lane 0 of 1 without entries.
const EMPTY: &[u8] = &[
    0xA5, 0x4F, 0x54, 0x41, 0x4A, 0x01, 0x00, 0x00, 0x00, 0x01, 0x00,
];

/// The journal of lane 0 of 2 with the mark of version 2.
const FIRST_OF_TWO_MARKED: &[u8] = &[
    0xA5, 0x4F, 0x54, 0x41, 0x4A, 0x01, 0x00, 0x00, 0x00, 0x02, 0xA5, 0x00, 0x00, 0x00, 0x06, 0x00,
    0x00, 0x00, 0x02, 0x06, 0x02, 0x00,
];

/// The journals of lanes 0 and 1 of 2, and of lanes 0 and 1 of 4, without entries.
const FIRST_OF_TWO: &[u8] = &[
    0xA5, 0x4F, 0x54, 0x41, 0x4A, 0x01, 0x00, 0x00, 0x00, 0x02, 0x00,
];

const SECOND_OF_TWO: &[u8] = &[
    0xA5, 0x4F, 0x54, 0x41, 0x4A, 0x01, 0x00, 0x01, 0x00, 0x02, 0x00,
];

const FIRST_OF_FOUR: &[u8] = &[
    0xA5, 0x4F, 0x54, 0x41, 0x4A, 0x01, 0x00, 0x00, 0x00, 0x04, 0x00,
];

const SECOND_OF_FOUR: &[u8] = &[
    0xA5, 0x4F, 0x54, 0x41, 0x4A, 0x01, 0x00, 0x01, 0x00, 0x04, 0x00,
];

/// The journal of lane 0 of 1 with one part, of an unknown kind.
const DAMAGED: &[u8] = &[
    0xA5, 0x4F, 0x54, 0x41, 0x4A, 0x01, 0x00, 0x00, 0x00, 0x01, 0xA5, 0x00, 0x00, 0x00, 0x05, 0x00,
    0x00, 0x00, 0x01, 0x09, 0x00,
];

/// The journal of lane 0 of 1 in which keyset 1 of card 8901 (22C5) is opened as the plan says, and closed.
const CLOSED: &[u8] = &[
    0xA5, 0x4F, 0x54, 0x41, 0x4A, 0x01, 0x00, 0x00, 0x00, 0x01, 0xA5, 0x00, 0x00, 0x00, 0x3B, 0x00,
    0x00, 0x00, 0x37, 0x01, 0x00, 0x00, 0x00, 0x00, 0x00, 0x00, 0x00, 0x00, 0x00, 0x00, 0x22, 0xC5,
    0x01, 0x00, 0x00, 0x00, 0x00, 0x00, 0x02, 0x01, 0x10, 0x00, 0x01, 0x02, 0x03, 0x04, 0x05, 0x06,
    0x07, 0x08, 0x09, 0x0A, 0x0B, 0x0C, 0x0D, 0x0E, 0x0F, 0x10, 0x2B, 0x7E, 0x15, 0x16, 0x28, 0xAE,
    0xD2, 0xA6, 0xAB, 0xF7, 0x15, 0x88, 0x09, 0xCF, 0x4F, 0x3C, 0xA5, 0x00, 0x00, 0x00, 0x12, 0x00,
    0x00, 0x00, 0x0E, 0x05, 0x00, 0x00, 0x00, 0x00, 0x00, 0x00, 0x00, 0x00, 0x00, 0x00, 0x22, 0xC5,
    0x01, 0x00,
];

/// The mark and the head of the journal of lane 0 of 1.
const HEAD_OF_ONE: &[u8] = &[0xA5, 0x4F, 0x54, 0x41, 0x4A, 0x01, 0x00, 0x00, 0x00, 0x01];

/// An open gate, and the batch with the Open of keyset 1 of card 8901 as the plan says, in version 1.
const OPEN: &[u8] = &[
    0xA5, 0x00, 0x00, 0x00, 0x3B, 0x00, 0x00, 0x00, 0x37, 0x01, 0x00, 0x00, 0x00, 0x00, 0x00, 0x00,
    0x00, 0x00, 0x00, 0x00, 0x22, 0xC5, 0x01, 0x00, 0x00, 0x00, 0x00, 0x00, 0x02, 0x01, 0x10, 0x00,
    0x01, 0x02, 0x03, 0x04, 0x05, 0x06, 0x07, 0x08, 0x09, 0x0A, 0x0B, 0x0C, 0x0D, 0x0E, 0x0F, 0x10,
    0x2B, 0x7E, 0x15, 0x16, 0x28, 0xAE, 0xD2, 0xA6, 0xAB, 0xF7, 0x15, 0x88, 0x09, 0xCF, 0x4F, 0x3C,
];

/// An open gate, and the batch with the reservation of counter 1 for the first row, in version 1.
const RESERVED: &[u8] = &[
    0xA5, 0x00, 0x00, 0x00, 0x38, 0x00, 0x00, 0x00, 0x34, 0x02, 0x00, 0x00, 0x00, 0x00, 0x00, 0x00,
    0x00, 0x00, 0x00, 0x00, 0x22, 0xC5, 0x01, 0x00, 0x00, 0x00, 0x00, 0x01, 0x00, 0x00, 0x00, 0x07,
    0x00, 0x00, 0x00, 0x01, 0xB0, 0x00, 0x10, 0x00, 0xA4, 0x00, 0x00, 0x02, 0x7F, 0x10, 0x00, 0xA4,
    0x00, 0x00, 0x02, 0x6F, 0x3A, 0x00, 0xD6, 0x00, 0x00, 0x03, 0xAA, 0xBB, 0xCC,
];

/// An open gate, and the batch with its answer AABBCC.
const DONE: &[u8] = &[
    0xA5, 0x00, 0x00, 0x00, 0x1A, 0x00, 0x00, 0x00, 0x16, 0x03, 0x00, 0x00, 0x00, 0x00, 0x00, 0x00,
    0x00, 0x00, 0x00, 0x00, 0x22, 0xC5, 0x01, 0x00, 0x00, 0x00, 0x00, 0x01, 0xAA, 0xBB, 0xCC,
];

/// An open gate, and the batch with its refusal under status 09.
const REFUSED: &[u8] = &[
    0xA5, 0x00, 0x00, 0x00, 0x18, 0x00, 0x00, 0x00, 0x14, 0x04, 0x00, 0x00, 0x00, 0x00, 0x00, 0x00,
    0x00, 0x00, 0x00, 0x00, 0x22, 0xC5, 0x01, 0x00, 0x00, 0x00, 0x00, 0x01, 0x09,
];

/// An open gate, and the front of a batch with an answer of 16,776,972 octets.
const LONG_DONE: &[u8] = &[
    0xA5, 0x00, 0xFF, 0xFF, 0x23, 0x00, 0xFF, 0xFF, 0x1F, 0x03, 0x00, 0x00, 0x00, 0x00, 0x00, 0x00,
    0x00, 0x00, 0x00, 0x00, 0x22, 0xC5, 0x01, 0x00, 0x00, 0x00, 0x00, 0x01,
];

const CLOSED_GATE: &[u8] = &[0x00];

const RESERVE: &[&str] = &[
    "reserve", "--lanes", "1", "--store", "s", "--plan", "p", "--jobs", "j",
];

const RESERVE_ON_TWO: &[&str] = &[
    "reserve", "--lanes", "2", "--store", "s", "--plan", "p", "--jobs", "j",
];

const RESERVE_ON_THREE: &[&str] = &[
    "reserve", "--lanes", "3", "--store", "s", "--plan", "p", "--jobs", "j",
];

const RESERVE_ON_FOUR: &[&str] = &[
    "reserve", "--lanes", "4", "--store", "s", "--plan", "p", "--jobs", "j",
];

const PACKET: &[&str] = &[
    "packet", "--lanes", "1", "--store", "s", "--plan", "p", "--jobs", "j",
];

const PACKETS_HEADER: &str = "job,counter,place,octets\n";

/// The message of the first row under the counter 1, by OpenSSL.
const FIRST_MESSAGE: &str =
    "1,0000000001,1,02700000381516391212b000106512b72bf01bea6df7860781072d78af5318e78f84a52ec01c2bf2bfb4f1d0a7f97786daca97a62deea470515f4f803e\n";

const FORMAT_TWO: &[&str] = &["format", "--lanes", "2", "--store", "s"];

/// What a run is made of.
#[derive(Drop)]
struct Setting<'a> {
    words: &'a [&'a str],
    plan: &'a str,
    jobs: &'a str,
    room: usize,
    plan_fails: &'a [u64],
    jobs_fails: &'a [u64],
}

fn with<'a>(words: &'a [&'a str], jobs: &'a str) -> Setting<'a> {
    Setting {
        words,
        plan: PLAN,
        jobs,
        room: 10_000,
        plan_fails: &[],
        jobs_fails: &[],
    }
}

fn with_jobs<'a>(jobs: &'a str) -> Setting<'a> {
    with(RESERVE, jobs)
}

fn with_words<'a>(words: &'a [&'a str]) -> Setting<'a> {
    with(words, HEADER)
}

fn words_of(alloc: Global, words: &[&str]) -> Result<Vec<String>, AllocError> {
    let mut made = Vec::new(alloc);
    for word in words {
        made.push(String::from_str(alloc, word)?)?;
    }
    Ok(made)
}

fn text_of(alloc: Global, parts: &[&str]) -> Result<String, AllocError> {
    let mut text = String::new(alloc);
    for part in parts {
        text.push_str(part)?;
    }
    Ok(text)
}

/// A site on a disk in memory with these octets.
fn site(alloc: Global, octets: &[u8]) -> Result<BareSite<MemDisk>, Fail> {
    Ok(BareSite::new(alloc, MemDisk::of(alloc, octets)?))
}

/// Sites on disks with these octets.
fn sites(alloc: Global, disks: &[&[u8]]) -> Result<Vec<BareSite<MemDisk>>, Fail> {
    let mut made = Vec::new(alloc);
    for octets in disks {
        made.push(site(alloc, octets)?)?;
    }
    Ok(made)
}

/// What a run came to: how it ended, and what was written.
#[derive(Drop)]
struct Came {
    ended: Ended<BareSite<MemDisk>>,
    out: MemSink,
}

fn run(alloc: Global, setting: &Setting, sites: Vec<BareSite<MemDisk>>) -> Result<Came, Fail> {
    let words = words_of(alloc, setting.words)?;
    let mut plan = MemSource::new(
        setting.plan.as_bytes().to_vec(alloc)?,
        setting.plan_fails.to_vec(alloc)?,
    );
    let mut jobs = MemSource::new(
        setting.jobs.as_bytes().to_vec(alloc)?,
        setting.jobs_fails.to_vec(alloc)?,
    );
    let mut out = MemSink::new(alloc, setting.room, Vec::new(alloc)).map_err(|_| AllocError)?;
    let ended = plain_command(alloc, &words, &mut plan, &mut jobs, &mut out, sites);
    Ok(Came { ended, out })
}

/// The sites that a run left.
fn sites_of(came: Came) -> Vec<BareSite<MemDisk>> {
    let ended = came.ended;
    ended.sites
}

/// Whether a run ended with this fault, having written this text.
fn is_end(came: &Came, fault: Option<Fault>, text: &str) -> bool {
    let status = match &fault {
        None => 0,
        Some(fault) => fault.status(),
    };
    came.ended.fault == fault
        && came.ended.status == status
        && came.out.content() == text.as_bytes()
}

/// The octets of the disk of this lane.
fn content(came: &Came, lane: usize) -> &[u8] {
    match came.ended.sites.get(lane) {
        Some(site) => site.disk().content(),
        None => &[],
    }
}

/// Whether a run on one lane ended so, and left so many octets on its disk.
fn came_to(
    alloc: Global,
    setting: &Setting,
    octets: &[u8],
    fault: Option<Fault>,
    text: &str,
    len: usize,
) -> Result<bool, Fail> {
    let came = run(alloc, setting, sites(alloc, &[octets])?)?;
    Ok(is_end(&came, fault, text) && content(&came, 0).len() == len)
}

#[test]
fn a_row_is_reserved(rt: HostRuntime) -> Result<(), Fail> {
    let alloc = rt.alloc();
    let jobs = text_of(alloc, &[HEADER, FIRST])?;
    let report = text_of(alloc, &[REPORT_HEADER, FIRST_RESERVED])?;
    assert!(rt; came_to(alloc, &with_jobs(&jobs), EMPTY, None, &report, 164)?);
    Ok(())
}

#[test]
fn rows_get_counters_in_order(rt: HostRuntime) -> Result<(), Fail> {
    let alloc = rt.alloc();
    let jobs = text_of(alloc, &[HEADER, FIRST, SECOND])?;
    let report = text_of(alloc, &[REPORT_HEADER, FIRST_RESERVED, SECOND_RESERVED])?;
    assert!(rt; came_to(alloc, &with_jobs(&jobs), EMPTY, None, &report, 234)?);
    Ok(())
}

#[test]
fn without_rows_nothing_is_added(rt: HostRuntime) -> Result<(), Fail> {
    let alloc = rt.alloc();
    assert!(rt; came_to(alloc, &with_jobs(HEADER), EMPTY, None, REPORT_HEADER, 22)?);
    Ok(())
}

#[test]
fn a_reserved_row_is_reserved_once(rt: HostRuntime) -> Result<(), Fail> {
    let alloc = rt.alloc();
    let first = text_of(alloc, &[HEADER, FIRST])?;
    let both = text_of(alloc, &[HEADER, FIRST, SECOND])?;
    let report = text_of(alloc, &[REPORT_HEADER, FIRST_RESERVED, SECOND_RESERVED])?;
    let before = run(alloc, &with_jobs(&first), sites(alloc, &[EMPTY])?)?;
    let came = run(alloc, &with_jobs(&both), sites_of(before))?;
    assert!(rt; is_end(&came, None, &report));
    assert_eq!(rt; content(&came, 0).len(), 234);
    Ok(())
}

#[test]
fn a_closed_keyset_gives_no_counter(rt: HostRuntime) -> Result<(), Fail> {
    let alloc = rt.alloc();
    let jobs = text_of(alloc, &[HEADER, FIRST])?;
    let report = text_of(alloc, &[REPORT_HEADER, "1,8901,1,unsettled,-,closed\n"])?;
    assert!(rt; came_to(alloc, &with_jobs(&jobs), CLOSED, None, &report, 109)?);
    Ok(())
}

#[test]
fn a_keyset_without_a_counter_is_noted(rt: HostRuntime) -> Result<(), Fail> {
    let alloc = rt.alloc();
    let plan = text_of(alloc, &[PLAN, "base = \"fffffffffd\"\n"])?;
    let jobs = text_of(alloc, &[HEADER, FIRST, SECOND])?;
    let mut setting = with_jobs(&jobs);
    setting.plan = &plan;
    let report = text_of(
        alloc,
        &[
            REPORT_HEADER,
            "1,8901,1,unsettled,fffffffffe,-\n2,8901,1,unsettled,-,exhausted\n",
        ],
    )?;
    assert!(rt; came_to(alloc, &setting, EMPTY, None, &report, 164)?);
    Ok(())
}

#[test]
fn a_row_that_differs_from_its_reservation_is_refused(rt: HostRuntime) -> Result<(), Fail> {
    let alloc = rt.alloc();
    let jobs = text_of(alloc, &[HEADER, FIRST])?;
    let changed = text_of(alloc, &[HEADER, FIRST_CHANGED])?;
    let before = run(alloc, &with_jobs(&jobs), sites(alloc, &[EMPTY])?)?;
    let came = run(alloc, &with_jobs(&changed), sites_of(before))?;
    assert!(rt; is_end(&came, Some(Fault::JobDiffers(1, Counter(1))), ""));
    assert_eq!(rt; came.ended.status, 14);
    assert_eq!(rt; content(&came, 0).len(), 164);
    Ok(())
}

#[test]
fn a_keyset_with_other_facts_is_refused(rt: HostRuntime) -> Result<(), Fail> {
    let alloc = rt.alloc();
    let jobs = text_of(alloc, &[HEADER, FIRST])?;
    let keyset = KeysetId {
        card: CardId(8901),
        kvn: 1,
    };
    let mut other = with_jobs(HEADER);
    other.plan = OTHER_PLAN;
    let before = run(alloc, &with_jobs(&jobs), sites(alloc, &[EMPTY])?)?;
    let came = run(alloc, &other, sites_of(before))?;
    assert!(rt; is_end(&came, Some(Fault::KeysetDiffers(keyset)), ""));
    assert_eq!(rt; came.ended.status, 15);
    Ok(())
}

#[test]
fn a_lane_that_fails_stops_alone(rt: HostRuntime) -> Result<(), Fail> {
    let alloc = rt.alloc();
    let jobs = text_of(alloc, &[HEADER, FIRST])?;
    let report = text_of(alloc, &[REPORT_HEADER, FIRST_NEW])?;
    let setting = with(RESERVE_ON_TWO, &jobs);
    let calls = calls_of_two(alloc, &setting)?;
    let disk = MemDisk::of(alloc, SECOND_OF_TWO)?.failing(vec![in alloc; fourth_sync(&calls)]?);
    let first = site(alloc, FIRST_OF_TWO)?;
    let second = BareSite::new(alloc, disk);
    let came = run(alloc, &setting, vec![in alloc; first, second]?)?;
    assert!(rt; is_end(&came, Some(Fault::SiteFault(1)), &report));
    assert_eq!(rt;
        came.ended.ends.as_slice(),
        [None, Some(Fault::SiteFault(1))].as_slice()
    );
    assert_eq!(rt; content(&came, 0), FIRST_OF_TWO_MARKED);
    Ok(())
}

/// The calls of the disk of the second lane in a run in which none fails.
fn calls_of_two(alloc: Global, setting: &Setting) -> Result<Vec<Call>, Fail> {
    let came = run(
        alloc,
        setting,
        sites(alloc, &[FIRST_OF_TWO, SECOND_OF_TWO])?,
    )?;
    match came.ended.sites.get(1) {
        Some(site) => Ok(site.disk().calls().to_vec(alloc)?),
        None => Ok(Vec::new(alloc)),
    }
}

/// The number, from 1, of the fourth call that is a sync, and 0 where there is none. The first three are those of an
/// opening that adds the mark of version 2.
fn fourth_sync(calls: &[Call]) -> u64 {
    let mut before: u32 = 0;
    for (place, call) in calls.iter().enumerate() {
        if *call == Call::Sync {
            if before == 3 {
                return place as u64 + 1;
            }
            before = before.saturating_add(1);
        }
    }
    0
}

/// A run on a disk of which this call, from 1, fails and leaves this image; and then a run on what is left.
fn stopped_and_run_again(
    alloc: Global,
    setting: &Setting,
    call: u32,
    image: Image,
) -> Result<(Came, usize), Fail> {
    let mut disk = MemDisk::of(alloc, EMPTY)?;
    disk.arm(call, image);
    let came = run(alloc, setting, vec![in alloc; BareSite::new(alloc, disk)]?)?;
    let left = content(&came, 0);
    let mut disk = MemDisk::of(alloc, left)?;
    let entries = match Journal::open(alloc, &mut disk, 0, 1) {
        Ok(journal) => journal.history().entries().len(),
        Err(_) => return Err(Fail::from("each image opens")),
    };
    let again = run(alloc, setting, sites(alloc, &[left])?)?;
    Ok((again, entries))
}

/// The number of calls that the disk of a run has when none fails.
fn number_of_calls(alloc: Global, setting: &Setting) -> Result<u32, Fail> {
    let came = run(alloc, setting, sites(alloc, &[EMPTY])?)?;
    let mut number: u32 = 0;
    if let Some(site) = came.ended.sites.first() {
        for _call in site.disk().calls() {
            number = number.saturating_add(1);
        }
    }
    Ok(number)
}

#[test]
fn a_stop_at_the_last_call_of_a_reservation_keeps_it_or_not(rt: HostRuntime) -> Result<(), Fail> {
    let alloc = rt.alloc();
    let jobs = text_of(alloc, &[HEADER, FIRST])?;
    let report = text_of(alloc, &[REPORT_HEADER, FIRST_RESERVED])?;
    let setting = with_jobs(&jobs);
    let last = number_of_calls(alloc, &setting)?;
    let cases: [(Image, usize); 3] = [(Image::Old, 1), (Image::New, 2), (Image::Torn, 1)];
    for (image, held) in cases {
        let (again, entries) = stopped_and_run_again(alloc, &setting, last, image)?;
        assert_eq!(rt; entries, held);
        assert!(rt; is_end(&again, None, &report));
        assert_eq!(rt; content(&again, 0).len(), 164);
    }
    Ok(())
}

#[test]
fn a_stop_at_each_call_leaves_what_the_next_run_ends(rt: HostRuntime) -> Result<(), Fail> {
    let alloc = rt.alloc();
    let jobs = text_of(alloc, &[HEADER, FIRST])?;
    let report = text_of(alloc, &[REPORT_HEADER, FIRST_RESERVED])?;
    let setting = with_jobs(&jobs);
    let last = number_of_calls(alloc, &setting)?;
    for calls_before in 0..last {
        let call = calls_before.saturating_add(1);
        for image in [Image::Old, Image::New, Image::Torn] {
            let (again, _) = stopped_and_run_again(alloc, &setting, call, image)?;
            assert!(rt; is_end(&again, None, &report), "call {call}");
            assert_eq!(rt; content(&again, 0).len(), 164);
        }
    }
    Ok(())
}

#[test]
fn the_message_of_a_reserved_row_is_shown(rt: HostRuntime) -> Result<(), Fail> {
    let alloc = rt.alloc();
    let jobs = text_of(alloc, &[HEADER, FIRST])?;
    let text = text_of(alloc, &[PACKETS_HEADER, FIRST_MESSAGE])?;
    let shown = with(PACKET, &jobs);
    let before = run(alloc, &shown, sites(alloc, &[EMPTY])?)?;
    assert!(rt; is_end(&before, None, PACKETS_HEADER));
    let reserved = run(alloc, &with_jobs(&jobs), sites_of(before))?;
    let after = run(alloc, &shown, sites_of(reserved))?;
    assert!(rt; is_end(&after, None, &text));
    assert_eq!(rt; content(&after, 0).len(), 164);
    Ok(())
}

#[test]
fn no_message_is_shown_of_journals_that_differ(rt: HostRuntime) -> Result<(), Fail> {
    let alloc = rt.alloc();
    let jobs = text_of(alloc, &[HEADER, FIRST])?;
    let changed = text_of(alloc, &[HEADER, FIRST_CHANGED])?;
    let reserved = run(alloc, &with_jobs(&jobs), sites(alloc, &[EMPTY])?)?;
    let came = run(alloc, &with(PACKET, &changed), sites_of(reserved))?;
    assert!(rt; is_end(&came, Some(Fault::JobDiffers(1, Counter(1))), ""));
    let unmade = run(alloc, &with(PACKET, &jobs), sites(alloc, &[&[]])?)?;
    assert!(rt; is_end(&unmade, Some(Fault::Unformatted(0)), ""));
    Ok(())
}

#[test]
fn journals_are_made(rt: HostRuntime) -> Result<(), Fail> {
    let alloc = rt.alloc();
    let setting = with_words(FORMAT_TWO);
    let came = run(alloc, &setting, sites(alloc, &[&[], &[0x00, 0x4F]])?)?;
    assert!(rt; is_end(&came, None, "formatted 2\n"));
    assert_eq!(rt; content(&came, 0), FIRST_OF_TWO);
    assert_eq!(rt; content(&came, 1), SECOND_OF_TWO);
    let again = run(alloc, &setting, sites_of(came))?;
    assert!(rt; is_end(&again, None, "formatted 2\n"));
    assert_eq!(rt; content(&again, 1), SECOND_OF_TWO);
    Ok(())
}

#[test]
fn another_journal_is_not_made_anew(rt: HostRuntime) -> Result<(), Fail> {
    let alloc = rt.alloc();
    let setting = with_words(FORMAT_TWO);
    let came = run(alloc, &setting, sites(alloc, &[&[], FIRST_OF_FOUR])?)?;
    assert!(rt; is_end(&came, Some(Fault::WrongLane(1, 0, 4)), ""));
    assert_eq!(rt; content(&came, 0), FIRST_OF_TWO);
    assert_eq!(rt; content(&came, 1), FIRST_OF_FOUR);
    Ok(())
}

#[test]
fn journals_that_do_not_open_are_refused(rt: HostRuntime) -> Result<(), Fail> {
    let alloc = rt.alloc();
    let three = with_words(RESERVE_ON_THREE);
    let came = run(
        alloc,
        &three,
        sites(alloc, &[FIRST_OF_FOUR, SECOND_OF_FOUR, &[]])?,
    )?;
    assert!(rt; is_end(&came, Some(Fault::WrongLane(0, 0, 4)), ""));
    assert_eq!(rt; came.ended.status, 23);
    let four = with_words(RESERVE_ON_FOUR);
    let came = run(
        alloc,
        &four,
        sites(alloc, &[SECOND_OF_FOUR, FIRST_OF_FOUR, &[], &[]])?,
    )?;
    assert!(rt; is_end(&came, Some(Fault::WrongLane(0, 1, 4)), ""));
    let one = with_jobs(HEADER);
    assert!(rt; came_to(alloc, &one, &[], Some(Fault::Unformatted(0)), "", 0)?);
    assert!(rt; came_to(alloc, &one, DAMAGED, Some(Fault::Damaged(0, 1)), "", 21)?);
    let other = [
        0x5A, 0x4F, 0x54, 0x41, 0x4A, 0x01, 0x00, 0x00, 0x00, 0x01, 0x00, 0x00,
    ];
    assert!(rt; came_to(alloc, &one, &other, Some(Fault::NotAJournal(0)), "", 12)?);
    Ok(())
}

#[test]
fn other_words_are_refused(rt: HostRuntime) -> Result<(), Fail> {
    let alloc = rt.alloc();
    let none: [&str; 0] = [];
    assert!(rt; came_to(alloc, &with_words(&none), EMPTY, Some(Fault::Usage), "", 11)?);
    assert!(rt;
        came_to(
            alloc,
            &with_words(RESERVE_ON_TWO),
            EMPTY,
            Some(Fault::Usage),
            "",
            11
        )?
    );
    let no_path = ["format", "--lanes", "1", "--store", ""];
    assert!(rt;
        came_to(
            alloc,
            &with_words(&no_path),
            EMPTY,
            Some(Fault::Usage),
            "",
            11
        )?
    );
    let an_option = [
        "reserve", "--lanes", "1", "--store", "--plan", "--plan", "p", "--jobs", "j",
    ];
    assert!(rt;
        came_to(
            alloc,
            &with_words(&an_option),
            EMPTY,
            Some(Fault::Usage),
            "",
            11
        )?
    );
    Ok(())
}

#[test]
fn words_say_their_command_and_lanes(rt: HostRuntime) -> Result<(), Fail> {
    let alloc = rt.alloc();
    let cases: [(&str, Option<u16>); 6] = [
        ("0", None),
        ("1", Some(1)),
        ("064", Some(64)),
        ("65", None),
        ("+4", None),
        ("", None),
    ];
    for (count, lanes) in cases {
        let words = words_of(alloc, &["format", "--lanes", count, "--store", "s"])?;
        let said = match lanes {
            None => None,
            Some(lanes) => Some(Words {
                command: Command::Format,
                lanes,
            }),
        };
        assert!(rt; read_words(&words) == said, "{count}");
    }
    Ok(())
}

#[test]
fn inputs_without_a_reading_are_refused(rt: HostRuntime) -> Result<(), Fail> {
    let alloc = rt.alloc();
    let mut no_plan = with_jobs(HEADER);
    no_plan.plan = "campaign";
    let fault = Fault::PlanRefused(Table::Top, 0, Field::Text);
    assert!(rt; came_to(alloc, &no_plan, EMPTY, Some(fault), "", 11)?);
    let mut one_key = with_jobs(HEADER);
    one_key.plan = ONE_KEY_PLAN;
    let fault = Fault::PlanRefused(Table::Keyset, 2, Field::Kid);
    assert!(rt; came_to(alloc, &one_key, EMPTY, Some(fault), "", 11)?);
    let twice = text_of(alloc, &[HEADER, FIRST, FIRST])?;
    let fault = Fault::JobsRefused(2, Column::Job);
    assert!(rt; came_to(alloc, &with_jobs(&twice), EMPTY, Some(fault), "", 11)?);
    Ok(())
}

#[test]
fn a_source_that_fails_is_named(rt: HostRuntime) -> Result<(), Fail> {
    let alloc = rt.alloc();
    let first = [1];
    let mut deaf_plan = with_jobs(HEADER);
    deaf_plan.plan_fails = &first;
    let fault = Fault::SourceFault(Which::Plan);
    assert!(rt; came_to(alloc, &deaf_plan, EMPTY, Some(fault), "", 11)?);
    let second = [2];
    let mut deaf_jobs = with_jobs(HEADER);
    deaf_jobs.jobs_fails = &second;
    let fault = Fault::SourceFault(Which::Jobs);
    assert!(rt; came_to(alloc, &deaf_jobs, EMPTY, Some(fault), "", 11)?);
    Ok(())
}

#[test]
fn a_full_sink_has_the_front_of_the_text(rt: HostRuntime) -> Result<(), Fail> {
    let alloc = rt.alloc();
    let jobs = text_of(alloc, &[HEADER, FIRST])?;
    let mut small = with_jobs(&jobs);
    small.room = 10;
    assert!(rt;
        came_to(
            alloc,
            &small,
            EMPTY,
            Some(Fault::SinkFault),
            "job,card,k",
            164
        )?
    );
    Ok(())
}

#[test]
fn an_input_has_at_most_its_greatest_length(rt: HostRuntime) -> Result<(), Fail> {
    let alloc = rt.alloc();
    let words = words_of(alloc, RESERVE)?;
    let mut plan = MemSource::new(vec![in alloc; b'a'; 8_388_609]?, Vec::new(alloc));
    let mut jobs = MemSource::new(Vec::new(alloc), Vec::new(alloc));
    let mut out = MemSink::new(alloc, 0, Vec::new(alloc)).map_err(|_| AllocError)?;
    let sites = sites(alloc, &[EMPTY])?;
    let ended = plain_command(alloc, &words, &mut plan, &mut jobs, &mut out, sites);
    assert!(rt; ended.fault == Some(Fault::InputTooLong(Which::Plan)));
    assert!(rt; ended.status == 13);
    Ok(())
}

#[test]
fn another_number_of_sites_is_refused(rt: HostRuntime) -> Result<(), Fail> {
    let alloc = rt.alloc();
    let came = run(alloc, &with_jobs(HEADER), Vec::new(alloc))?;
    assert!(rt; is_end(&came, Some(Fault::Usage), ""));
    assert!(rt; came.ended.ends.is_empty());
    Ok(())
}

/// The octets of parts, one behind the other.
fn joined(alloc: Global, parts: &[&[u8]]) -> Result<Vec<u8>, AllocError> {
    let mut octets = Vec::new(alloc);
    for part in parts {
        octets.extend_from_slice(part)?;
    }
    Ok(octets)
}

#[test]
fn a_done_job_has_the_octets_of_its_answer(rt: HostRuntime) -> Result<(), Fail> {
    let alloc = rt.alloc();
    let jobs = text_of(alloc, &[HEADER, FIRST])?;
    let report = text_of(alloc, &[REPORT_HEADER, "1,8901,1,done,0000000001,aabbcc\n"])?;
    let journal = joined(alloc, &[HEAD_OF_ONE, OPEN, RESERVED, DONE, CLOSED_GATE])?;
    assert_eq!(rt; journal.len(), 167);
    assert!(rt; came_to(alloc, &with_jobs(&jobs), &journal, None, &report, 178)?);
    let shown = with(PACKET, &jobs);
    assert!(rt; came_to(alloc, &shown, &journal, None, PACKETS_HEADER, 178)?);
    Ok(())
}

#[test]
fn a_refused_job_has_its_status(rt: HostRuntime) -> Result<(), Fail> {
    let alloc = rt.alloc();
    let jobs = text_of(alloc, &[HEADER, FIRST])?;
    let report = text_of(alloc, &[REPORT_HEADER, "1,8901,1,refused,0000000001,09\n"])?;
    let journal = joined(alloc, &[HEAD_OF_ONE, OPEN, RESERVED, REFUSED, CLOSED_GATE])?;
    assert!(rt; came_to(alloc, &with_jobs(&jobs), &journal, None, &report, 176)?);
    Ok(())
}

/// A journal in which a long answer leaves 69 octets of room behind the mark of version 2.
fn nearly_full(alloc: Global) -> Result<Vec<u8>, AllocError> {
    let mut journal = joined(alloc, &[HEAD_OF_ONE, OPEN, RESERVED, LONG_DONE])?;
    let answer = vec![in alloc; 0; 16_776_972]?;
    journal.extend_from_slice(&answer)?;
    journal.extend_from_slice(CLOSED_GATE)?;
    Ok(journal)
}

#[test]
fn a_full_journal_takes_no_reservation(rt: HostRuntime) -> Result<(), Fail> {
    let alloc = rt.alloc();
    let jobs = text_of(alloc, &[HEADER, SECOND])?;
    let report = text_of(alloc, &[REPORT_HEADER, "2,8901,1,unsettled,-,-\n"])?;
    let journal = nearly_full(alloc)?;
    let full = Fault::Full(0, 16_777_147, 70);
    assert!(rt;
        came_to(
            alloc,
            &with_jobs(&jobs),
            &journal,
            Some(full),
            &report,
            16_777_147
        )?
    );
    assert_eq!(rt; full.status(), 24);
    Ok(())
}

#[test]
fn each_fault_has_its_text(rt: HostRuntime) -> Result<(), Fail> {
    let alloc = rt.alloc();
    let keyset = KeysetId {
        card: CardId(8901),
        kvn: 15,
    };
    let cases = [
        (
            Fault::Usage,
            "usage: ota format, reserve, send, report, close, cards, packet, drill",
        ),
        (
            Fault::PlanRefused(Table::Top, 0, Field::Text),
            "plan refused: top 0 text",
        ),
        (
            Fault::PlanRefused(Table::Keyset, 12, Field::CardOf),
            "plan refused: keyset 12 cardof",
        ),
        (
            Fault::JobsRefused(3, Column::Script),
            "jobs refused: row 3 script",
        ),
        (Fault::InputTooLong(Which::Plan), "input too long: plan"),
        (Fault::InputTooLong(Which::Jobs), "input too long: jobs"),
        (
            Fault::JobDiffers(4_294_967_295, Counter(0)),
            "job differs: row 4294967295 counter 0000000000",
        ),
        (
            Fault::JobDiffers(7, Counter(0x01_0203_ABCD)),
            "job differs: row 7 counter 010203abcd",
        ),
        (
            Fault::JobDiffers(1, Counter(0xFF_FFFF_FFFE)),
            "job differs: row 1 counter fffffffffe",
        ),
        (
            Fault::KeysetDiffers(keyset),
            "keyset differs: card 8901 kvn 15",
        ),
        (
            Fault::KeysetClosed(keyset),
            "keyset closed: card 8901 kvn 15",
        ),
        (
            Fault::KeysetUnknown(keyset),
            "keyset unknown: card 8901 kvn 15",
        ),
        (Fault::SourceFault(Which::Plan), "read fault: plan"),
        (Fault::SourceFault(Which::Jobs), "read fault: jobs"),
        (Fault::SinkFault, "write fault"),
        (Fault::SiteFault(63), "site fault: lane 63"),
        (Fault::NotAJournal(0), "not a journal: lane 0"),
        (
            Fault::WrongLane(1, 2, 64),
            "wrong lane: place 1 holds 2 of 64",
        ),
        (
            Fault::Damaged(5, 4_294_967_296),
            "damaged journal: lane 5 record 4294967296",
        ),
        (
            Fault::Full(0, 16_777_147, 70),
            "journal full: lane 0 length 16777147 need 70",
        ),
        (Fault::Unformatted(2), "not formatted: lane 2"),
        (Fault::Memory, "out of memory"),
    ];
    for (fault, text) in cases {
        let written = format!(in alloc; "{fault}")?;
        assert_eq!(rt; written.as_str(), text);
    }
    Ok(())
}
