// Sessions of two lanes on disks in memory: what each lane holds afterwards.
ghost use Rattle.std.specs.Prelude.{◌≡◌, All, IfOk, length};
ghost use Rattle.lane_session.specs.Lanes.{HasScript};

use crate::due::differs_in;
use crate::{
    Lane, OpeningErr, add_for_rows, format_lanes, into_histories, job_difference,
    keyset_difference, open_lanes,
};
use disk_model::{DiskCalls, DiskFault, MemDisk};
use gate_log::LogErr;
use ota_core::{CardId, Counter, Entry, Job, JobId, KeysetId, Memory, Mode, Octets, Tar};
use plan_reader::{Plan, read_plan};
use std::alloc::Global;
use std::test::Fail;

/// The plan of card 8900, which is of lane 0 of 2.
const EVEN_PLAN: &str =
    "campaign = 7\n[[card]]\nnumber = 8900\n[[keyset]]\ncard = 8900\nkvn = 1\nkic = \"000102030405060708090a0b0c0d0e0f\"\nkid = \"2b7e151628aed2a6abf7158809cf4f3c\"\n";

/// The plan of card 8901, which is of lane 1 of 2.
const ODD_PLAN: &str =
    "campaign = 7\n[[card]]\nnumber = 8901\n[[keyset]]\ncard = 8901\nkvn = 1\nkic = \"000102030405060708090a0b0c0d0e0f\"\nkid = \"2b7e151628aed2a6abf7158809cf4f3c\"\n";

/// The same with another key for the cryptographic checksum.
const ODD_PLAN_OTHER_KID: &str =
    "campaign = 7\n[[card]]\nnumber = 8901\n[[keyset]]\ncard = 8901\nkvn = 1\nkic = \"000102030405060708090a0b0c0d0e0f\"\nkid = \"2b7e151628aed2a6abf7158809cf4f3d\"\n";

/// The plan of card 8901, and card 8900 with another key in a keyset that is put later.
const LATER_PLAN: &str =
    "campaign = 7\n[[card]]\nnumber = 8900\n[[card]]\nnumber = 8901\n[[keyset]]\ncard = 8900\nkvn = 1\nkic = \"000102030405060708090a0b0c0d0e0f\"\nkid = \"000102030405060708090a0b0c0d0e0f\"\nput = true\n[[keyset]]\ncard = 8901\nkvn = 1\nkic = \"000102030405060708090a0b0c0d0e0f\"\nkid = \"2b7e151628aed2a6abf7158809cf4f3c\"\n";

const KIC: [u8; 16] = [
    0x00, 0x01, 0x02, 0x03, 0x04, 0x05, 0x06, 0x07, 0x08, 0x09, 0x0A, 0x0B, 0x0C, 0x0D, 0x0E, 0x0F,
];

const KID: [u8; 16] = [
    0x2B, 0x7E, 0x15, 0x16, 0x28, 0xAE, 0xD2, 0xA6, 0xAB, 0xF7, 0x15, 0x88, 0x09, 0xCF, 0x4F, 0x3C,
];

/// Three commands of a file script.
const SCRIPT: [u8; 22] = [
    0x00, 0xA4, 0x00, 0x00, 0x02, 0x7F, 0x10, 0x00, 0xA4, 0x00, 0x00, 0x02, 0x6F, 0x3A, 0x00, 0xD6,
    0x00, 0x00, 0x03, 0xAA, 0xBB, 0xCC,
];

/// The journals of lane 0 and of lane 1 of 2, without entries.
const EVEN: &[u8] = &[
    0xA5, 0x4F, 0x54, 0x41, 0x4A, 0x01, 0x00, 0x00, 0x00, 0x02, 0x00,
];

const ODD: &[u8] = &[
    0xA5, 0x4F, 0x54, 0x41, 0x4A, 0x01, 0x00, 0x01, 0x00, 0x02, 0x00,
];

/// The journal of lane 0 of 2 with the Open of keyset 1 of card 8900 (22C4) from the counter 0. 75 octets.
const EVEN_OPENED: &[u8] = &[
    0xA5, 0x4F, 0x54, 0x41, 0x4A, 0x01, 0x00, 0x00, 0x00, 0x02, 0xA5, 0x00, 0x00, 0x00, 0x3B, 0x00,
    0x00, 0x00, 0x37, 0x01, 0x00, 0x00, 0x00, 0x00, 0x00, 0x00, 0x00, 0x00, 0x00, 0x00, 0x22, 0xC4,
    0x01, 0x00, 0x00, 0x00, 0x00, 0x00, 0x02, 0x01, 0x10, 0x00, 0x01, 0x02, 0x03, 0x04, 0x05, 0x06,
    0x07, 0x08, 0x09, 0x0A, 0x0B, 0x0C, 0x0D, 0x0E, 0x0F, 0x10, 0x2B, 0x7E, 0x15, 0x16, 0x28, 0xAE,
    0xD2, 0xA6, 0xAB, 0xF7, 0x15, 0x88, 0x09, 0xCF, 0x4F, 0x3C, 0x00,
];

/// The journal of lane 1 of 2 with the Open of keyset 1 of card 8901 (22C5) from the counter FF FFFF FFFD. 75 octets.
const ODD_ALMOST_OUT: &[u8] = &[
    0xA5, 0x4F, 0x54, 0x41, 0x4A, 0x01, 0x00, 0x01, 0x00, 0x02, 0xA5, 0x00, 0x00, 0x00, 0x3B, 0x00,
    0x00, 0x00, 0x37, 0x01, 0x00, 0x00, 0x00, 0x00, 0x00, 0x00, 0x00, 0x00, 0x00, 0x00, 0x22, 0xC5,
    0x01, 0xFF, 0xFF, 0xFF, 0xFF, 0xFD, 0x02, 0x01, 0x10, 0x00, 0x01, 0x02, 0x03, 0x04, 0x05, 0x06,
    0x07, 0x08, 0x09, 0x0A, 0x0B, 0x0C, 0x0D, 0x0E, 0x0F, 0x10, 0x2B, 0x7E, 0x15, 0x16, 0x28, 0xAE,
    0xD2, 0xA6, 0xAB, 0xF7, 0x15, 0x88, 0x09, 0xCF, 0x4F, 0x3C, 0x00,
];

/// The same lane and keyset: opened from the counter 0, and closed. 98 octets.
const ODD_CLOSED: &[u8] = &[
    0xA5, 0x4F, 0x54, 0x41, 0x4A, 0x01, 0x00, 0x01, 0x00, 0x02, 0xA5, 0x00, 0x00, 0x00, 0x3B, 0x00,
    0x00, 0x00, 0x37, 0x01, 0x00, 0x00, 0x00, 0x00, 0x00, 0x00, 0x00, 0x00, 0x00, 0x00, 0x22, 0xC5,
    0x01, 0x00, 0x00, 0x00, 0x00, 0x00, 0x02, 0x01, 0x10, 0x00, 0x01, 0x02, 0x03, 0x04, 0x05, 0x06,
    0x07, 0x08, 0x09, 0x0A, 0x0B, 0x0C, 0x0D, 0x0E, 0x0F, 0x10, 0x2B, 0x7E, 0x15, 0x16, 0x28, 0xAE,
    0xD2, 0xA6, 0xAB, 0xF7, 0x15, 0x88, 0x09, 0xCF, 0x4F, 0x3C, 0xA5, 0x00, 0x00, 0x00, 0x12, 0x00,
    0x00, 0x00, 0x0E, 0x05, 0x00, 0x00, 0x00, 0x00, 0x00, 0x00, 0x00, 0x00, 0x00, 0x00, 0x22, 0xC5,
    0x01, 0x00,
];

fn plan(alloc: Global, text: &str) -> Result<Plan, Fail> {
    Ok(read_plan(alloc, text.as_bytes())?)
}

/// A job of campaign 7 on keyset 1 of a card.
fn row(alloc: Global, number: u32, card: u64) -> Result<Job, Memory>
    ensures { IfOk result HasScript }
{
    let body = Octets::from_slice(alloc, &SCRIPT)?;
    Ok(Job {
        id: JobId {
            campaign: 7,
            job: number,
        },
        keyset: KeysetId {
            card: CardId(card),
            kvn: 1,
        },
        tar: Tar([0xB0, 0x00, 0x10]),
        body,
    })
}

/// A disk of each lane that holds these octets. The second fails at this call, where it isn't 0.
fn disks(alloc: Global, even: &[u8], odd: &[u8], call: u64) -> Result<Vec<MemDisk>, Fail> {
    let first = MemDisk::of(alloc, even)?;
    let second = MemDisk::of(alloc, odd)?.failing(vec![in alloc; call]?);
    Ok(vec![in alloc; first, second]?)
}

/// A row on card 8901, a row on card 8900, and a second row on card 8901.
fn rows(alloc: Global) -> Result<Vec<Job>, Memory>
    ensures { IfOk result (λ rows. All HasScript rows.items) }
{
    let first = row(alloc, 1, 8901)?;
    let second = row(alloc, 2, 8900)?;
    let third = row(alloc, 3, 8901)?;
    Ok(vec![in alloc; first, second, third]?)
}

/// Opens the journals and adds what is due to these rows by a plan. The lanes then.
fn session<D: DiskCalls>(alloc: Global, sites: &mut [D], text: &str) -> Result<Vec<Lane>, Fail> {
    if sites.len() != 2 {
        return Err(Fail::from("there are two lanes"));
    }
    let plan = plan(alloc, text)?;
    let jobs = rows(alloc)?;
    let mut lanes = open_lanes(alloc, sites)?;
    add_for_rows(alloc, &mut lanes, sites, &plan, &jobs);
    Ok(lanes)
}

/// Whether the lane goes on, its journal has so many octets, and it holds the Open of its card from this base and
/// behind it these counters, each with its job.
fn goes_on(lane: &Lane, length: u64, card: u64, base: u64, reserved: &[(u64, u32)]) -> bool {
    lane.end.is_none()
        && lane.journal.length() == length
        && holds(lane.journal.history().entries(), card, base, reserved)
}

/// Whether the lane came to this end, with so many octets and so many entries.
fn ended(lane: &Lane, length: u64, entries: usize, end: Option<LogErr>) -> bool {
    lane.end == end
        && lane.journal.length() == length
        && lane.journal.history().entries().len() == entries
}

fn holds(entries: &[Entry], card: u64, base: u64, reserved: &[(u64, u32)]) -> bool {
    match entries.split_first() {
        None => false,
        Some((first, rest)) => is_open(first, card, base) && are_reserved(rest, card, reserved),
    }
}

fn is_open(entry: &Entry, card: u64, base: u64) -> bool {
    match entry {
        Entry::Open {
            by,
            moment,
            keyset,
            facts,
        } => {
            *by == 0
                && *moment == 0
                && keyset.card == CardId(card)
                && keyset.kvn == 1
                && facts.base.0 == base
                && facts.mode == Mode::Higher
                && facts.ciphered
                && facts.kic.as_slice() == KIC.as_slice()
                && facts.kid.as_slice() == KID.as_slice()
        }
        _ => false,
    }
}

fn are_reserved(entries: &[Entry], card: u64, reserved: &[(u64, u32)]) -> bool {
    if entries.len() != reserved.len() {
        return false;
    }
    for i in 0..entries.len() {
        let (counter, job) = reserved[i];
        if !is_reserve(&entries[i], card, counter, job) {
            return false;
        }
    }
    true
}

fn is_reserve(entry: &Entry, card: u64, number: u64, row: u32) -> bool {
    match entry {
        Entry::Reserve {
            by,
            moment,
            keyset,
            counter,
            job,
            tar,
            name,
            body,
        } => {
            *by == 0
                && *moment == 0
                && name.as_slice().is_empty()
                && keyset.card == CardId(card)
                && keyset.kvn == 1
                && counter.0 == number
                && job.campaign == 7
                && job.job == row
                && *tar == Tar([0xB0, 0x00, 0x10])
                && body.as_slice() == SCRIPT.as_slice()
        }
        _ => false,
    }
}

#[test]
fn rows_are_reserved_on_the_lanes_of_their_cards(rt: HostRuntime) -> Result<(), Fail> {
    let alloc = rt.alloc();
    let mut disks = disks(alloc, EVEN_OPENED, ODD, 0)?;
    let lanes = session(alloc, &mut disks, ODD_PLAN)?;
    assert_eq!(rt; lanes.len(), 2);
    // the mark of version 2 has 11 octets, and each entry a batch of its own: 9 octets beside the 63 of an Open and the 61
    // of a reservation
    assert!(rt; goes_on(&lanes[0], 156, 8900, 0, &[(1, 2)]));
    assert!(rt; goes_on(&lanes[1], 234, 8901, 0, &[(1, 1), (2, 3)]));
    Ok(())
}

#[test]
fn a_second_session_adds_nothing(rt: HostRuntime) -> Result<(), Fail> {
    let alloc = rt.alloc();
    let mut disks = disks(alloc, EVEN_OPENED, ODD, 0)?;
    session(alloc, &mut disks, ODD_PLAN)?;
    let lanes = session(alloc, &mut disks, ODD_PLAN)?;
    assert_eq!(rt; lanes.len(), 2);
    assert!(rt; goes_on(&lanes[0], 156, 8900, 0, &[(1, 2)]));
    assert!(rt; goes_on(&lanes[1], 234, 8901, 0, &[(1, 1), (2, 3)]));
    Ok(())
}

#[test]
fn a_keyset_that_no_plan_has_is_not_opened(rt: HostRuntime) -> Result<(), Fail> {
    let alloc = rt.alloc();
    let mut disks = disks(alloc, EVEN, ODD, 0)?;
    let lanes = session(alloc, &mut disks, EVEN_PLAN)?;
    assert_eq!(rt; lanes.len(), 2);
    assert!(rt; goes_on(&lanes[0], 164, 8900, 0, &[(1, 2)]));
    assert!(rt; ended(&lanes[1], 22, 0, None));
    // the plan of a later session has it
    let lanes = session(alloc, &mut disks, ODD_PLAN)?;
    assert_eq!(rt; lanes.len(), 2);
    assert!(rt; goes_on(&lanes[0], 164, 8900, 0, &[(1, 2)]));
    assert!(rt; goes_on(&lanes[1], 234, 8901, 0, &[(1, 1), (2, 3)]));
    Ok(())
}

#[test]
fn no_counter_behind_the_last_is_reserved(rt: HostRuntime) -> Result<(), Fail> {
    let alloc = rt.alloc();
    let mut disks = disks(alloc, EVEN, ODD_ALMOST_OUT, 0)?;
    let lanes = session(alloc, &mut disks, ODD_PLAN)?;
    assert_eq!(rt; lanes.len(), 2);
    let last = [(0xFF_FFFF_FFFE, 1)];
    assert!(rt; goes_on(&lanes[1], 156, 8901, 0xFF_FFFF_FFFD, &last));
    Ok(())
}

#[test]
fn a_closed_keyset_is_left(rt: HostRuntime) -> Result<(), Fail> {
    let alloc = rt.alloc();
    let mut disks = disks(alloc, EVEN, ODD_CLOSED, 0)?;
    let lanes = session(alloc, &mut disks, ODD_PLAN)?;
    assert_eq!(rt; lanes.len(), 2);
    assert!(rt; ended(&lanes[1], 109, 2, None));
    Ok(())
}

/// Whether lane 1 stops at this call of its disk, with so many octets and entries, while lane 0 goes on.
fn stops(alloc: Global, call: u64, length: u64, entries: usize) -> Result<bool, Fail> {
    let mut disks = disks(alloc, EVEN_OPENED, ODD, call)?;
    let lanes = session(alloc, &mut disks, ODD_PLAN)?;
    if lanes.len() != 2 || disks.len() != 2 {
        return Ok(false);
    }
    let end = Some(LogErr::DiskFault(DiskFault::Failed));
    let goes_on = goes_on(&lanes[0], 156, 8900, 0, &[(1, 2)]);
    // no call follows the one that failed
    let is_last = disks[1].calls().len() as u64 == call;
    Ok(goes_on && is_last && ended(&lanes[1], length, entries, end))
}

// An opening makes the calls sync, len and read, and adds the mark of version 2 as an addition does: by write, sync, write
// and sync.
#[test]
fn a_lane_whose_disk_fails_stops_alone(rt: HostRuntime) -> Result<(), Fail> {
    let alloc = rt.alloc();
    for call in 8..12 {
        assert!(rt; stops(alloc, call, 22, 0)?);
    }
    for call in 12..16 {
        assert!(rt; stops(alloc, call, 94, 1)?);
    }
    for call in 16..20 {
        assert!(rt; stops(alloc, call, 164, 2)?);
    }
    Ok(())
}

/// Why the journals on these disks aren't opened.
fn refusal(alloc: Global, even: &[u8], odd: &[u8], call: u64) -> Result<Option<OpeningErr>, Fail> {
    let mut disks = disks(alloc, even, odd, call)?;
    if disks.len() != 2 {
        return Ok(None);
    }
    Ok(open_lanes(alloc, &mut disks).err())
}

#[test]
fn the_first_journal_that_is_none_of_its_lane_is_named(rt: HostRuntime) -> Result<(), Fail> {
    let alloc = rt.alloc();
    let other = LogErr::OtherHead([0, 0, 0, 2]);
    let refused = Some(OpeningErr::Refused(1, other));
    assert_eq!(rt; refusal(alloc, EVEN, EVEN, 0)?, refused);
    let other = LogErr::OtherHead([0, 1, 0, 2]);
    let refused = Some(OpeningErr::Refused(0, other));
    assert_eq!(rt; refusal(alloc, ODD, EVEN, 0)?, refused);
    let failed = LogErr::DiskFault(DiskFault::Failed);
    let refused = Some(OpeningErr::Refused(1, failed));
    assert_eq!(rt; refusal(alloc, EVEN, ODD, 5)?, refused);
    Ok(())
}

#[test]
fn a_row_that_is_unlike_its_reservation_differs(rt: HostRuntime) -> Result<(), Fail> {
    let alloc = rt.alloc();
    let mut disks = disks(alloc, EVEN_OPENED, ODD, 0)?;
    let lanes = session(alloc, &mut disks, ODD_PLAN)?;
    assert_eq!(rt; lanes.len(), 2);
    let entries = lanes[1].journal.history().entries();
    assert_eq!(rt; differs_in(entries, &row(alloc, 3, 8901)?), None);
    assert_eq!(rt; differs_in(entries, &row(alloc, 4, 8903)?), None);
    assert_eq!(rt;
        differs_in(entries, &row(alloc, 3, 8903)?),
        Some(Counter(2))
    );
    let mut shorter = row(alloc, 3, 8901)?;
    shorter.body = Octets::from_slice(alloc, &SCRIPT[..21])?;
    assert_eq!(rt; differs_in(entries, &shorter), Some(Counter(2)));
    Ok(())
}

/// Makes the journals of two lanes.
fn made<D: DiskCalls>(sites: &mut [D]) -> Result<Result<(), OpeningErr>, Fail> {
    if sites.len() != 2 {
        return Err(Fail::from("there are two lanes"));
    }
    Ok(format_lanes(sites))
}

/// Whether the making of the journals of lanes 0 and 1 of 2 answers so on disks of these octets, and leaves those. The
/// second disk fails at this call, where it isn't 0.
fn are_made(
    alloc: Global,
    octets: (&[u8], &[u8]),
    call: u64,
    answer: Result<(), OpeningErr>,
    left: (&[u8], &[u8]),
) -> Result<bool, Fail> {
    let mut disks = disks(alloc, octets.0, octets.1, call)?;
    let is_answer = made(&mut disks)? == answer;
    if disks.len() != 2 {
        return Ok(false);
    }
    Ok(is_answer && disks[0].content() == left.0 && disks[1].content() == left.1)
}

#[test]
fn each_lane_has_a_journal_made(rt: HostRuntime) -> Result<(), Fail> {
    let alloc = rt.alloc();
    assert!(rt; are_made(alloc, (&[], &[]), 0, Ok(()), (EVEN, ODD))?);
    let whole = (EVEN_OPENED, ODD_CLOSED);
    assert!(rt; are_made(alloc, whole, 0, Ok(()), whole)?);
    let second = (EVEN_OPENED, ODD);
    assert!(rt; are_made(alloc, (EVEN_OPENED, &[]), 0, Ok(()), second)?);
    let text = b"no journal at all".as_slice();
    let not_a_log = Err(OpeningErr::Refused(1, LogErr::NotALog));
    assert!(rt; are_made(alloc, (&[], text), 0, not_a_log, (EVEN, text))?);
    let failed = LogErr::DiskFault(DiskFault::Failed);
    let failed = Err(OpeningErr::Refused(1, failed));
    assert!(rt; are_made(alloc, (&[], &[]), 1, failed, (EVEN, &[]))?);
    // a lane that is refused leaves those behind it as they are
    let other = LogErr::OtherHead([0, 1, 0, 2]);
    let other = Err(OpeningErr::Refused(0, other));
    assert!(rt; are_made(alloc, (ODD, &[]), 0, other, (ODD, &[]))?);
    Ok(())
}

/// The keyset that a plan has otherwise than the lanes after a session.
fn otherwise(alloc: Global, odd: &[u8], text: &str) -> Result<Option<KeysetId>, Fail> {
    let mut disks = disks(alloc, EVEN_OPENED, odd, 0)?;
    let lanes = session(alloc, &mut disks, ODD_PLAN)?;
    Ok(keyset_difference(&lanes, &plan(alloc, text)?))
}

#[test]
fn a_keyset_with_other_facts_than_the_plan_is_named(rt: HostRuntime) -> Result<(), Fail> {
    let alloc = rt.alloc();
    let keyset = Some(KeysetId {
        card: CardId(8901),
        kvn: 1,
    });
    assert_eq!(rt; otherwise(alloc, ODD, ODD_PLAN)?, None);
    assert_eq!(rt; otherwise(alloc, ODD, EVEN_PLAN)?, None);
    assert_eq!(rt; otherwise(alloc, ODD, ODD_PLAN_OTHER_KID)?, keyset);
    // opened from another counter
    assert_eq!(rt; otherwise(alloc, ODD_ALMOST_OUT, ODD_PLAN)?, keyset);
    // one that is put later stands behind the others
    assert_eq!(rt; otherwise(alloc, ODD_ALMOST_OUT, LATER_PLAN)?, keyset);
    let later = Some(KeysetId {
        card: CardId(8900),
        kvn: 1,
    });
    assert_eq!(rt; otherwise(alloc, ODD, LATER_PLAN)?, later);
    Ok(())
}

/// Job 1 on card 8901, and a second row: a job on a card, with this script.
fn two_rows(alloc: Global, job: u32, card: u64, script: &[u8]) -> Result<Vec<Job>, Memory>
    ensures { IfOk result (λ rows. length rows.items ≡ 2) }
{
    let first = row(alloc, 1, 8901)?;
    let mut second = row(alloc, job, card)?;
    second.body = Octets::from_slice(alloc, script)?;
    Ok(vec![in alloc; first, second]?)
}

#[test]
fn the_first_row_that_a_lane_holds_otherwise_is_named(rt: HostRuntime) -> Result<(), Fail> {
    let alloc = rt.alloc();
    let mut disks = disks(alloc, EVEN_OPENED, ODD, 0)?;
    let lanes = session(alloc, &mut disks, ODD_PLAN)?;
    let other = b"another script".as_slice();
    let same = two_rows(alloc, 3, 8901, &SCRIPT)?;
    assert_eq!(rt; job_difference(&lanes, &same), None);
    let new = two_rows(alloc, 4, 8901, other)?;
    assert_eq!(rt; job_difference(&lanes, &new), None);
    let second = Some((2, Counter(2)));
    let on_card = two_rows(alloc, 3, 8900, &SCRIPT)?;
    assert_eq!(rt; job_difference(&lanes, &on_card), second);
    let with_script = two_rows(alloc, 3, 8901, other)?;
    assert_eq!(rt; job_difference(&lanes, &with_script), second);
    // the reservation of job 2 is on lane 0
    let on_lane = two_rows(alloc, 2, 8901, &SCRIPT)?;
    assert_eq!(rt; job_difference(&lanes, &on_lane), Some((2, Counter(1))));
    Ok(())
}

#[test]
fn each_lane_gives_its_history(rt: HostRuntime) -> Result<(), Fail> {
    let alloc = rt.alloc();
    let mut disks = disks(alloc, EVEN_OPENED, ODD, 0)?;
    let lanes = session(alloc, &mut disks, ODD_PLAN)?;
    let histories = into_histories(alloc, lanes)?;
    assert_eq!(rt; histories.len(), 2);
    assert!(rt; holds(histories[0].entries(), 8900, 0, &[(1, 2)]));
    assert!(rt; holds(histories[1].entries(), 8901, 0, &[(1, 1), (2, 3)]));
    Ok(())
}
