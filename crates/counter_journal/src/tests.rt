// Journals on disks in memory: their octets, what they hold, what is refused, and what stands after a stop at each call.
ghost use Rattle.std.specs.Prelude.{◌≡◌, ◌<◌, ◌≤◌, length, IfOk};
ghost use Rattle.counter_journal.specs.EntryRanges.{IsSized, IsOfLane};

use crate::{Journal, format};
use disk_model::{Call, DiskCalls, DiskFault, Image, MemDisk, SimCalls};
use gate_log::LogErr;
use keyset_book::{Book, Looked};
use ota_core::{
    CardId, Counter, Entry, JobId, KeyBytes, KeysetFacts, KeysetId, Memory, Mode, Octets, Tar,
};
use std::alloc::Global;
use std::test::Fail;

/// The journal of lane 0 of 1 without entries. 11 octets.
const EMPTY: [u8; 11] = [
    0xA5, 0x4F, 0x54, 0x41, 0x4A, 0x01, 0x00, 0x00, 0x00, 0x01, 0x00,
];

/// The same once it was opened. 22 octets.
const EMPTY_MARKED: [u8; 22] = [
    0xA5, 0x4F, 0x54, 0x41, 0x4A, 0x01, 0x00, 0x00, 0x00, 0x01, 0xA5, 0x00, 0x00, 0x00, 0x06, 0x00,
    0x00, 0x00, 0x02, 0x06, 0x02, 0x00,
];

/// The keyset 1 of card 8901 (22C5) is opened by the session: counter 0, process only if higher, ciphered, two keys of
/// 16 octets. 55 octets.
const OPEN: &[u8] = &[
    0x01, 0x00, 0x00, 0x00, 0x00, 0x00, 0x00, 0x00, 0x00, 0x00, 0x00, 0x22, 0xC5, 0x01, 0x00, 0x00,
    0x00, 0x00, 0x00, 0x02, 0x01, 0x10, 0x00, 0x01, 0x02, 0x03, 0x04, 0x05, 0x06, 0x07, 0x08, 0x09,
    0x0A, 0x0B, 0x0C, 0x0D, 0x0E, 0x0F, 0x10, 0x2B, 0x7E, 0x15, 0x16, 0x28, 0xAE, 0xD2, 0xA6, 0xAB,
    0xF7, 0x15, 0x88, 0x09, 0xCF, 0x4F, 0x3C,
];

/// Sender 1 reserves its counter 1 for job 1 of campaign 7, the application B00010 and a script of 22 octets. 52 octets.
const RESERVE: &[u8] = &[
    0x02, 0x00, 0x00, 0x00, 0x01, 0x00, 0x00, 0x00, 0x00, 0x00, 0x00, 0x22, 0xC5, 0x01, 0x00, 0x00,
    0x00, 0x00, 0x01, 0x00, 0x00, 0x00, 0x07, 0x00, 0x00, 0x00, 0x01, 0xB0, 0x00, 0x10, 0x00, 0xA4,
    0x00, 0x00, 0x02, 0x7F, 0x10, 0x00, 0xA4, 0x00, 0x00, 0x02, 0x6F, 0x3A, 0x00, 0xD6, 0x00, 0x00,
    0x03, 0xAA, 0xBB, 0xCC,
];

/// Sender 1 reserves its counter 2 for job 2, with the same application and script. 52 octets.
const SECOND: &[u8] = &[
    0x02, 0x00, 0x00, 0x00, 0x01, 0x00, 0x00, 0x00, 0x00, 0x00, 0x00, 0x22, 0xC5, 0x01, 0x00, 0x00,
    0x00, 0x00, 0x02, 0x00, 0x00, 0x00, 0x07, 0x00, 0x00, 0x00, 0x02, 0xB0, 0x00, 0x10, 0x00, 0xA4,
    0x00, 0x00, 0x02, 0x7F, 0x10, 0x00, 0xA4, 0x00, 0x00, 0x02, 0x6F, 0x3A, 0x00, 0xD6, 0x00, 0x00,
    0x03, 0xAA, 0xBB, 0xCC,
];

/// The answer to counter 1 is 036981. 22 octets.
const DONE: &[u8] = &[
    0x03, 0x00, 0x00, 0x00, 0x01, 0x00, 0x00, 0x00, 0x00, 0x00, 0x00, 0x22, 0xC5, 0x01, 0x00, 0x00,
    0x00, 0x00, 0x01, 0x03, 0x69, 0x81,
];

/// Counter 1 is refused with status 09. 20 octets.
const REFUSED: &[u8] = &[
    0x04, 0x00, 0x00, 0x00, 0x01, 0x00, 0x00, 0x00, 0x00, 0x00, 0x00, 0x22, 0xC5, 0x01, 0x00, 0x00,
    0x00, 0x00, 0x01, 0x09,
];

/// The session closes the keyset. 14 octets.
const CLOSE: &[u8] = &[
    0x05, 0x00, 0x00, 0x00, 0x00, 0x00, 0x00, 0x00, 0x00, 0x00, 0x00, 0x22, 0xC5, 0x01,
];

/// The Open in version 2, at moment 0. 63 octets.
const OPEN_2: &[u8] = &[
    0x01, 0x00, 0x00, 0x00, 0x00, 0x00, 0x00, 0x00, 0x00, 0x00, 0x00, 0x22, 0xC5, 0x01, 0x00, 0x00,
    0x00, 0x00, 0x00, 0x00, 0x00, 0x00, 0x00, 0x00, 0x00, 0x00, 0x00, 0x02, 0x01, 0x10, 0x00, 0x01,
    0x02, 0x03, 0x04, 0x05, 0x06, 0x07, 0x08, 0x09, 0x0A, 0x0B, 0x0C, 0x0D, 0x0E, 0x0F, 0x10, 0x2B,
    0x7E, 0x15, 0x16, 0x28, 0xAE, 0xD2, 0xA6, 0xAB, 0xF7, 0x15, 0x88, 0x09, 0xCF, 0x4F, 0x3C,
];

/// The first reservation in version 2, at moment 0 with an empty name. 61 octets.
const RESERVE_2: &[u8] = &[
    0x02, 0x00, 0x00, 0x00, 0x01, 0x00, 0x00, 0x00, 0x00, 0x00, 0x00, 0x22, 0xC5, 0x01, 0x00, 0x00,
    0x00, 0x00, 0x00, 0x00, 0x00, 0x00, 0x00, 0x00, 0x00, 0x00, 0x01, 0x00, 0x00, 0x00, 0x07, 0x00,
    0x00, 0x00, 0x01, 0xB0, 0x00, 0x10, 0x00, 0x00, 0xA4, 0x00, 0x00, 0x02, 0x7F, 0x10, 0x00, 0xA4,
    0x00, 0x00, 0x02, 0x6F, 0x3A, 0x00, 0xD6, 0x00, 0x00, 0x03, 0xAA, 0xBB, 0xCC,
];

/// The second reservation in version 2, at moment 0 with an empty name. 61 octets.
const SECOND_2: &[u8] = &[
    0x02, 0x00, 0x00, 0x00, 0x01, 0x00, 0x00, 0x00, 0x00, 0x00, 0x00, 0x22, 0xC5, 0x01, 0x00, 0x00,
    0x00, 0x00, 0x00, 0x00, 0x00, 0x00, 0x00, 0x00, 0x00, 0x00, 0x02, 0x00, 0x00, 0x00, 0x07, 0x00,
    0x00, 0x00, 0x02, 0xB0, 0x00, 0x10, 0x00, 0x00, 0xA4, 0x00, 0x00, 0x02, 0x7F, 0x10, 0x00, 0xA4,
    0x00, 0x00, 0x02, 0x6F, 0x3A, 0x00, 0xD6, 0x00, 0x00, 0x03, 0xAA, 0xBB, 0xCC,
];

/// The second reservation in version 2, at moment 0102030405060708 in the campaign `spring`. 67 octets.
const NAMED_2: &[u8] = &[
    0x02, 0x00, 0x00, 0x00, 0x01, 0x00, 0x00, 0x00, 0x00, 0x00, 0x00, 0x22, 0xC5, 0x01, 0x01, 0x02,
    0x03, 0x04, 0x05, 0x06, 0x07, 0x08, 0x00, 0x00, 0x00, 0x00, 0x02, 0x00, 0x00, 0x00, 0x07, 0x00,
    0x00, 0x00, 0x02, 0xB0, 0x00, 0x10, 0x06, 0x73, 0x70, 0x72, 0x69, 0x6E, 0x67, 0x00, 0xA4, 0x00,
    0x00, 0x02, 0x7F, 0x10, 0x00, 0xA4, 0x00, 0x00, 0x02, 0x6F, 0x3A, 0x00, 0xD6, 0x00, 0x00, 0x03,
    0xAA, 0xBB, 0xCC,
];

/// The answer in version 2, at moment 0. 30 octets.
const DONE_2: &[u8] = &[
    0x03, 0x00, 0x00, 0x00, 0x01, 0x00, 0x00, 0x00, 0x00, 0x00, 0x00, 0x22, 0xC5, 0x01, 0x00, 0x00,
    0x00, 0x00, 0x00, 0x00, 0x00, 0x00, 0x00, 0x00, 0x00, 0x00, 0x01, 0x03, 0x69, 0x81,
];

/// The refusal in version 2, at moment 0. 28 octets.
const REFUSED_2: &[u8] = &[
    0x04, 0x00, 0x00, 0x00, 0x01, 0x00, 0x00, 0x00, 0x00, 0x00, 0x00, 0x22, 0xC5, 0x01, 0x00, 0x00,
    0x00, 0x00, 0x00, 0x00, 0x00, 0x00, 0x00, 0x00, 0x00, 0x00, 0x01, 0x09,
];

/// The Close in version 2, at moment 0. 22 octets.
const CLOSE_2: &[u8] = &[
    0x05, 0x00, 0x00, 0x00, 0x00, 0x00, 0x00, 0x00, 0x00, 0x00, 0x00, 0x22, 0xC5, 0x01, 0x00, 0x00,
    0x00, 0x00, 0x00, 0x00, 0x00, 0x00,
];

/// The part that says that version 2 begins.
const MARK: &[u8] = &[0x06, 0x02];

/// Three commands of a file script.
const SCRIPT: [u8; 22] = [
    0x00, 0xA4, 0x00, 0x00, 0x02, 0x7F, 0x10, 0x00, 0xA4, 0x00, 0x00, 0x02, 0x6F, 0x3A, 0x00, 0xD6,
    0x00, 0x00, 0x03, 0xAA, 0xBB, 0xCC,
];

const KIC: [u8; 16] = [
    0x00, 0x01, 0x02, 0x03, 0x04, 0x05, 0x06, 0x07, 0x08, 0x09, 0x0A, 0x0B, 0x0C, 0x0D, 0x0E, 0x0F,
];

const KID: [u8; 16] = [
    0x2B, 0x7E, 0x15, 0x16, 0x28, 0xAE, 0xD2, 0xA6, 0xAB, 0xF7, 0x15, 0x88, 0x09, 0xCF, 0x4F, 0x3C,
];

fn keyset() -> KeysetId
    ensures { result.card.0 ≡ 8901 }
{
    KeysetId {
        card: CardId(8901),
        kvn: 1,
    }
}

fn opened_at(moment: u64) -> Result<Entry, Fail>
    ensures sized { IfOk result IsSized }
    ensures of_lane { IfOk result (IsOfLane 0 1) }
{
    let kic = KeyBytes::new(&KIC).ok().ok_or("a key has 16 octets")?;
    let kid = KeyBytes::new(&KID).ok().ok_or("a key has 16 octets")?;
    let facts = KeysetFacts {
        base: Counter(0),
        mode: Mode::Higher,
        ciphered: true,
        kic,
        kid,
    };
    Ok(Entry::Open {
        by: 0,
        moment,
        keyset: keyset(),
        facts,
    })
}

fn opened() -> Result<Entry, Fail>
    ensures sized { IfOk result IsSized }
    ensures of_lane { IfOk result (IsOfLane 0 1) }
{
    opened_at(0)
}

/// The reservation of the counter and of the job of this number.
fn reserved(alloc: Global, number: u32) -> Result<Entry, Memory>
    ensures sized { IfOk result IsSized }
    ensures of_lane { IfOk result (IsOfLane 0 1) }
{
    named(alloc, number, 0, &[])
}

/// The same at this moment, in a campaign of this name.
fn named(alloc: Global, number: u32, moment: u64, name: &[u8]) -> Result<Entry, Memory>
    requires { length name.now ≤ 32 }
    ensures sized { IfOk result IsSized }
    ensures of_lane { IfOk result (IsOfLane 0 1) }
{
    let name = Octets::from_slice(alloc, name)?;
    let body = Octets::from_slice(alloc, &SCRIPT)?;
    Ok(Entry::Reserve {
        by: 1,
        moment,
        keyset: keyset(),
        counter: Counter(u64::from(number)),
        job: JobId {
            campaign: 7,
            job: number,
        },
        tar: Tar([0xB0, 0x00, 0x10]),
        name,
        body,
    })
}

fn done(alloc: Global) -> Result<Entry, Memory>
    ensures sized { IfOk result IsSized }
    ensures of_lane { IfOk result (IsOfLane 0 1) }
{
    let answer = Octets::from_slice(alloc, &[0x03, 0x69, 0x81])?;
    Ok(Entry::Done {
        by: 1,
        moment: 0,
        keyset: keyset(),
        counter: Counter(1),
        answer,
    })
}

fn refused() -> Entry
    ensures sized { IsSized result }
    ensures of_lane { IsOfLane 0 1 result }
{
    Entry::Refused {
        by: 1,
        moment: 0,
        keyset: keyset(),
        counter: Counter(1),
        status: 0x09,
    }
}

fn closed() -> Entry
    ensures sized { IsSized result }
    ensures of_lane { IsOfLane 0 1 result }
{
    Entry::Close {
        by: 0,
        moment: 0,
        keyset: keyset(),
    }
}

/// Octets of a journal of this lane whose entries have these octets, each in a batch of its own.
fn journal(alloc: Global, lane: u8, lanes: u8, parts: &[&[u8]]) -> Result<Vec<u8>, Fail> {
    let mut octets = vec![in alloc; 0xA5, 0x4F, 0x54, 0x41, 0x4A, 0x01, 0x00, lane, 0x00, lanes]?;
    for part in parts {
        let len = part.len() as u64;
        octets.push(0xA5)?;
        octets.extend_from_slice(&len.wrapping_add(4).to_be_bytes()[4..])?;
        octets.extend_from_slice(&len.to_be_bytes()[4..])?;
        octets.extend_from_slice(part)?;
    }
    octets.push(0x00)?;
    Ok(octets)
}

/// The same with an open gate and a batch that runs past the end.
fn broken(alloc: Global, lane: u8, lanes: u8, parts: &[&[u8]]) -> Result<Vec<u8>, Fail> {
    let mut octets = journal(alloc, lane, lanes, parts)?;
    let _ = octets.pop();
    octets.extend_from_slice(&[0xA5, 0, 0, 0, 99])?;
    Ok(octets)
}

/// Whether what the two entries hold beside sender, moment and keyset is the same.
fn have_same(one: &Entry, other: &Entry) -> bool {
    match one {
        Entry::Open { facts, .. } => match other {
            Entry::Open { facts: f, .. } => *facts == *f,
            _ => false,
        },
        Entry::Reserve {
            counter,
            job,
            tar,
            name,
            body,
            ..
        } => match other {
            Entry::Reserve {
                counter: c,
                job: j,
                tar: t,
                name: n,
                body: s,
                ..
            } => {
                *counter == *c
                    && *job == *j
                    && *tar == *t
                    && name.as_slice() == n.as_slice()
                    && body.as_slice() == s.as_slice()
            }
            _ => false,
        },
        Entry::Done {
            counter,
            answer,
            ..
        } => match other {
            Entry::Done {
                counter: c,
                answer: a,
                ..
            } => *counter == *c && answer.as_slice() == a.as_slice(),
            _ => false,
        },
        Entry::Refused {
            counter,
            status,
            ..
        } => match other {
            Entry::Refused {
                counter: c,
                status: s,
                ..
            } => *counter == *c && *status == *s,
            _ => false,
        },
        Entry::Close { .. } => match other {
            Entry::Close { .. } => true,
            _ => false,
        },
    }
}

fn are_same(one: &Entry, other: &Entry) -> bool {
    one.by() == other.by()
        && one.moment() == other.moment()
        && one.keyset() == other.keyset()
        && have_same(one, other)
}

/// Whether these entries are those.
fn are_these(held: &[Entry], entries: &[Entry]) -> bool {
    if held.len() != entries.len() {
        return false;
    }
    for i in 0..held.len() {
        if !are_same(&held[i], &entries[i]) {
            return false;
        }
    }
    true
}

/// Whether the journal of lane 0 of 1 holds these entries.
fn holds<D: DiskCalls>(alloc: Global, disk: &mut D, entries: &[Entry]) -> Result<bool, LogErr> {
    let journal = Journal::open(alloc, disk, 0, 1)?;
    Ok(are_these(journal.history().entries(), entries))
}

/// Whether the journal of lane 0 of 1 gives the history of these entries.
fn gives<D: DiskCalls>(alloc: Global, disk: &mut D, entries: &[Entry]) -> Result<bool, LogErr> {
    let history = Journal::open(alloc, disk, 0, 1)?.into_history();
    Ok(are_these(history.entries(), entries))
}

/// Opens the journal of lane 0 of 1 and adds an entry that may follow. The length of the journal then.
fn added<D: DiskCalls>(alloc: Global, disk: &mut D, entry: Entry) -> Result<u64, LogErr>
    requires sized { IsSized entry }
    requires of_lane { IsOfLane 0 1 entry }
{
    let mut journal = Journal::open(alloc, disk, 0, 1)?;
    if journal.history().may_add(&entry).is_err() {
        return Err(LogErr::Damaged(0));
    }
    let entries = vec![in alloc; entry]?;
    journal.add(disk, entries)?;
    Ok(journal.length())
}

fn made<D: DiskCalls>(disk: &mut D) -> Result<(), LogErr> {
    format(disk, 2, 3)
}

/// Whether the making of the journal of lane 2 of 3 answers so on a disk of these octets, and leaves those.
fn is_made(
    alloc: Global,
    octets: &[u8],
    answer: Result<(), LogErr>,
    left: &[u8],
) -> Result<bool, Fail> {
    let mut disk = MemDisk::of(alloc, octets)?;
    Ok(made(&mut disk) == answer && disk.content() == left)
}

#[test]
fn a_journal_is_made_where_none_is(rt: HostRuntime) -> Result<(), Fail> {
    let alloc = rt.alloc();
    let empty = [
        0xA5, 0x4F, 0x54, 0x41, 0x4A, 0x01, 0x00, 0x02, 0x00, 0x03, 0x00,
    ];
    assert!(rt; is_made(alloc, &[], Ok(()), &empty)?);
    let whole = journal(alloc, 2, 3, &[OPEN])?;
    assert!(rt; is_made(alloc, &whole, Ok(()), &whole)?);
    let other = journal(alloc, 1, 4, &[])?;
    assert!(rt; is_made(alloc, &other, Err(LogErr::OtherHead([0, 1, 0, 4])), &other)?);
    let text = b"no journal at all".as_slice();
    assert!(rt; is_made(alloc, text, Err(LogErr::NotALog), text)?);
    Ok(())
}

/// Whether an opening of a journal of lane 0 of 1 with these parts makes it one of so many octets, with those parts.
fn opens_to(alloc: Global, parts: &[&[u8]], length: u64, left: &[&[u8]]) -> Result<bool, Fail> {
    let mut disk = MemDisk::of(alloc, &journal(alloc, 0, 1, parts)?)?;
    let whole = journal(alloc, 0, 1, left)?;
    let opened = Journal::open(alloc, &mut disk, 0, 1);
    let journal = opened.ok().ok_or("these are the octets of a journal")?;
    Ok(journal.length() == length && disk.content() == whole.as_slice())
}

#[test]
fn a_journal_without_entries_opens(rt: HostRuntime) -> Result<(), Fail> {
    let alloc = rt.alloc();
    let mut disk = MemDisk::of(alloc, &EMPTY)?;
    let opened = Journal::open(alloc, &mut disk, 0, 1);
    let mut journal = opened.ok().ok_or("these are the octets of a journal")?;
    assert_eq!(rt; journal.length(), 22);
    assert!(rt; journal.make_room(16).is_ok());
    assert!(rt; journal.history().entries().is_empty());
    assert!(rt; disk.content() == EMPTY_MARKED.as_slice());
    Ok(())
}

#[test]
fn a_journal_is_taken_over_once(rt: HostRuntime) -> Result<(), Fail> {
    let alloc = rt.alloc();
    assert!(rt; opens_to(alloc, &[], 22, &[MARK])?);
    assert!(rt; opens_to(alloc, &[MARK], 22, &[MARK])?);
    let first = [OPEN, RESERVE, DONE];
    let taken = [OPEN, RESERVE, DONE, MARK];
    assert!(rt; opens_to(alloc, &first, 178, &taken)?);
    assert!(rt; opens_to(alloc, &taken, 178, &taken)?);
    Ok(())
}

/// Whether an entry that is added to these makes a journal of so many octets, which are those of these entries.
fn adds(
    alloc: Global,
    parts: &[&[u8]],
    entry: Entry,
    length: u64,
    more: &[&[u8]],
) -> Result<bool, Fail>
    requires sized { IsSized entry }
    requires of_lane { IsOfLane 0 1 entry }
{
    let mut disk = MemDisk::of(alloc, &journal(alloc, 0, 1, parts)?)?;
    let whole = journal(alloc, 0, 1, more)?;
    Ok(added(alloc, &mut disk, entry) == Ok(length) && disk.content() == whole.as_slice())
}

#[test]
fn entries_are_added_by_their_octets(rt: HostRuntime) -> Result<(), Fail> {
    let alloc = rt.alloc();
    assert!(rt; adds(alloc, &[], opened()?, 94, &[MARK, OPEN_2])?);
    let open = [MARK, OPEN_2];
    let reserve = [MARK, OPEN_2, RESERVE_2];
    assert!(rt; adds(alloc, &open, reserved(alloc, 1)?, 164, &reserve)?);
    let both = [MARK, OPEN_2, RESERVE_2, SECOND_2];
    assert!(rt; adds(alloc, &reserve, reserved(alloc, 2)?, 234, &both)?);
    let done_too = [MARK, OPEN_2, RESERVE_2, DONE_2];
    assert!(rt; adds(alloc, &reserve, done(alloc)?, 203, &done_too)?);
    let named_too = [MARK, OPEN_2, RESERVE_2, NAMED_2];
    let spring = named(alloc, 2, 0x0102_0304_0506_0708, b"spring")?;
    assert!(rt; adds(alloc, &reserve, spring, 240, &named_too)?);
    Ok(())
}

#[test]
fn a_refusal_and_a_close_are_added_by_their_octets(rt: HostRuntime) -> Result<(), Fail> {
    let alloc = rt.alloc();
    let refusal = [OPEN, RESERVE, MARK, REFUSED_2];
    assert!(rt; adds(alloc, &[OPEN, RESERVE], refused(), 184, &refusal)?);
    assert!(rt; adds(alloc, &[OPEN], closed(), 117, &[OPEN, MARK, CLOSE_2])?);
    Ok(())
}

/// Whether the journal of these octets holds these entries.
fn reads(alloc: Global, parts: &[&[u8]], entries: &[Entry]) -> Result<bool, Fail> {
    let mut disk = MemDisk::of(alloc, &journal(alloc, 0, 1, parts)?)?;
    Ok(holds(alloc, &mut disk, entries) == Ok(true))
}

#[test]
fn entries_are_read_back(rt: HostRuntime) -> Result<(), Fail> {
    let alloc = rt.alloc();
    let answered = vec![in alloc; opened()?, reserved(alloc, 1)?, done(alloc)?]?;
    assert!(rt; reads(alloc, &[OPEN, RESERVE, DONE], &answered)?);
    assert!(rt; reads(alloc, &[OPEN, RESERVE, MARK, DONE_2], &answered)?);
    assert!(rt; reads(alloc, &[MARK, OPEN_2, RESERVE_2, DONE_2], &answered)?);
    let settled = vec![in alloc; opened()?, reserved(alloc, 1)?, refused(), closed()]?;
    assert!(rt; reads(alloc, &[OPEN, RESERVE, REFUSED, CLOSE], &settled)?);
    assert!(rt;
        reads(
            alloc,
            &[OPEN, MARK, RESERVE_2, REFUSED_2, CLOSE_2],
            &settled
        )?
    );
    let spring = named(alloc, 2, 0x0102_0304_0506_0708, b"spring")?;
    let later = vec![in alloc; opened()?, reserved(alloc, 1)?, spring]?;
    assert!(rt; reads(alloc, &[OPEN, RESERVE, MARK, NAMED_2], &later)?);
    Ok(())
}

#[test]
fn a_journal_gives_its_history(rt: HostRuntime) -> Result<(), Fail> {
    let alloc = rt.alloc();
    let entries = vec![in alloc; opened()?, reserved(alloc, 1)?, reserved(alloc, 2)?]?;
    let mut disk = MemDisk::of(alloc, &journal(alloc, 0, 1, &[OPEN, RESERVE, SECOND])?)?;
    assert!(rt; gives(alloc, &mut disk, &entries) == Ok(true));
    Ok(())
}

/// Why a disk of these octets is no journal of lane 0 of 1, of which it leaves them all.
fn refusal(alloc: Global, octets: &[u8], lane: u16, lanes: u16) -> Result<Option<LogErr>, Fail>
    requires { lane < lanes }
{
    let mut disk = MemDisk::of(alloc, octets)?;
    let refused = Journal::open(alloc, &mut disk, lane, lanes).err();
    if disk.content() != octets {
        return Ok(None);
    }
    Ok(refused)
}

#[test]
fn what_is_no_journal_of_the_lane_is_refused(rt: HostRuntime) -> Result<(), Fail> {
    let alloc = rt.alloc();
    let unformatted = Some(LogErr::Unformatted);
    assert_eq!(rt; refusal(alloc, &[], 0, 1)?, unformatted);
    let text = b"no journal at all".as_slice();
    assert_eq!(rt; refusal(alloc, text, 0, 1)?, Some(LogErr::NotALog));
    let four = journal(alloc, 0, 4, &[])?;
    let of_four = Some(LogErr::OtherHead([0, 0, 0, 4]));
    assert_eq!(rt; refusal(alloc, &four, 0, 3)?, of_four);
    let second = journal(alloc, 1, 4, &[])?;
    let is_second = Some(LogErr::OtherHead([0, 1, 0, 4]));
    assert_eq!(rt; refusal(alloc, &second, 0, 4)?, is_second);
    Ok(())
}

/// An entry with another octet at this place.
fn changed(alloc: Global, part: &[u8], place: usize, octet: u8) -> Result<Vec<u8>, Memory> {
    let mut octets = Vec::from_slice(alloc, part)?;
    if place < octets.len() {
        octets[place] = octet;
    }
    Ok(octets)
}

fn longer(alloc: Global, part: &[u8]) -> Result<Vec<u8>, Memory> {
    let mut octets = Vec::from_slice(alloc, part)?;
    octets.push(0x00)?;
    Ok(octets)
}

/// Whether an opening names this part of the journal of lane 1 of 2 as the first that is damaged.
fn is_damaged(alloc: Global, octets: &[u8], number: u64) -> Result<bool, Fail> {
    Ok(refusal(alloc, octets, 1, 2)? == Some(LogErr::Damaged(number)))
}

#[test]
fn the_first_part_that_is_wrong_is_named(rt: HostRuntime) -> Result<(), Fail> {
    let alloc = rt.alloc();
    let ninth = changed(alloc, OPEN, 0, 0x09)?;
    assert!(rt; is_damaged(alloc, &journal(alloc, 1, 2, &[&ninth, OPEN])?, 1)?);
    let other_card = changed(alloc, OPEN, 12, 0xC4)?;
    assert!(rt; is_damaged(alloc, &journal(alloc, 1, 2, &[OPEN, &other_card])?, 2)?);
    let other_job = changed(alloc, RESERVE, 26, 0x02)?;
    let third = changed(alloc, &other_job, 18, 0x03)?;
    assert!(rt; is_damaged(alloc, &journal(alloc, 1, 2, &[OPEN, RESERVE, &third])?, 3)?);
    assert!(rt; is_damaged(alloc, &broken(alloc, 1, 2, &[OPEN, RESERVE])?, 3)?);
    assert!(rt; is_damaged(alloc, &broken(alloc, 1, 2, &[OPEN, &third])?, 2)?);
    assert!(rt; is_damaged(alloc, &broken(alloc, 1, 2, &[RESERVE])?, 1)?);
    Ok(())
}

#[test]
fn what_is_no_entry_is_named(rt: HostRuntime) -> Result<(), Fail> {
    let alloc = rt.alloc();
    // key version numbers 0 and 16, another counter mode, another flag, a key of 17 octets
    for (place, octet) in [(13usize, 0u8), (13, 16), (19, 0x01), (20, 0x02), (21, 0x11)] {
        let part = changed(alloc, OPEN, place, octet)?;
        assert!(rt; is_damaged(alloc, &journal(alloc, 1, 2, &[&part])?, 1)?);
    }
    assert!(rt; is_damaged(alloc, &journal(alloc, 1, 2, &[&OPEN[..54]])?, 1)?);
    let long_open = longer(alloc, OPEN)?;
    assert!(rt; is_damaged(alloc, &journal(alloc, 1, 2, &[&long_open])?, 1)?);
    assert!(rt; is_damaged(alloc, &journal(alloc, 1, 2, &[&[]])?, 1)?);
    Ok(())
}

#[test]
fn what_is_no_settlement_is_named(rt: HostRuntime) -> Result<(), Fail> {
    let alloc = rt.alloc();
    // no script, a counter of four octets, no status
    for part in [&RESERVE[..30], &DONE[..18], &REFUSED[..19]] {
        assert!(rt; is_damaged(alloc, &journal(alloc, 1, 2, &[OPEN, RESERVE, part])?, 3)?);
    }
    let two_octets = longer(alloc, REFUSED)?;
    assert!(rt;
        is_damaged(
            alloc,
            &journal(alloc, 1, 2, &[OPEN, RESERVE, &two_octets])?,
            3
        )?
    );
    let long_close = longer(alloc, CLOSE)?;
    assert!(rt; is_damaged(alloc, &journal(alloc, 1, 2, &[OPEN, &long_close])?, 2)?);
    Ok(())
}

#[test]
fn what_is_no_mark_is_named(rt: HostRuntime) -> Result<(), Fail> {
    let alloc = rt.alloc();
    for part in [&[0x06u8, 0x03] as &[u8], &[0x06], &[0x06, 0x02, 0x00]] {
        assert!(rt; is_damaged(alloc, &journal(alloc, 1, 2, &[OPEN, part])?, 2)?);
        assert!(rt; is_damaged(alloc, &journal(alloc, 1, 2, &[OPEN, MARK, part])?, 3)?);
    }
    assert!(rt; is_damaged(alloc, &journal(alloc, 1, 2, &[MARK, MARK])?, 2)?);
    assert!(rt; is_damaged(alloc, &journal(alloc, 1, 2, &[OPEN, MARK, MARK])?, 3)?);
    // version 1 is read before the mark, and version 2 behind it
    assert!(rt; is_damaged(alloc, &journal(alloc, 1, 2, &[OPEN_2])?, 1)?);
    assert!(rt; is_damaged(alloc, &journal(alloc, 1, 2, &[MARK, OPEN])?, 2)?);
    assert!(rt; is_damaged(alloc, &journal(alloc, 1, 2, &[OPEN, MARK, CLOSE])?, 3)?);
    Ok(())
}

/// The first reservation in version 2, with a name of this length of which so many octets are there, and a script of
/// one octet.
fn with_name(alloc: Global, length: u8, octets: usize) -> Result<Vec<u8>, Fail> {
    let mut part = Vec::from_slice(alloc, &RESERVE_2[..38])?;
    part.push(length)?;
    for _ in 0..octets {
        part.push(b'a')?;
    }
    part.push(0x00)?;
    Ok(part)
}

#[test]
fn what_is_no_name_is_named(rt: HostRuntime) -> Result<(), Fail> {
    let alloc = rt.alloc();
    let longest = with_name(alloc, 32, 32)?;
    let mut disk = MemDisk::of(alloc, &journal(alloc, 1, 2, &[MARK, OPEN_2, &longest])?)?;
    assert!(rt; Journal::open(alloc, &mut disk, 1, 2).is_ok());
    // a name of 33 octets, one that is cut off, and one with no script behind it
    let long = with_name(alloc, 33, 33)?;
    let short = with_name(alloc, 32, 8)?;
    let scriptless = with_name(alloc, 9, 8)?;
    for part in [&long, &short, &scriptless] {
        assert!(rt; is_damaged(alloc, &journal(alloc, 1, 2, &[MARK, OPEN_2, part])?, 3)?);
    }
    // the moment of an entry isn't below that of the entry before it
    let early = changed(alloc, RESERVE_2, 21, 0x04)?;
    let late = changed(alloc, OPEN_2, 21, 0x05)?;
    assert!(rt; is_damaged(alloc, &journal(alloc, 1, 2, &[MARK, &late, &early])?, 3)?);
    Ok(())
}

/// What an opening answers to the first octets of the journal of version 1 with the three entries.
fn prefix_answer(alloc: Global, octets: &[u8], count: usize) -> Result<Option<LogErr>, Fail> {
    let mut disk = MemDisk::of(
        alloc,
        octets.get(..count).ok_or("so many octets are there")?,
    )?;
    Ok(Journal::open(alloc, &mut disk, 0, 1).err())
}

#[test]
fn each_front_of_a_journal_is_answered(rt: HostRuntime) -> Result<(), Fail> {
    let alloc = rt.alloc();
    let octets = journal(alloc, 0, 1, &[OPEN, RESERVE, DONE])?;
    assert_eq!(rt; octets.len(), 167);
    for count in 0..167 {
        let answer = match count {
            0..=10 => LogErr::Unformatted,
            11..=74 => LogErr::Damaged(1),
            75..=135 => LogErr::Damaged(2),
            _ => LogErr::Damaged(3),
        };
        assert_eq!(rt; prefix_answer(alloc, &octets, count)?, Some(answer));
    }
    assert_eq!(rt; prefix_answer(alloc, &octets, 167)?, None);
    Ok(())
}

/// A disk of these octets whose call fails and leaves this image.
fn armed(alloc: Global, octets: &[u8], call: u32, image: Image) -> Result<MemDisk, Fail> {
    let mut disk = MemDisk::of(alloc, octets)?;
    disk.arm(call, image);
    Ok(disk)
}

/// Whether the journal of lane 0 of 1 holds the first two entries, or with `third` all three.
fn holds_up_to<D: DiskCalls>(alloc: Global, disk: &mut D, third: bool) -> Result<bool, Fail> {
    let mut entries = vec![in alloc; opened()?, reserved(alloc, 1)?]?;
    if third {
        entries.push(done(alloc)?)?;
    }
    Ok(holds(alloc, disk, &entries) == Ok(true))
}

/// Whether a stop at this call of an opening and an addition leaves the entry whole or not at all. The calls are sync,
/// len and read, and then write, sync, write and sync.
fn is_whole_or_absent(alloc: Global, call: u32, image: Image) -> Result<bool, Fail> {
    let octets = journal(alloc, 0, 1, &[MARK, OPEN_2, RESERVE_2])?;
    let mut disk = armed(alloc, &octets, call, image)?;
    let answer = added(alloc, &mut disk, done(alloc)?);
    let fails = answer == Err(LogErr::DiskFault(DiskFault::Failed));
    // the gate stands open where the last sync failed and its image is the new one
    let third = call == 7 && image == Image::New;
    Ok(fails && holds_up_to(alloc, &mut disk, third)?)
}

#[test]
fn a_stop_at_each_call_leaves_the_entry_whole_or_not_at_all(rt: HostRuntime) -> Result<(), Fail> {
    for image in [Image::Old, Image::New, Image::Torn] {
        for call in 1..8 {
            assert!(rt; is_whole_or_absent(rt.alloc(), call, image)?);
        }
    }
    Ok(())
}

/// Whether a stop after an addition leaves the entry.
fn is_durable(alloc: Global, image: Image) -> Result<bool, Fail> {
    let mut disk = MemDisk::of(alloc, &journal(alloc, 0, 1, &[OPEN, RESERVE])?)?;
    if added(alloc, &mut disk, done(alloc)?) != Ok(186) {
        return Ok(false);
    }
    let mut stopped = disk.stopped(image)?;
    holds_up_to(alloc, &mut stopped, true)
}

#[test]
fn an_entry_that_was_added_is_durable(rt: HostRuntime) -> Result<(), Fail> {
    for image in [Image::Old, Image::New, Image::Torn] {
        assert!(rt; is_durable(rt.alloc(), image)?);
    }
    Ok(())
}

/// Whether the entries stand after a stop at this call of an opening that cuts octets off: sync, len, read, cut and
/// sync.
fn opens_again(alloc: Global, call: u32, image: Image) -> Result<bool, Fail> {
    let whole = journal(alloc, 0, 1, &[MARK, OPEN_2, RESERVE_2])?;
    let mut octets = journal(alloc, 0, 1, &[MARK, OPEN_2, RESERVE_2])?;
    octets.extend_from_slice(&[0xA5, 0, 0, 0, 9])?;
    let mut disk = armed(alloc, &octets, call, image)?;
    let failed = Journal::open(alloc, &mut disk, 0, 1).err();
    let fails = failed == Some(LogErr::DiskFault(DiskFault::Failed));
    let stands = holds_up_to(alloc, &mut disk, false)?;
    Ok(fails && stands && disk.content() == whole.as_slice())
}

#[test]
fn a_stop_at_each_call_of_an_opening_leaves_the_entries(rt: HostRuntime) -> Result<(), Fail> {
    for image in [Image::Old, Image::New, Image::Torn] {
        for call in 1..6 {
            assert!(rt; opens_again(rt.alloc(), call, image)?);
        }
    }
    Ok(())
}

/// Whether the three entries stand after a stop at this call of the opening that takes the journal over: sync, len and
/// read, and then write, sync, write and sync.
fn is_taken_over(alloc: Global, call: u32, image: Image) -> Result<bool, Fail> {
    let octets = journal(alloc, 0, 1, &[OPEN, RESERVE, DONE])?;
    let whole = journal(alloc, 0, 1, &[OPEN, RESERVE, DONE, MARK])?;
    let mut disk = armed(alloc, &octets, call, image)?;
    let failed = Journal::open(alloc, &mut disk, 0, 1).err();
    let fails = failed == Some(LogErr::DiskFault(DiskFault::Failed));
    let stands = holds_up_to(alloc, &mut disk, true)?;
    Ok(fails && stands && disk.content() == whole.as_slice())
}

#[test]
fn a_stop_at_each_call_of_the_taking_over_leaves_the_entries(rt: HostRuntime) -> Result<(), Fail> {
    for image in [Image::Old, Image::New, Image::Torn] {
        for call in 1..8 {
            assert!(rt; is_taken_over(rt.alloc(), call, image)?);
        }
    }
    Ok(())
}

/// A journal of version 1 in which the keyset is opened and so many counters of it are reserved, each for a job of its
/// own with a script of one octet.
fn large(alloc: Global, count: u32) -> Result<Vec<u8>, Fail> {
    let mut octets = journal(alloc, 0, 1, &[OPEN])?;
    let _ = octets.pop();
    for before in 0..count {
        let number = before + 1;
        octets.extend_from_slice(&[0xA5, 0x00, 0x00, 0x00, 0x23, 0x00, 0x00, 0x00, 0x1F])?;
        octets.extend_from_slice(&RESERVE[..15])?;
        octets.extend_from_slice(&number.to_be_bytes())?;
        octets.extend_from_slice(&[0x00, 0x00, 0x00, 0x07])?;
        octets.extend_from_slice(&number.to_be_bytes())?;
        octets.extend_from_slice(&[0xB0, 0x00, 0x10, 0x00])?;
    }
    octets.push(0x00)?;
    Ok(octets)
}

/// Whether the book has each of these jobs with the counter of its number, and the one behind them as the next.
fn has_each(book: &Book) -> bool {
    for number in 1..100_001u32 {
        let job = JobId {
            campaign: 7,
            job: number,
        };
        if book.look(job) != Looked::Unsettled(keyset(), Counter(u64::from(number))) {
            return false;
        }
    }
    book.next(keyset()) == Ok(Counter(0x0001_86A1))
}

#[test]
fn large_journal_opens(rt: HostRuntime) -> Result<(), Fail> {
    let alloc = rt.alloc();
    let octets = large(alloc, 100_000)?;
    assert_eq!(rt; octets.len(), 4_000_075);
    let mut disk = MemDisk::of(alloc, &octets)?;
    let opened = Journal::open(alloc, &mut disk, 0, 1);
    let journal = opened.ok().ok_or("these are the octets of a journal")?;
    assert_eq!(rt; journal.length(), 4_000_086);
    assert!(rt; has_each(journal.book()));
    let made = Book::from_history(alloc, journal.history())?;
    assert!(rt; has_each(&made));
    Ok(())
}

/// Whether no call reads more than one window of 65,536 octets, and all together read so many octets.
fn are_windows(calls: &[Call], octets: u64) -> bool {
    let mut read = 0u64;
    for call in calls {
        if let Call::Read { len, .. } = call {
            if *len > 65_536 {
                return false;
            }
            read = read.wrapping_add(*len);
        }
    }
    read == octets
}

#[test]
fn opening_reads_windows(rt: HostRuntime) -> Result<(), Fail> {
    let alloc = rt.alloc();
    let octets = large(alloc, 5_000)?;
    assert_eq!(rt; octets.len(), 200_075);
    let mut disk = MemDisk::of(alloc, &octets)?;
    assert!(rt; Journal::open(alloc, &mut disk, 0, 1).is_ok());
    assert!(rt; are_windows(disk.calls(), 200_075));
    Ok(())
}

/// Opens the journal of lane 0 of 1, adds an entry that may follow, and asks the book what has become of the job 1.
fn looked_after<D: DiskCalls>(alloc: Global, disk: &mut D, entry: Entry) -> Result<Looked, LogErr>
    requires sized { IsSized entry }
    requires of_lane { IsOfLane 0 1 entry }
{
    let mut journal = Journal::open(alloc, disk, 0, 1)?;
    if journal.history().may_add(&entry).is_err() {
        return Err(LogErr::Damaged(0));
    }
    let entries = vec![in alloc; entry]?;
    journal.add(disk, entries)?;
    let job = JobId {
        campaign: 7,
        job: 1,
    };
    Ok(journal.book().look(job))
}

#[test]
fn the_book_goes_with_the_history(rt: HostRuntime) -> Result<(), Fail> {
    let alloc = rt.alloc();
    let first = Counter(1);
    let mut disk = MemDisk::of(alloc, &journal(alloc, 0, 1, &[OPEN])?)?;
    let unsettled = looked_after(alloc, &mut disk, reserved(alloc, 1)?);
    assert!(rt; unsettled == Ok(Looked::Unsettled(keyset(), first)));
    let answered = looked_after(alloc, &mut disk, done(alloc)?);
    assert!(rt; answered == Ok(Looked::Done(keyset(), first)));
    Ok(())
}

/// Adds a reservation of this counter in version 1, with a script of so many octets.
fn add_reservation(octets: &mut Vec<u8>, number: u32, script: u32) -> Result<(), Fail> {
    let part = script.wrapping_add(30);
    octets.push(0xA5)?;
    octets.extend_from_slice(&part.wrapping_add(4).to_be_bytes())?;
    octets.extend_from_slice(&part.to_be_bytes())?;
    octets.extend_from_slice(&RESERVE[..15])?;
    octets.extend_from_slice(&number.to_be_bytes())?;
    octets.extend_from_slice(&[0x00, 0x00, 0x00, 0x07])?;
    octets.extend_from_slice(&number.to_be_bytes())?;
    octets.extend_from_slice(&[0xB0, 0x00, 0x10])?;
    for _ in 0..script {
        octets.push(0)?;
    }
    Ok(())
}

/// A journal of version 1 with an Open, 4,057 reservations of the longest scripts, and one of a script of so many octets.
/// It has 16,775,809 octets more than that script.
fn filled(alloc: Global, script: u32) -> Result<Vec<u8>, Fail> {
    let mut octets = journal(alloc, 0, 1, &[OPEN])?;
    let _ = octets.pop();
    for before in 0..4_057u32 {
        add_reservation(&mut octets, before + 1, 4_096)?;
    }
    add_reservation(&mut octets, 4_058, script)?;
    octets.push(0x00)?;
    Ok(octets)
}

/// What the addition of a Close to the journal on this disk answers.
fn closing<D: DiskCalls>(alloc: Global, disk: &mut D) -> Result<u64, LogErr> {
    added(alloc, disk, closed())
}

#[test]
fn a_journal_without_room_for_the_mark_stays_of_version_1(rt: HostRuntime) -> Result<(), Fail> {
    let alloc = rt.alloc();
    let octets = filled(alloc, 1_397)?;
    assert_eq!(rt; octets.len(), 16_777_206);
    let mut disk = MemDisk::of(alloc, &octets)?;
    let full = Err(LogErr::Full {
        length: 16_777_206,
        need: 31,
    });
    assert!(rt; closing(alloc, &mut disk) == full);
    assert!(rt; closing(alloc, &mut disk) == full);
    assert!(rt; disk.content() == octets.as_slice());
    let fits = filled(alloc, 1_396)?;
    let mut disk = MemDisk::of(alloc, &fits)?;
    let none = Err(LogErr::Full {
        length: 16_777_216,
        need: 31,
    });
    assert!(rt; closing(alloc, &mut disk) == none);
    assert_eq!(rt; disk.content().len(), 16_777_216);
    Ok(())
}

/// Whether an opening of these octets answers so, and makes these calls.
fn calls_of(alloc: Global, octets: &[u8], opens: bool, calls: &[Call]) -> Result<bool, Fail> {
    let mut disk = MemDisk::of(alloc, octets)?;
    let opened = Journal::open(alloc, &mut disk, 0, 1).is_ok();
    Ok(opened == opens && disk.calls() == calls)
}

#[test]
fn an_opening_makes_its_calls_and_no_more(rt: HostRuntime) -> Result<(), Fail> {
    let alloc = rt.alloc();
    let read = Call::Read { at: 0, len: 22 };
    assert!(rt; calls_of(alloc, &EMPTY_MARKED, true, &[Call::Sync, Call::Len, read])?);
    let mark = [
        Call::Sync,
        Call::Len,
        Call::Read { at: 0, len: 11 },
        Call::Write { at: 11, len: 11 },
        Call::Sync,
        Call::Write { at: 10, len: 1 },
        Call::Sync,
    ];
    assert!(rt; calls_of(alloc, &EMPTY, true, &mark)?);
    let behind = longer(alloc, &EMPTY_MARKED)?;
    let cut = [
        Call::Sync,
        Call::Len,
        Call::Read { at: 0, len: 23 },
        Call::Cut { len: 22 },
        Call::Sync,
    ];
    assert!(rt; calls_of(alloc, &behind, true, &cut)?);
    assert!(rt; calls_of(alloc, &[], false, &[Call::Sync, Call::Len])?);
    Ok(())
}

/// Whether an opening of these octets names this part as damaged, and leaves those octets.
fn leaves(alloc: Global, octets: &[u8], number: u64, left: &[u8]) -> Result<bool, Fail> {
    let mut disk = MemDisk::of(alloc, octets)?;
    let damaged = match Journal::open(alloc, &mut disk, 0, 1) {
        Ok(_) => false,
        Err(error) => error == LogErr::Damaged(number),
    };
    Ok(damaged && disk.content() == left)
}

#[test]
fn a_refusal_cuts_off_what_lies_behind_a_closed_gate_alone(rt: HostRuntime) -> Result<(), Fail> {
    let alloc = rt.alloc();
    let twice = journal(alloc, 0, 1, &[OPEN, OPEN])?;
    let behind = longer(alloc, &twice)?;
    assert!(rt; leaves(alloc, &behind, 2, &twice)?);
    assert!(rt; leaves(alloc, &twice, 2, &twice)?);
    let damaged = broken(alloc, 0, 1, &[OPEN, OPEN])?;
    assert!(rt; leaves(alloc, &damaged, 2, &damaged)?);
    Ok(())
}
