// Logs on disks in memory: their octets, their refusals, and what stands after a stop at each call.
ghost use Rattle.std.specs.Prelude.{◌≤◌, length};

use crate::{Batch, LogErr, LogReader, format, open, records, sound_records};
use disk_model::{Call, DiskCalls, DiskFault, Image, MemDisk, SimCalls};
use ota_core::Octets;
use std::alloc::Global;
use std::test::Fail;

/// The head of the journal of lane 0 of 1.
const HEAD: [u8; 9] = [0x4F, 0x54, 0x41, 0x4A, 1, 0, 0, 0, 1];

/// A log without parts.
const EMPTY: &[u8] = &[0xA5, 0x4F, 0x54, 0x41, 0x4A, 1, 0, 0, 0, 1, 0];

/// A log of one part, 07 08.
const ONE: &[u8] = &[
    0xA5, 0x4F, 0x54, 0x41, 0x4A, 1, 0, 0, 0, 1, 0xA5, 0, 0, 0, 6, 0, 0, 0, 2, 7, 8, 0,
];

/// The same with a batch of the parts 09 and none.
const BOTH: &[u8] = &[
    0xA5, 0x4F, 0x54, 0x41, 0x4A, 1, 0, 0, 0, 1, 0xA5, 0, 0, 0, 6, 0, 0, 0, 2, 7, 8, 0xA5, 0, 0, 0,
    9, 0, 0, 0, 1, 9, 0, 0, 0, 0, 0,
];

/// A disk of these octets whose call fails and leaves this image.
fn armed(alloc: Global, octets: &[u8], call: u32, image: Image) -> Result<MemDisk, Fail> {
    let mut disk = MemDisk::of(alloc, octets)?;
    disk.arm(call, image);
    Ok(disk)
}

/// The length of the log, once it is opened.
fn opened<D: DiskCalls>(alloc: Global, disk: &mut D) -> Result<u64, LogErr> {
    let log = open(alloc, disk, HEAD)?;
    Ok(log.length())
}

/// Opens the log and adds the batch of the parts 09 and none.
fn appended<D: DiskCalls>(alloc: Global, disk: &mut D) -> Result<u64, LogErr> {
    let mut batch = Batch::room(alloc, 2, 1)?;
    batch.put(&[9]);
    batch.put(&[]);
    added(alloc, disk, &batch)
}

/// Opens the log and adds a batch.
fn added<D: DiskCalls>(alloc: Global, disk: &mut D, batch: &Batch) -> Result<u64, LogErr>
    requires some { 1 ≤ length batch.now.parts }
    requires few { length batch.now.parts ≤ 16 }
{
    let mut log = open(alloc, disk, HEAD)?;
    log.append(disk, batch)?;
    Ok(log.length())
}

/// Whether the log's parts are those of ONE, or with `both` those of BOTH.
fn has_parts<D: DiskCalls>(alloc: Global, disk: &mut D, both: bool) -> Result<bool, LogErr> {
    let parts = records(alloc, disk, HEAD)?;
    Ok(are_parts(&parts, both))
}

/// The same of the parts in front of a damaged batch.
fn has_sound_parts<D: DiskCalls>(alloc: Global, disk: &mut D) -> Result<bool, LogErr> {
    let parts = sound_records(alloc, disk, HEAD)?;
    Ok(are_parts(&parts, false))
}

fn are_parts(parts: &[Octets], both: bool) -> bool {
    if !both {
        return parts.len() == 1 && parts[0].as_slice() == [7, 8].as_slice();
    }
    parts.len() == 3
        && parts[0].as_slice() == [7, 8].as_slice()
        && parts[1].as_slice() == [9].as_slice()
        && parts[2].as_slice().is_empty()
}

fn made<D: DiskCalls>(disk: &mut D) -> Result<(), LogErr> {
    format(disk, HEAD)
}

#[test]
fn a_batch_is_appended(rt: HostRuntime) -> Result<(), Fail> {
    let alloc = rt.alloc();
    let mut disk = MemDisk::of(alloc, ONE)?;
    assert_eq!(rt; appended(alloc, &mut disk), Ok(36));
    assert_eq!(rt; disk.content(), BOTH);
    assert_eq!(rt; has_parts(alloc, &mut disk, true), Ok(true));
    for image in [Image::Old, Image::New, Image::Torn] {
        assert_eq!(rt; disk.stopped(image)?.content(), BOTH);
    }
    Ok(())
}

/// Whether a stop at this call of an opening and an append leaves the batch whole or not at all. The calls are sync, len
/// and read, and then write, sync, write and sync.
fn is_whole_or_absent(alloc: Global, call: u32, image: Image) -> Result<bool, Fail> {
    let mut disk = armed(alloc, ONE, call, image)?;
    let fails = appended(alloc, &mut disk) == Err(LogErr::DiskFault(DiskFault::Failed));
    // the gate stands open where the last sync failed and its image is the new one
    let both = call == 7 && image == Image::New;
    let length = opened(alloc, &mut disk) == Ok(if both { 36 } else { 22 });
    let parts = has_parts(alloc, &mut disk, both) == Ok(true);
    Ok(fails && length && parts && appended(alloc, &mut disk).is_ok())
}

#[test]
fn a_stop_at_each_call_leaves_the_batch_whole_or_not_at_all(rt: HostRuntime) -> Result<(), Fail> {
    for image in [Image::Old, Image::New, Image::Torn] {
        for call in 1..8 {
            assert!(rt; is_whole_or_absent(rt.alloc(), call, image)?);
        }
    }
    Ok(())
}

/// Whether the parts stand after a stop at this call of an opening that cuts octets off: sync, len, read, cut and sync.
fn opens_again(alloc: Global, call: u32, image: Image) -> Result<bool, Fail> {
    let mut octets = ONE.to_vec(alloc)?;
    octets.extend_from_slice(&[0xA5, 0, 0, 0, 9])?;
    let mut disk = armed(alloc, &octets, call, image)?;
    let fails = opened(alloc, &mut disk).is_err();
    let again = opened(alloc, &mut disk) == Ok(22);
    let parts = has_parts(alloc, &mut disk, false) == Ok(true);
    Ok(fails && again && parts && disk.content() == ONE)
}

#[test]
fn a_stop_at_each_call_of_an_opening_leaves_the_parts(rt: HostRuntime) -> Result<(), Fail> {
    for image in [Image::Old, Image::New, Image::Torn] {
        for call in 1..6 {
            assert!(rt; opens_again(rt.alloc(), call, image)?);
        }
    }
    Ok(())
}

#[test]
fn a_closed_gate_stays_as_it_stands(rt: HostRuntime) -> Result<(), Fail> {
    let alloc = rt.alloc();
    let octets = [0xA5, 0x4F, 0x54, 0x41, 0x4A, 1, 0, 0, 0, 1, 0x5A, 0xA5];
    let mut disk = MemDisk::of(alloc, &octets)?;
    assert_eq!(rt; opened(alloc, &mut disk), Ok(11));
    assert_eq!(rt;
        disk.content(),
        [0xA5, 0x4F, 0x54, 0x41, 0x4A, 1, 0, 0, 0, 1, 0x5A].as_slice()
    );
    Ok(())
}

/// Whether the octets are refused so, and stay as they are.
fn is_refused(alloc: Global, octets: &[u8], error: LogErr) -> Result<bool, Fail> {
    let mut disk = MemDisk::of(alloc, octets)?;
    let opening = opened(alloc, &mut disk) == Err(error);
    let reading = has_parts(alloc, &mut disk, false) == Err(error);
    Ok(opening && reading && disk.content() == octets)
}

#[test]
fn what_is_no_log_is_refused(rt: HostRuntime) -> Result<(), Fail> {
    let alloc = rt.alloc();
    let unformatted = LogErr::Unformatted;
    assert!(rt; is_refused(alloc, &[], unformatted)?);
    assert!(rt; is_refused(alloc, &EMPTY[..10], unformatted)?);
    assert!(rt;
        is_refused(
            alloc,
            &[0, 1, 2, 3, 4, 5, 6, 7, 8, 9, 10, 11, 12],
            unformatted
        )?
    );
    assert!(rt;
        is_refused(
            alloc,
            &[0xFF, 0x4F, 0x54, 0x41, 0x4A, 1, 0, 0, 0, 1, 0],
            unformatted
        )?
    );
    let other = LogErr::NotALog;
    assert!(rt;
        is_refused(
            alloc,
            &[0xFF, 0x4F, 0x54, 0x41, 0x4A, 1, 0, 0, 0, 1, 1],
            other
        )?
    );
    assert!(rt;
        is_refused(
            alloc,
            &[0xFF, 0x4F, 0x54, 0x41, 0x4A, 1, 0, 0, 0, 1, 0, 0],
            other
        )?
    );
    assert!(rt;
        is_refused(
            alloc,
            &[0xA5, 0x4F, 0x54, 0x41, 0x4A, 2, 0, 0, 0, 1, 0],
            other
        )?
    );
    let head = LogErr::OtherHead([0, 1, 0, 4]);
    assert!(rt;
        is_refused(
            alloc,
            &[0xA5, 0x4F, 0x54, 0x41, 0x4A, 1, 0, 1, 0, 4, 0],
            head
        )?
    );
    Ok(())
}

/// Octets behind the head of a log.
fn behind_head(alloc: Global, octets: &[u8]) -> Result<Vec<u8>, Fail> {
    let mut log = EMPTY[..10].to_vec(alloc)?;
    log.extend_from_slice(octets)?;
    Ok(log)
}

#[test]
fn a_damaged_batch_is_refused_with_its_number(rt: HostRuntime) -> Result<(), Fail> {
    let alloc = rt.alloc();
    // no batch behind the open gate, one without a part, one that runs past the end, one without a gate, one that its
    // part doesn't fill
    let first: [&[u8]; 5] = [
        &[0xA5],
        &[0xA5, 0, 0, 0, 0, 0],
        &[0xA5, 0, 0, 0, 6, 0, 0, 0, 2, 7],
        &[0xA5, 0, 0, 0, 6, 0, 0, 0, 2, 7, 8],
        &[0xA5, 0, 0, 0, 6, 0, 0, 0, 1, 7, 8, 0],
    ];
    for octets in first {
        assert!(rt; is_refused(alloc, &behind_head(alloc, octets)?, LogErr::Damaged(1))?);
    }
    assert!(rt; is_refused(alloc, &BOTH[..35], LogErr::Damaged(2))?);
    let two = behind_head(alloc, &[0xA5, 0, 0, 0, 8, 0, 0, 0, 0, 0, 0, 0, 0, 0xA5])?;
    assert!(rt; is_refused(alloc, &two, LogErr::Damaged(3))?);
    let mut disk = MemDisk::of(alloc, &BOTH[..35])?;
    assert_eq!(rt; has_sound_parts(alloc, &mut disk), Ok(true));
    Ok(())
}

/// Whether a log is made of these octets after a stop at this call.
fn is_made_again(alloc: Global, octets: &[u8], call: u32, image: Image) -> Result<bool, Fail> {
    let mut disk = armed(alloc, octets, call, image)?;
    let _ = made(&mut disk);
    let mut disk = MemDisk::of(alloc, disk.content())?;
    Ok(made(&mut disk) == Ok(()) && disk.content() == EMPTY)
}

#[test]
fn a_log_is_made(rt: HostRuntime) -> Result<(), Fail> {
    let unmade: [&[u8]; 4] = [
        &[],
        &[1, 2],
        &[0, 1, 2, 3, 4, 5, 6, 7, 8, 9, 10, 11, 12],
        &[0xFF, 0x4F, 0x54, 0x41, 0x4A, 1, 0, 0, 0, 1, 0],
    ];
    for octets in unmade {
        for image in [Image::Old, Image::New, Image::Torn] {
            // sync and read, the mark and its sync, the cut, the rest and its sync, the mark and its sync; and none
            for call in 1..11 {
                assert!(rt; is_made_again(rt.alloc(), octets, call, image)?);
            }
        }
    }
    Ok(())
}

#[test]
fn what_stands_is_not_made_again(rt: HostRuntime) -> Result<(), Fail> {
    let alloc = rt.alloc();
    let mut disk = MemDisk::of(alloc, ONE)?;
    assert_eq!(rt; made(&mut disk), Ok(()));
    assert_eq!(rt; disk.content(), ONE);
    let mut other = MemDisk::of(alloc, &[0xA5, 0x4F, 0x54, 0x41, 0x4A, 1, 0, 1, 0, 4, 0])?;
    assert_eq!(rt; made(&mut other), Err(LogErr::OtherHead([0, 1, 0, 4])));
    let mut text = MemDisk::of(alloc, b"no log at all")?;
    assert_eq!(rt; made(&mut text), Err(LogErr::NotALog));
    Ok(())
}

/// A log of 16,777,200 octets, of one part.
fn long_log(alloc: Global) -> Result<Vec<u8>, Fail> {
    let mut octets = EMPTY[..10].to_vec(alloc)?;
    octets.extend_from_slice(&[0xA5, 0x00, 0xFF, 0xFF, 0xE0, 0x00, 0xFF, 0xFF, 0xDC])?;
    octets.extend_from_slice(&vec![in alloc; 0u8; 16_777_181]?)?;
    Ok(octets)
}

#[test]
fn a_log_takes_what_has_room(rt: HostRuntime) -> Result<(), Fail> {
    let alloc = rt.alloc();
    let octets = long_log(alloc)?;
    assert_eq!(rt; octets.len(), 16_777_200);
    let mut disk = MemDisk::of(alloc, &octets)?;
    let full = LogErr::Full {
        length: 16_777_200,
        need: 17,
    };
    assert_eq!(rt;
        put_one(alloc, &mut disk, &[1, 2, 3, 4, 5, 6, 7, 8]),
        Err(full)
    );
    assert_eq!(rt;
        put_one(alloc, &mut disk, &[1, 2, 3, 4, 5, 6, 7]),
        Ok(16_777_216)
    );
    Ok(())
}

/// Opens the log and adds a batch of one part, in the room of another part that was taken out.
fn put_one<D: DiskCalls>(alloc: Global, disk: &mut D, part: &[u8]) -> Result<u64, LogErr>
    requires { length part.now ≤ 8 }
{
    let mut batch = Batch::room(alloc, 1, 8)?;
    batch.put(&[1, 2, 3]);
    batch.clear();
    batch.put(part);
    added(alloc, disk, &batch)
}

/// A log of so many batches of two parts: one of 3 octets and one of 60,000.
fn log_of_batches(alloc: Global, batches: u32) -> Result<Vec<u8>, Fail> {
    let mut octets = EMPTY[..10].to_vec(alloc)?;
    for _ in 0..batches {
        octets.extend_from_slice(&[0xA5, 0x00, 0x00, 0xEA, 0x6B, 0, 0, 0, 3, 1, 2, 3])?;
        octets.extend_from_slice(&[0x00, 0x00, 0xEA, 0x60])?;
        octets.extend_from_slice(&vec![in alloc; 7u8; 60_000]?)?;
    }
    octets.push(0)?;
    Ok(octets)
}

/// The calls that read so many octets: sync, len, and windows of 65,536 octets, one behind the other.
fn are_windows(calls: &[Call], len: u64) -> bool {
    let mut at = 0;
    for call in calls {
        match call {
            Call::Read {
                at: from,
                len: size,
            } => {
                if *from != at || *size > 65_536 {
                    return false;
                }
                at = from.saturating_add(*size);
            }
            Call::Sync | Call::Len => {}
            _ => return false,
        }
    }
    at == len
}

#[test]
fn opening_reads_windows(rt: HostRuntime) -> Result<(), Fail> {
    let alloc = rt.alloc();
    // five windows; the long part of each batch crosses into the next one
    let octets = log_of_batches(alloc, 5)?;
    assert_eq!(rt; octets.len(), 300_091);
    let mut disk = MemDisk::of(alloc, &octets)?;
    assert_eq!(rt; opened(alloc, &mut disk), Ok(300_091));
    assert_eq!(rt; disk.calls().len(), 7);
    assert!(rt; are_windows(disk.calls(), 300_091));
    let mut again = MemDisk::of(alloc, &octets)?;
    let parts = records(alloc, &mut again, HEAD);
    assert!(rt; are_windows(again.calls(), 300_091));
    match parts {
        Ok(parts) => {
            assert_eq!(rt; parts.len(), 10);
            assert_eq!(rt; parts[8].as_slice(), [1, 2, 3].as_slice());
            assert_eq!(rt; parts[9].as_slice().len(), 60_000);
        }
        Err(_) => assert!(rt; false),
    }
    Ok(())
}

/// The number of the first part that doesn't begin with 1, once the whole log is read; 0 where none is.
fn first_wrong<D: DiskCalls>(alloc: Global, disk: &mut D) -> Result<u64, LogErr> {
    let mut reader = LogReader::begin(alloc, disk, HEAD)?;
    let mut wrong = 0;
    while reader.next_part(disk)? {
        let part = reader.part();
        if wrong == 0 && (part.is_empty() || part[0] != 1) {
            wrong = reader.given();
        }
    }
    Ok(wrong)
}

#[test]
fn a_caller_finds_the_first_part_that_is_wrong(rt: HostRuntime) -> Result<(), Fail> {
    let alloc = rt.alloc();
    let mut octets = log_of_batches(alloc, 5)?;
    let mut disk = MemDisk::of(alloc, &octets)?;
    assert_eq!(rt; first_wrong(alloc, &mut disk), Ok(2));
    // the last gate is missing: the parts of that batch aren't given
    octets.truncate(300_090);
    let mut short = MemDisk::of(alloc, &octets)?;
    assert_eq!(rt; opened(alloc, &mut short), Err(LogErr::Damaged(9)));
    Ok(())
}
