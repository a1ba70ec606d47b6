// A disk over a stand-in for a machine's files: which calls it makes, in which order, and what it answers where one of
// them fails, is interrupted, or is short.
use crate::recorded_files::FileCall::{
    Change, Create, Folder, Look, Metadata, Read, Seek, SetLen, Shorten, SyncFile, SyncFolder,
    Write,
};
use crate::recorded_files::{FILE, FileCall, Machine, RecordedFiles, Spoilt, machine_with};
use crate::{DiskCalls, DiskFault, FileDisk};
use std::alloc::{AllocError, Global};
use std::cell::RefCell;
use std::test::Fail;

// How many calls of the disk `step` knows.
const STEPS: usize = 9;

// A call of the disk, and whether it answered what it is to answer.
fn step(disk: &mut FileDisk<RecordedFiles<'_>>, number: usize) -> Result<bool, DiskFault> {
    let mut room = [9; 3];
    match number {
        0 => Ok(disk.len()? == 0),
        1 => {
            disk.sync()?;
            Ok(disk.read_at(2, &mut room)? == 0)
        }
        2 => {
            disk.write_at(0, &[1, 2, 3, 4, 5])?;
            Ok(true)
        }
        3 => {
            disk.write_at(2, &[33, 44])?;
            Ok(true)
        }
        4 => Ok(disk.read_at(1, &mut room)? == 3 && room == [2, 33, 44]),
        5 => {
            disk.cut(4)?;
            Ok(true)
        }
        6 => {
            disk.sync()?;
            Ok(true)
        }
        7 => {
            disk.sync()?;
            Ok(true)
        }
        _ => Ok(disk.len()? == 4),
    }
}

// The calls of files in each of those, where the file is opened for each.
const OPENED: [&[FileCall]; STEPS] = [
    &[Metadata],
    &[Look, Look],
    &[Change, Create, Seek(0), Write(5)],
    &[Change, Seek(2), Write(2)],
    &[Look, Seek(1), Read(3)],
    &[Shorten, SetLen(4)],
    &[Look, SyncFile, Folder, SyncFolder],
    &[Look, SyncFile],
    &[Metadata],
];

// The same where the file is kept open.
const KEPT: [&[FileCall]; STEPS] = [
    &[Metadata],
    &[Look, Look],
    &[Change, Create, Seek(0), Write(5)],
    &[Seek(2), Write(2)],
    &[Seek(1), Read(3)],
    &[SetLen(4)],
    &[SyncFile, Folder, SyncFolder],
    &[SyncFile],
    &[Metadata],
];

fn disk_on<'m>(
    machine: &'m RefCell<Machine>,
    path: String,
    keeps_open: bool,
) -> FileDisk<RecordedFiles<'m>> {
    let disk = FileDisk::new(RecordedFiles(machine), path);
    if keeps_open {
        return disk.keeping_open();
    }
    disk
}

// How many of the calls were answered rightly before another answer, and that answer.
fn answered(
    machine: &RefCell<Machine>,
    path: String,
    keeps_open: bool,
) -> (usize, Result<bool, DiskFault>) {
    let mut disk = disk_on(machine, path, keeps_open);
    for number in 0..STEPS {
        let answer = step(&mut disk, number);
        if answer != Ok(true) {
            return (number, answer);
        }
    }
    (STEPS, Ok(true))
}

// What a disk over a missing file answers, whose listed call is spoilt, and the machine afterwards.
fn run(
    alloc: Global,
    listed: (usize, Spoilt),
    keeps_open: bool,
) -> Result<(usize, Result<bool, DiskFault>, Machine), AllocError> {
    let machine = RefCell::new(machine_with(alloc, None, listed));
    let path = String::from_str(alloc, FILE)?;
    let (count, answer) = answered(&machine, path, keeps_open);
    Ok((count, answer, machine.into_inner()))
}

// Two syncs of a new disk.
fn synced_twice(
    machine: &RefCell<Machine>,
    path: String,
    keeps_open: bool,
) -> (Result<(), DiskFault>, Result<(), DiskFault>) {
    let mut disk = disk_on(machine, path, keeps_open);
    let first = disk.sync();
    (first, disk.sync())
}

// The calls of files that these make.
fn all_of(alloc: Global, calls: &[&[FileCall]]) -> Result<Vec<FileCall>, AllocError> {
    let mut all = Vec::new(alloc);
    for some in calls.iter() {
        all.extend_from_slice(some)?;
    }
    Ok(all)
}

// The same calls with one more behind the one of this number, from 1.
fn with_one_more(
    alloc: Global,
    calls: &[FileCall],
    number: usize,
    more: FileCall,
) -> Result<Vec<FileCall>, AllocError> {
    let place = number.min(calls.len());
    let mut all = Vec::from_slice(alloc, &calls[..place])?;
    all.push(more)?;
    all.extend_from_slice(&calls[place..])?;
    Ok(all)
}

// The number of the step in which the call of files with this number, from 1, is made.
fn step_of(calls: &[&[FileCall]], number: usize) -> usize {
    let mut left = number;
    for (step, some) in calls.iter().enumerate() {
        if left <= some.len() {
            return step;
        }
        left -= some.len();
    }
    STEPS
}

#[test]
fn a_file_is_read_written_and_synced_in_order(rt: HostRuntime) -> Result<(), Fail> {
    let alloc = rt.alloc();
    for (keeps_open, calls) in [(false, OPENED), (true, KEPT)] {
        let (count, answer, machine) = run(alloc, (0, Spoilt::Fails), keeps_open)?;
        let wanted = all_of(alloc, &calls)?;
        assert_eq!(rt; (count, answer), (STEPS, Ok(true)));
        assert_eq!(rt; machine.calls.as_slice(), wanted.as_slice());
        assert_eq!(rt; machine.content(), [1, 2, 33, 44].as_slice());
    }
    Ok(())
}

#[test]
fn a_call_of_files_that_fails_ends_the_call_of_the_disk(rt: HostRuntime) -> Result<(), Fail> {
    let alloc = rt.alloc();
    for (keeps_open, calls) in [(false, OPENED), (true, KEPT)] {
        let wanted = all_of(alloc, &calls)?;
        for number in 0..wanted.len() {
            let (count, answer, machine) = run(alloc, (number + 1, Spoilt::Fails), keeps_open)?;
            assert_eq!(rt; count, step_of(&calls, number + 1));
            assert_eq!(rt; answer, Err(DiskFault::Failed));
            assert_eq!(rt; machine.calls.as_slice(), &wanted[..number + 1]);
        }
    }
    Ok(())
}

// The write of five octets is the seventh call, and the read of three the thirteenth.
#[test]
fn a_call_of_files_that_is_short_or_interrupted_goes_on(rt: HostRuntime) -> Result<(), Fail> {
    let alloc = rt.alloc();
    let calls = all_of(alloc, &OPENED)?;
    let spoilt = [
        (7, Spoilt::Short, Write(4)),
        (7, Spoilt::Interrupted, Write(5)),
        (13, Spoilt::Short, Read(2)),
        (13, Spoilt::Interrupted, Read(3)),
    ];
    for (number, how, more) in spoilt {
        let (count, answer, machine) = run(alloc, (number, how), false)?;
        let wanted = with_one_more(alloc, &calls, number, more)?;
        assert_eq!(rt; (count, answer), (STEPS, Ok(true)));
        assert_eq!(rt; machine.calls.as_slice(), wanted.as_slice());
    }
    Ok(())
}

// The file is there, and its name may not be on the disk. The fourth call, the sync of the folder, fails at first.
#[test]
fn the_first_sync_of_each_disk_syncs_the_folder(rt: HostRuntime) -> Result<(), Fail> {
    let alloc = rt.alloc();
    let octets = Vec::from_slice(alloc, &[1, 2])?;
    let machine = RefCell::new(machine_with(alloc, Some(octets), (4, Spoilt::Fails)));
    let first = synced_twice(&machine, String::from_str(alloc, FILE)?, false);
    let second = synced_twice(&machine, String::from_str(alloc, FILE)?, true);
    assert_eq!(rt; first, (Err(DiskFault::Failed), Ok(())));
    assert_eq!(rt; second, (Ok(()), Ok(())));
    let machine = machine.into_inner();
    let named = [Look, SyncFile, Folder, SyncFolder];
    let wanted = all_of(alloc, &[&named, &named, &named, &[Look, SyncFile]])?;
    assert_eq!(rt; machine.calls.as_slice(), wanted.as_slice());
    Ok(())
}
