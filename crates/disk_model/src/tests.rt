// Disks in memory, stopped at a moment or within a call, and a disk over a real file.
use crate::{
    Call, Disk, DiskCalls, DiskFault, FileDisk, Image, MemDisk, Memory, SimCalls, SimDisk,
};
use std::alloc::Global;
use std::fs;
use std::test::Fail;

// A write or a cut at a place that the disk has.
fn write(disk: &mut MemDisk, at: u64, octets: &[u8]) -> Result<(), DiskFault> {
    if at > disk.content().len() as u64 {
        return Err(DiskFault::Failed);
    }
    disk.write_at(at, octets)
}

fn cut(disk: &mut MemDisk, len: u64) -> Result<(), DiskFault> {
    if len > disk.content().len() as u64 {
        return Err(DiskFault::Failed);
    }
    disk.cut(len)
}

// Four octets that are synced. The second and third are written over, two more are written behind the end, and the
// last is cut off, in three calls, and nothing of this is synced.
fn unsynced(alloc: Global) -> Result<MemDisk, Memory> {
    let mut disk = MemDisk::of(alloc, &[1, 2, 3, 4])?;
    let _ = write(&mut disk, 1, &[22, 33]);
    let _ = write(&mut disk, 4, &[5, 6]);
    let _ = cut(&mut disk, 5);
    Ok(disk)
}

const OLD: &[u8] = &[1, 2, 3, 4];

const NEW: &[u8] = &[1, 22, 33, 4, 5];

const TORN: &[u8] = &[1, 0xff, 0xff, 4, 0xff];

#[test]
fn a_stop_leaves_an_image(rt: HostRuntime) -> Result<(), Fail> {
    let alloc = rt.alloc();
    let mut disk = unsynced(alloc)?;
    for (image, octets) in [(Image::Old, OLD), (Image::New, NEW), (Image::Torn, TORN)] {
        let stopped = disk.stopped(image)?;
        assert_eq!(rt; stopped.content(), octets);
        assert!(rt; stopped.calls().is_empty());
    }
    assert_eq!(rt; disk.sync(), Ok(()));
    for image in [Image::Old, Image::New, Image::Torn] {
        assert_eq!(rt; disk.stopped(image)?.content(), NEW);
    }
    Ok(())
}

#[test]
fn an_armed_call_fails_and_its_image_stands(rt: HostRuntime) -> Result<(), Fail> {
    let alloc = rt.alloc();
    for (image, octets) in [(Image::Old, OLD), (Image::New, NEW), (Image::Torn, TORN)] {
        let mut disk = unsynced(alloc)?;
        disk.arm(4, Image::New);
        disk.arm(2, Image::Torn);
        disk.arm(2, image);
        assert_eq!(rt; disk.len(), Ok(5));
        assert_eq!(rt; disk.sync(), Err(DiskFault::Failed));
        assert_eq!(rt; disk.content(), octets);
        assert_eq!(rt; disk.stopped(Image::Torn)?.content(), octets);
        assert_eq!(rt; disk.len(), Ok(octets.len() as u64));
        assert_eq!(rt; disk.len(), Err(DiskFault::Failed));
        assert_eq!(rt; (disk.faults(), disk.wants()), (2, 0));
    }
    Ok(())
}

#[test]
fn a_listed_call_fails_without_effect(rt: HostRuntime) -> Result<(), Fail> {
    let alloc = rt.alloc();
    let mut disk = MemDisk::new(alloc).failing(vec![in alloc; 2]?);
    let mut room = [9; 4];
    assert_eq!(rt; write(&mut disk, 0, &[1, 2, 3]), Ok(()));
    assert_eq!(rt; cut(&mut disk, 1), Err(DiskFault::Failed));
    assert_eq!(rt; disk.read_at(1, &mut room), Ok(2));
    assert_eq!(rt; room, [2, 3, 9, 9]);
    assert_eq!(rt; disk.sync(), Ok(()));
    assert_eq!(rt; disk.faults(), 1);
    let calls = [
        Call::Write { at: 0, len: 3 },
        Call::Cut { len: 1 },
        Call::Read { at: 1, len: 4 },
        Call::Sync,
    ];
    assert_eq!(rt; disk.calls(), calls.as_slice());
    Ok(())
}

// What can be said of any disk that is simulated and shared.
fn replace_all<D: SimDisk>(disk: &mut D, octets: &[u8]) -> Result<u64, DiskFault> {
    disk.arm(10, Image::Old);
    write_synced(disk, octets)
}

fn write_synced<D: DiskCalls>(disk: &mut D, octets: &[u8]) -> Result<u64, DiskFault> {
    disk.cut(0)?;
    disk.write_at(0, octets)?;
    disk.sync()?;
    disk.len()
}

fn count_shared<D: Disk>(disk: &mut D) -> Result<u64, DiskFault> {
    disk.len()
}

// What a disk over a real file does that isn't there before.
fn is_disk<D: Disk>(disk: &mut D) -> Result<bool, DiskFault> {
    let mut room = [0; 4];
    let is_empty = disk.len()? == 0 && disk.read_at(0, &mut room)? == 0;
    disk.sync()?;
    disk.write_at(0, &[1, 2, 3, 4, 5])?;
    disk.sync()?;
    let is_long = disk.len()? == 5;
    disk.write_at(1, &[22])?;
    disk.cut(4)?;
    let is_read = disk.read_at(1, &mut room)? == 3 && room == [22, 3, 4, 0];
    disk.sync()?;
    Ok(is_empty && is_long && is_read && disk.len()? == 4)
}

#[test]
fn a_real_file_is_a_disk(rt: HostRuntime) -> Result<(), Fail> {
    let alloc = rt.alloc();
    let path = "disk_model_file.tmp";
    let mut disk = FileDisk::new(rt, String::from_str(alloc, path)?);
    assert_eq!(rt; is_disk(&mut disk), Ok(true));
    let octets = fs::read(&rt, path)?;
    fs::remove_file(&rt, path)?;
    assert_eq!(rt; octets.as_slice(), [1, 22, 3, 4].as_slice());
    Ok(())
}

#[test]
fn a_real_file_that_is_kept_open_is_a_disk(rt: HostRuntime) -> Result<(), Fail> {
    let alloc = rt.alloc();
    let path = "disk_model_kept_file.tmp";
    let mut disk = FileDisk::new(rt, String::from_str(alloc, path)?).keeping_open();
    assert_eq!(rt; is_disk(&mut disk), Ok(true));
    let octets = fs::read(&rt, path)?;
    fs::remove_file(&rt, path)?;
    assert_eq!(rt; octets.as_slice(), [1, 22, 3, 4].as_slice());
    Ok(())
}

// A folder in the file's place, and a file in a folder that is not there.
#[test]
fn a_path_that_is_no_file_fails(rt: HostRuntime) -> Result<(), Fail> {
    let alloc = rt.alloc();
    let mut folder = FileDisk::new(rt, String::from_str(alloc, ".")?);
    let mut room = [0; 4];
    assert_eq!(rt; folder.read_at(0, &mut room), Err(DiskFault::Failed));
    assert_eq!(rt; folder.write_at(0, &[1]), Err(DiskFault::Failed));
    let mut lost = FileDisk::new(rt, String::from_str(alloc, "no_such_folder/file")?);
    assert_eq!(rt; lost.len(), Ok(0));
    assert_eq!(rt; lost.write_at(0, &[1]), Err(DiskFault::Failed));
    Ok(())
}
