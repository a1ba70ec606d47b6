// A stand-in for a machine's files: it has one file in one folder, records each call, and spoils a listed one.
ghost use Rattle.std.specs.Prelude.{◌≤◌, length};

use std::alloc::{Allocator, Global};
use std::cell::RefCell;
use std::fs::{Metadata, OpenFile, OpenOptions};
use std::io;
use std::io::{ErrorKind, Read, Seek, SeekFrom, Write};
use std::rt::Files;

/// The file.
pub const FILE: &str = "lanes/0003";

/// Its folder.
pub const FOLDER: &str = "lanes";

/// A call of files.
#[derive(Clone, Copy, Debug, PartialEq, Eq)]
pub enum FileCall {
    Metadata,
    /// The file is opened to read.
    Look,
    /// The file is opened to read and to write.
    Change,
    /// The same, and it is created where it is missing.
    Create,
    /// The file is opened to write.
    Shorten,
    /// The folder is opened to read.
    Folder,
    /// Something else is opened.
    Other,
    Seek(u64),
    Read(usize),
    Write(usize),
    SetLen(u64),
    SyncFile,
    SyncFolder,
}

/// What becomes of the listed call.
#[derive(Clone, Copy, Debug, PartialEq, Eq)]
pub enum Spoilt {
    /// It fails, and does nothing.
    Fails,
    /// It is interrupted, and does nothing.
    Interrupted,
    /// It reads or writes one octet.
    Short,
}

/// What the machine holds, and the calls so far.
#[derive(Drop)]
pub struct Machine {
    pub alloc: Global,
    pub calls: Vec<FileCall>,
    /// The octets of the file, if it is there.
    pub octets: Option<Vec<u8>>,
    /// The number of the call that is spoilt, from 1, and how; 0 for none.
    pub listed: (usize, Spoilt),
}

/// The files of a machine.
#[derive(Clone, Copy)]
pub struct RecordedFiles<'m>(pub &'m RefCell<Machine>);

/// An open file, or the folder.
#[derive(Drop)]
pub struct RecordedFile<'m> {
    machine: &'m RefCell<Machine>,
    at: u64,
    is_folder: bool,
}

pub fn machine_with(alloc: Global, octets: Option<Vec<u8>>, listed: (usize, Spoilt)) -> Machine {
    Machine {
        alloc,
        calls: Vec::new(alloc),
        octets,
        listed,
    }
}

fn failure() -> io::Error {
    io::Error::from(ErrorKind::PermissionDenied)
}

impl Machine {
    // Records a call, and says whether it is to be short.
    fn record(&mut self, call: FileCall) -> io::Result<bool> {
        if self.calls.push(call).is_err() {
            return Err(failure());
        }
        if self.calls.len() != self.listed.0 {
            return Ok(false);
        }
        match self.listed.1 {
            Spoilt::Fails => Err(failure()),
            Spoilt::Interrupted => Err(io::Error::from(ErrorKind::Interrupted)),
            Spoilt::Short => Ok(true),
        }
    }

    /// The octets of the file, none where it is missing.
    pub fn content(&self) -> &[u8] {
        match &self.octets {
            Some(octets) => octets,
            None => &[],
        }
    }

    fn len(&self) -> io::Result<u64> {
        match &self.octets {
            Some(octets) => Ok(octets.len() as u64),
            None => Err(io::Error::from(ErrorKind::NotFound)),
        }
    }

    fn create(&mut self) {
        if self.octets.is_none() {
            self.octets = Some(Vec::new(self.alloc));
        }
    }

    fn read(&self, at: u64, most: usize, into: &mut [u8]) -> usize
        ensures { result ≤ length into.old }
    {
        match &self.octets {
            Some(octets) => copy_from(octets, at, most, into),
            None => 0,
        }
    }

    fn write(&mut self, at: u64, from: &[u8]) -> io::Result<()> {
        match &mut self.octets {
            Some(octets) => copy_to(octets, at, from),
            None => Err(failure()),
        }
    }

    fn set_len(&mut self, len: u64) {
        if let Some(octets) = &mut self.octets {
            octets.truncate(len.min(octets.len() as u64) as usize);
        }
    }
}

fn copy_from(octets: &[u8], at: u64, most: usize, into: &mut [u8]) -> usize
    ensures { result ≤ length into.old }
{
    let place = at.min(octets.len() as u64) as usize;
    let count = into.len().min(octets.len() - place).min(most);
    into[..count].copy_from_slice(&octets[place..place + count]);
    count
}

fn copy_to(octets: &mut Vec<u8>, at: u64, from: &[u8]) -> io::Result<()> {
    let place = at.min(octets.len() as u64) as usize;
    let over = from.len().min(octets.len() - place);
    octets[place..place + over].copy_from_slice(&from[..over]);
    match octets.extend_from_slice(&from[over..]) {
        Ok(()) => Ok(()),
        Err(_) => Err(failure()),
    }
}

// Records a call of a machine that no one else uses now.
fn record(machine: &RefCell<Machine>, call: FileCall) -> io::Result<bool> {
    match machine.try_borrow_mut() {
        Ok(mut machine) => machine.record(call),
        Err(_) => Err(failure()),
    }
}

fn len_of(machine: &RefCell<Machine>) -> io::Result<u64> {
    match machine.try_borrow() {
        Ok(machine) => machine.len(),
        Err(_) => Err(failure()),
    }
}

fn opening(how: &OpenOptions, path: &str) -> FileCall {
    if path == FOLDER && how.asks_read() && !how.asks_write() {
        return FileCall::Folder;
    }
    if path != FILE || how.asks_truncate() || how.asks_append() || how.asks_create_new() {
        return FileCall::Other;
    }
    match (how.asks_read(), how.asks_write(), how.asks_create()) {
        (true, false, false) => FileCall::Look,
        (true, true, false) => FileCall::Change,
        (true, true, true) => FileCall::Create,
        (false, true, false) => FileCall::Shorten,
        _ => FileCall::Other,
    }
}

impl<'m> Files for RecordedFiles<'m> {
    type File = RecordedFile<'m>;

    type Dir = RecordedFile<'m>;

    fn open_file(&self, how: &OpenOptions, path: &str) -> io::Result<RecordedFile<'m>> {
        let call = opening(how, path);
        record(self.0, call)?;
        match call {
            FileCall::Folder => {}
            FileCall::Create => {
                if let Ok(mut machine) = self.0.try_borrow_mut() {
                    machine.create();
                }
            }
            _ => {
                len_of(self.0)?;
            }
        }
        Ok(RecordedFile {
            machine: self.0,
            at: 0,
            is_folder: call == FileCall::Folder,
        })
    }

    fn open_dir(&self, _: &str) -> io::Result<RecordedFile<'m>> {
        Err(failure())
    }

    fn metadata(&self, path: &str) -> io::Result<Metadata> {
        record(self.0, FileCall::Metadata)?;
        if path != FILE {
            return Err(failure());
        }
        Ok(Metadata::of_file(len_of(self.0)?))
    }

    fn symlink_metadata(&self, _: &str) -> io::Result<Metadata> {
        Err(failure())
    }

    fn copy(&self, _: &str, _: &str) -> io::Result<u64> {
        Err(failure())
    }

    fn rename(&self, _: &str, _: &str) -> io::Result<()> {
        Err(failure())
    }

    fn remove_file(&self, _: &str) -> io::Result<()> {
        Err(failure())
    }

    fn create_dir(&self, _: &str) -> io::Result<()> {
        Err(failure())
    }

    fn remove_dir(&self, _: &str) -> io::Result<()> {
        Err(failure())
    }

    fn remove_dir_all<B: Allocator>(&self, _: B, _: &str) -> io::Result<()> {
        Err(failure())
    }
}

impl<'m> Read for RecordedFile<'m> {
    fn read(&mut self, buf: &mut [u8]) -> io::Result<usize> {
        let is_short = record(self.machine, FileCall::Read(buf.len()))?;
        let most = if is_short { 1 } else { buf.len() };
        let count = match self.machine.try_borrow() {
            Ok(machine) => machine.read(self.at, most, buf),
            Err(_) => return Err(failure()),
        };
        self.at = self.at.saturating_add(count as u64);
        Ok(count)
    }
}

impl<'m> Write for RecordedFile<'m> {
    fn write(&mut self, buf: &[u8]) -> io::Result<usize> {
        let is_short = record(self.machine, FileCall::Write(buf.len()))?;
        let count = if is_short {
            buf.len().min(1)
        } else {
            buf.len()
        };
        match self.machine.try_borrow_mut() {
            Ok(mut machine) => machine.write(self.at, &buf[..count])?,
            Err(_) => return Err(failure()),
        }
        self.at = self.at.saturating_add(count as u64);
        Ok(count)
    }

    fn flush(&mut self) -> io::Result<()> {
        Ok(())
    }
}

impl<'m> Seek for RecordedFile<'m> {
    fn seek(&mut self, to: SeekFrom) -> io::Result<u64> {
        match to {
            SeekFrom::Start(at) => {
                record(self.machine, FileCall::Seek(at))?;
                self.at = at;
                Ok(at)
            }
            _ => Err(failure()),
        }
    }
}

impl<'m> OpenFile for RecordedFile<'m> {
    fn metadata(&self) -> io::Result<Metadata> {
        record(self.machine, FileCall::Metadata)?;
        Ok(Metadata::of_file(len_of(self.machine)?))
    }

    fn set_len(&self, size: u64) -> io::Result<()> {
        record(self.machine, FileCall::SetLen(size))?;
        match self.machine.try_borrow_mut() {
            Ok(mut machine) => machine.set_len(size),
            Err(_) => return Err(failure()),
        }
        Ok(())
    }

    fn sync_all(&self) -> io::Result<()> {
        self.sync_data()
    }

    fn sync_data(&self) -> io::Result<()> {
        let call = if self.is_folder {
            FileCall::SyncFolder
        } else {
            FileCall::SyncFile
        };
        record(self.machine, call)?;
        Ok(())
    }
}
