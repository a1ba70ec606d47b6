// A real file as a disk.
ghost use Rattle.std.specs.Prelude.{◌≡◌, ◌≤◌, IsOk, MatchResult, OnOk, OnErr, IfOk, length};
ghost use Rattle.disk_model.specs.Counts.{HasRisen};
ghost use Rattle.disk_model.specs.Disk.{untold};

use crate::real_file::{
    cut_file, file_len, open_to_write, read_file, read_from, sync_file, sync_folder, write_to,
};
use crate::{DiskCalls, DiskFault, Image, SimCalls};
use std::fs::OpenFile;
use std::io;
use std::rt::Files;

/// A real file as a disk. It holds a path, and opens the file for each call unless it is to be kept open. It tells
/// nothing of its octets, counts its failures, and answers each as `Failed`. A missing file is an empty disk, and a
/// write to it creates it. The first sync of each value that finds the file syncs its folder too, since whoever created
/// the file may have ended before its name was on the disk.
#[derive(Drop)]
pub struct FileDisk<R: Files> {
    rt: R,
    path: String,
    keeps_open: bool,
    // The file, from its first write on, where it is kept open.
    kept: Option<R::File>,
    // The folder was synced since this value, or the file, was made.
    is_named: bool,
    faults: u64,
}

impl<R: Files + Drop> FileDisk<R> {
    /// The file with this path. It is not opened, and no memory is taken.
    pub fn new(rt: R, path: String) -> FileDisk<R>
        ensures { ⟦<FileDisk<R> as DiskCalls>⟧.counts result ≡ record { faults = 0; wants = 0; beside = 0 } }
    {
        FileDisk {
            rt,
            path,
            keeps_open: false,
            kept: None,
            is_named: false,
            faults: 0,
        }
    }

    /// The same file, kept open from its first write on. It suits a few disks that are written often; without it many
    /// disks need few open files.
    pub fn keeping_open(self) -> FileDisk<R>
        ensures { ⟦<FileDisk<R> as DiskCalls>⟧.counts result ≡ ⟦<FileDisk<R> as DiskCalls>⟧.counts self }
    {
        FileDisk {
            rt: self.rt,
            path: self.path,
            keeps_open: true,
            kept: self.kept,
            is_named: self.is_named,
            faults: self.faults,
        }
    }

    // Counts a failure.
    fn answer<T: Drop>(&mut self, done: io::Result<T>) -> Result<T, DiskFault>
        ensures ok { OnOk result (self.new.faults ≡ self.old.faults) }
        ensures value { IfOk result (λ value. done ≡ Ok value) }
        ensures failed { OnErr result (HasRisen self.old.faults self.new.faults) }
        ensures fault { MatchResult result (λ _. IsOk done) (λ fault. fault ≡ DiskFault.Failed) }
    {
        match done {
            Ok(value) => Ok(value),
            Err(_) => {
                self.faults = self.faults.saturating_add(1);
                Err(DiskFault::Failed)
            }
        }
    }

    fn size(&self) -> io::Result<u64> {
        match &self.kept {
            Some(file) => Ok(file.metadata()?.len()),
            None => file_len(&self.rt, &self.path),
        }
    }

    fn read(&mut self, at: u64, into: &mut [u8]) -> io::Result<usize>
        ensures faults { self.new.faults ≡ self.old.faults }
        ensures count { IfOk result (λ count. count ≤ length into.old) }
    {
        match &mut self.kept {
            Some(file) => read_from(file, at, into),
            None => read_file(&self.rt, &self.path, at, into),
        }
    }

    fn write(&mut self, at: u64, from: &[u8]) -> io::Result<()>
        ensures { self.new.faults ≡ self.old.faults }
    {
        let mut file = self.writable()?;
        write_to(&mut file, at, from)?;
        if self.keeps_open {
            self.kept = Some(file);
        }
        Ok(())
    }

    // The file that was kept, or opened.
    fn writable(&mut self) -> io::Result<R::File>
        ensures { self.new.faults ≡ self.old.faults }
    {
        if let Some(file) = self.kept.take() {
            return Ok(file);
        }
        let (file, is_created) = open_to_write(&self.rt, &self.path)?;
        self.is_named = self.is_named && !is_created;
        Ok(file)
    }

    fn shorten(&mut self, len: u64) -> io::Result<()>
        ensures { self.new.faults ≡ self.old.faults }
    {
        match &self.kept {
            Some(file) => file.set_len(len),
            None => cut_file(&self.rt, &self.path, len),
        }
    }

    fn flush(&mut self) -> io::Result<()>
        ensures { self.new.faults ≡ self.old.faults }
    {
        let is_there = match &self.kept {
            Some(file) => {
                file.sync_data()?;
                true
            }
            None => sync_file(&self.rt, &self.path)?,
        };
        if is_there && !self.is_named {
            sync_folder(&self.rt, &self.path)?;
            self.is_named = true;
        }
        Ok(())
    }
}

impl<R: Files + Drop> DiskCalls for FileDisk<R> {
    type Beside = ();

    type Choice = ();

    ghost told = { untold };

    ghost counts = { λ disk. record { faults = disk.faults; wants = 0; beside = 0 } };

    ghost seen_is_image = { λ disk told. tt };

    fn len(&mut self) -> Result<u64, DiskFault> {
        let len = self.size();
        self.answer(len)
    }

    fn read_at(&mut self, at: u64, into: &mut [u8]) -> Result<usize, DiskFault> {
        let count = self.read(at, into);
        self.answer(count)
    }

    fn write_at(&mut self, at: u64, from: &[u8]) -> Result<(), DiskFault> {
        let done = self.write(at, from);
        self.answer(done)
    }

    fn cut(&mut self, len: u64) -> Result<(), DiskFault> {
        let done = self.shorten(len);
        self.answer(done)
    }

    fn sync(&mut self) -> Result<(), DiskFault> {
        let done = self.flush();
        self.answer(done)
    }
}

impl<R: Files + Drop> SimCalls for FileDisk<R> {
    fn arm(&mut self, _: u32, _: Image) {}
}
