//! The octets of a disk, read one window after another.

ghost use Rattle.std.specs.Prelude.{◌≡◌, ℕ, ◌+◌, ◌-◌, ◌<◌, ◌≤◌, List, [], ◌++◌, length, take, drop, vec_len, nat_lt, IfOk, IfErr, OnOk, OnErr, true};
ghost use Rattle.disk_model.specs.Disk.{Tells, image_now, DiskRun};
ghost use Rattle.gate_log.specs.Answers.{LogCause, UnlessFault, IsWantOrFault};
ghost use Rattle.gate_log.specs.Windows.{WindowsState, rest_of, Looks, IsTakenOrShort, IsWithin};
ghost use Rattle.gate_log.specs.Calls.{OneTick, FirstTicks};

use crate::log_errors::LogErr;
use disk_model::DiskCalls;
use std::alloc::{AllocError, Global};
use std::marker::Model;

/// The greatest number of octets that are read at once.
const WINDOW: u64 = 65_536;

/// The greatest number of octets that memory could hold.
const MOST: u64 = 9_223_372_036_854_775_807;

/// The octets of a disk in order, which are read through one window, each once. Contracts see the octets that were read
/// and not gone over, how many were read, and how many the disk has.
#[derive(Debug, Drop)]
pub(crate) struct Windows {
    window: Vec<u8>,
    /// How many octets of the window are gone over.
    over: usize,
    read: u64,
    long: u64,
}

impl Model for Windows {
    ghost use Rattle.std.specs.Prelude.{◌≤◌, ◌<◌, ◌^◌, drop, length, vec_len};
    ghost use Rattle.gate_log.specs.Windows.{WindowsState};
    ghost use Rattle.gate_log.specs.Alignment.{IsAligned};

    ghost Value = { WindowsState };

    ghost view = { λ w. record { ahead = drop w.over w.window.items; read = w.read; long = w.long } };

    ghost invariant = { λ w. (w.over ≤ vec_len w.window) × (length (drop w.over w.window.items) ≤ w.read) × (w.read ≤ w.long) × (w.long < 2 ^ 63) × IsAligned w.read w.long };
}

impl Windows {
    /// The octets of a disk, of which none is read yet.
    pub(crate) fn begin<D: DiskCalls>(alloc: Global, disk: &mut D) -> Result<Windows, LogErr>
        ensures none { IfOk result (λ windows. (windows.ahead ≡ []) × (windows.read ≡ 0)) }
        ensures long { Tells D.told disk.old → IfOk result (λ windows. windows.long ≡ length (D.told.seen disk.old)) }
        ensures content { Tells D.told disk.old → UnlessFault result (D.told.seen disk.new ≡ D.told.seen disk.old) }
        ensures moments { Tells D.told disk.old → DiskRun D.told disk.old disk.new (image_now D.told disk.old) }
        ensures clock { Tells D.told disk.old → OneTick (D.told.clock disk.old) (D.told.clock disk.new) result }
        ensures tells { D.told.tells disk.new ≡ D.told.tells disk.old }
        ensures cause { LogCause (D.counts disk.old) (D.counts disk.new) result }
        ensures err { IfErr result IsWantOrFault }
    {
        let long = disk.len()?;
        if long > MOST {
            return Err(LogErr::Memory);
        }
        let window = Vec::with_capacity(alloc, long.min(WINDOW) as usize)?;
        Ok(Windows {
            window,
            over: 0,
            read: 0,
            long,
        })
    }

    /// The octets that were read and not gone over.
    pub(crate) fn ahead(&self) -> &[u8]
        ensures { result.now ≡ self.now.ahead }
    {
        &self.window[self.over..]
    }

    /// Goes over octets that were read.
    pub(crate) fn pass(&mut self, count: usize)
        requires { count ≤ length self.old.ahead }
        ensures { self.new ≡ record { ahead = drop count self.old.ahead; read = self.old.read; long = self.old.long } }
    {
        self.over += count;
    }

    /// How many octets are not gone over.
    pub(crate) fn octets_left(&self) -> u64
        ensures count { result ≡ length self.now.ahead + (self.now.long - self.now.read) }
        ensures within { IsWithin self.now }
    {
        (self.window.len() - self.over) as u64 + (self.long - self.read)
    }

    /// How many octets the disk has.
    pub(crate) fn long(&self) -> u64
        ensures { result ≡ self.now.long }
    {
        self.long
    }

    /// How many octets are gone over.
    pub(crate) fn place(&self) -> u64
        ensures { result + length self.now.ahead ≡ self.now.read }
    {
        self.read - (self.window.len() - self.over) as u64
    }

    /// Reads the next window, where all that was read is gone over.
    fn fill<D: DiskCalls>(&mut self, disk: &mut D) -> Result<(), LogErr>
        requires over { self.old.ahead ≡ [] }
        requires more { self.old.read < self.old.long }
        ensures rest { Tells D.told disk.old → self.old.long ≡ length (D.told.seen disk.old)
            → OnOk result (rest_of (D.told.seen disk.old) self.new ≡ drop self.old.read (D.told.seen disk.old)) }
        ensures window { Tells D.told disk.old → self.old.long ≡ length (D.told.seen disk.old)
            → OnOk result (self.new.ahead ≡ take 65536 (drop self.old.read (D.told.seen disk.old))) }
        ensures smaller { OnOk result (self.new.long - self.new.read < self.old.long - self.old.read) }
        ensures place { self.new.read ≡ self.old.read + length self.new.ahead }
        ensures short { self.new.read ≤ self.old.read + 65536 }
        ensures within { IsWithin self.new }
        ensures looks { Looks D.told D.counts disk.old disk.new self.old self.new result }
        ensures clock { Tells D.told disk.old → FirstTicks (self.old.long - self.old.read) (D.told.clock disk.old) (D.told.clock disk.new) result }
    {
        let size = (self.long - self.read).min(WINDOW) as usize;
        self.window.resize(size, 0)?;
        self.over = size;
        let count = disk.read_at(self.read, &mut self.window)?;
        self.window.truncate(count);
        self.over = 0;
        self.read += count as u64;
        if count < size {
            self.long = self.read;
        }
        Ok(())
    }

    /// Reads the first window.
    pub(crate) fn first<D: DiskCalls>(&mut self, disk: &mut D) -> Result<(), LogErr>
        requires none { (self.old.ahead ≡ []) × (self.old.read ≡ 0) }
        ensures octets { Tells D.told disk.old → self.old.long ≡ length (D.told.seen disk.old)
            → OnOk result ((self.new.ahead ≡ take 65536 (D.told.seen disk.old)) × (rest_of (D.told.seen disk.old) self.new ≡ D.told.seen disk.old)) }
        ensures short { self.new.read ≤ 65536 }
        ensures within { IsWithin self.new }
        ensures looks { Looks D.told D.counts disk.old disk.new self.old self.new result }
        ensures clock { Tells D.told disk.old → FirstTicks self.old.long (D.told.clock disk.old) (D.told.clock disk.new) result }
    {
        if !self.has_more() {
            return Ok(());
        }
        self.fill(disk)
    }

    /// Adds octets that were read to others, at most so many, and says how many are still wanted.
    fn give(&mut self, wanted: usize, into: &mut Vec<u8>) -> Result<usize, AllocError>
        ensures still { IfOk result (λ still. still ≡ wanted - length self.old.ahead) }
        ensures octets { OnOk result (into.new.items ≡ into.old.items ++ take wanted self.old.ahead) }
        ensures windows { OnOk result (self.new ≡ record { ahead = drop wanted self.old.ahead; read = self.old.read; long = self.old.long }) }
        ensures err { OnErr result ((self.new ≡ self.old) × (into.new.items ≡ into.old.items)) }
        ensures within { IsWithin self.new }
    {
        let here = wanted.min(self.window.len() - self.over);
        into.extend_from_slice(&self.window[self.over..self.over + here])?;
        self.over += here;
        Ok(wanted - here)
    }

    /// Whether octets of the disk aren't read yet.
    fn has_more(&self) -> bool
        ensures { result ≡ nat_lt self.now.read self.now.long }
    {
        self.read < self.long
    }

    /// Adds the next octets to others, and says whether there were so many.
    pub(crate) fn take<D: DiskCalls>(
        &mut self,
        disk: &mut D,
        count: usize,
        into: &mut Vec<u8>,
    ) -> Result<bool, LogErr>
        ensures taken { Tells D.told disk.old → self.old.long ≡ length (D.told.seen disk.old)
            → IfOk result (IsTakenOrShort (D.told.seen disk.old) count into.old.items into.new.items self.old self.new) }
        ensures count { IfOk result (λ whole. whole ≡ true → length into.new.items ≡ length into.old.items + count) }
        ensures place { self.new.read + length self.old.ahead + length into.old.items ≡ self.old.read + length self.new.ahead + length into.new.items }
        ensures within { IsWithin self.new }
        ensures looks { Looks D.told D.counts disk.old disk.new self.old self.new result }
    {
        let mut wanted = self.give(count, into)?;
        while wanted > 0 && self.has_more() {
            self.fill(disk)?;
            wanted = self.give(wanted, into)?;
        }
        Ok(wanted == 0)
    }
}
