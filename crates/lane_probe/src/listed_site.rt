//! A site in memory whose listed calls fail.

ghost use Rattle.std.specs.Prelude.{◌≡◌, [], IfOk, IfErr, OnErr};
ghost use Rattle.disk_model.specs.Counts.{HasCause};
ghost use Rattle.disk_model.specs.Disk.{untold};

use anyhow::bail;
use arrayvec::ArrayVec;
use disk_model::{DiskCalls, DiskFault, Image, MemDisk};
use ota_core::{CardId, Memory, Octets, Reference};
use site_model::{BareSite, Departure, SiteCalls, SiteFault};
use std::alloc::Global;

/// A disk in memory with these octets.
pub fn disk_of(alloc: Global, octets: &[u8]) -> anyhow::Result<MemDisk> {
    match MemDisk::of(alloc, octets) {
        Ok(disk) => Ok(disk),
        Err(_) => bail!("memory is wanting"),
    }
}

/// A kind of calls. Those of a kind are numbered from 1.
#[derive(Clone, Copy, PartialEq, Eq)]
pub enum Kind {
    /// The disk's length, or a read.
    Look,
    /// A write, a cut or a sync.
    Change,
    /// A call of the port.
    Port,
}

/// How many calls of each kind were made.
#[derive(Drop)]
struct Calls {
    looks: u64,
    changes: u64,
    ports: u64,
}

impl Calls {
    /// Counts a call of this kind, and gives its number.
    fn next(&mut self, kind: Kind) -> u64 {
        let count = match kind {
            Kind::Look => &mut self.looks,
            Kind::Change => &mut self.changes,
            Kind::Port => &mut self.ports,
        };
        *count = count.saturating_add(1);
        *count
    }
}

/// A site in memory that tells nothing of its content. A listed call fails without effect. What left by the port is kept.
#[derive(Drop)]
pub struct ListedSite {
    alloc: Global,
    site: BareSite<MemDisk>,
    failing: Vec<(Kind, u64)>,
    calls: Calls,
    left: Vec<Departure>,
    faults: u64,
    wants: u64,
    empty_polls: u64,
}

impl ListedSite {
    pub fn new(alloc: Global, site: BareSite<MemDisk>, failing: Vec<(Kind, u64)>) -> ListedSite {
        ListedSite {
            alloc,
            site,
            failing,
            calls: Calls {
                looks: 0,
                changes: 0,
                ports: 0,
            },
            left: Vec::new(alloc),
            faults: 0,
            wants: 0,
            empty_polls: 0,
        }
    }

    /// The pieces that left, in order.
    pub fn left(&self) -> &[Departure] {
        self.left.as_slice()
    }

    /// The disk after a stop now.
    pub fn stopped(&self, image: Image) -> anyhow::Result<MemDisk> {
        match self.site.disk().stopped(image) {
            Ok(disk) => Ok(disk),
            Err(_) => bail!("memory is wanting"),
        }
    }

    /// How many octets the disk has.
    pub fn length(&self) -> u64 {
        self.site.disk().content().len() as u64
    }

    /// Whether the next call of this kind is one that fails.
    fn fails(&mut self, kind: Kind) -> bool
        ensures faults { self.new.faults ≡ self.old.faults }
        ensures wants { self.new.wants ≡ self.old.wants }
        ensures empty_polls { self.new.empty_polls ≡ self.old.empty_polls }
    {
        let number = self.calls.next(kind);
        self.failing.contains(&(kind, number))
    }

    /// Counts what a call of the disk answered.
    fn counted<T: Drop>(&mut self, answer: Result<T, DiskFault>) -> Result<T, DiskFault>
        ensures same { result ≡ answer }
        ensures cause { HasCause (record { faults = self.old.faults; wants = self.old.wants; beside = self.old.empty_polls }) (record { faults = self.new.faults; wants = self.new.wants; beside = self.new.empty_polls }) result }
    {
        match answer {
            Ok(value) => Ok(value),
            Err(DiskFault::Failed) => {
                self.faults = self.faults.saturating_add(1);
                Err(DiskFault::Failed)
            }
            Err(DiskFault::Memory) => {
                self.wants = self.wants.saturating_add(1);
                Err(DiskFault::Memory)
            }
        }
    }

    /// Keeps a piece that leaves.
    fn keep(
        &mut self,
        card: CardId,
        packet: &[u8],
        reference: Reference,
        place: u8,
    ) -> Result<(), Memory>
        ensures faults { self.new.faults ≡ self.old.faults }
        ensures wants { self.new.wants ≡ self.old.wants }
        ensures empty_polls { self.new.empty_polls ≡ self.old.empty_polls }
    {
        let packet = Octets::from_slice(self.alloc, packet)?;
        self.left.push(Departure {
            card,
            packet,
            reference,
            place,
        })?;
        Ok(())
    }
}

impl DiskCalls for ListedSite {
    type Beside = ();

    type Choice = ();

    ghost told = { untold };

    ghost counts = { λ site. record { faults = site.faults; wants = site.wants; beside = site.empty_polls } };

    ghost seen_is_image = { λ site told. tt };

    fn len(&mut self) -> Result<u64, DiskFault> {
        if self.fails(Kind::Look) {
            return self.counted(Err(DiskFault::Failed));
        }
        let answer = self.site.len();
        self.counted(answer)
    }

    fn read_at(&mut self, at: u64, into: &mut [u8]) -> Result<usize, DiskFault> {
        if self.fails(Kind::Look) {
            return self.counted(Err(DiskFault::Failed));
        }
        let answer = self.site.read_at(at, into);
        self.counted(answer)
    }

    fn write_at(&mut self, at: u64, from: &[u8]) -> Result<(), DiskFault> {
        if self.fails(Kind::Change) || at > self.site.disk().content().len() as u64 {
            return self.counted(Err(DiskFault::Failed));
        }
        let answer = self.site.write_at(at, from);
        self.counted(answer)
    }

    fn cut(&mut self, len: u64) -> Result<(), DiskFault> {
        if self.fails(Kind::Change) || len > self.site.disk().content().len() as u64 {
            return self.counted(Err(DiskFault::Failed));
        }
        let answer = self.site.cut(len);
        self.counted(answer)
    }

    fn sync(&mut self) -> Result<(), DiskFault> {
        if self.fails(Kind::Change) {
            return self.counted(Err(DiskFault::Failed));
        }
        let answer = self.site.sync();
        self.counted(answer)
    }
}

impl SiteCalls for ListedSite {
    ghost use Rattle.std.specs.Prelude.{[]};

    ghost port = { λ _. record { sent = []; given = []; facts = []; made = []; polls = 0 } };

    ghost lines = { λ _ _. [] };

    ghost has_choice = { λ site told moment below. (tt, tt) };

    fn send(
        &mut self,
        card: CardId,
        packet: &[u8],
        reference: Reference,
        place: u8,
    ) -> Result<(), SiteFault> {
        if self.fails(Kind::Port) {
            self.faults = self.faults.saturating_add(1);
            return Err(SiteFault::Failed);
        }
        if self.keep(card, packet, reference, place).is_err() {
            self.wants = self.wants.saturating_add(1);
            return Err(SiteFault::Memory);
        }
        Ok(())
    }

    fn poll(&mut self) -> Result<Option<(CardId, ArrayVec<u8, 140>)>, SiteFault> {
        if self.fails(Kind::Port) {
            self.faults = self.faults.saturating_add(1);
            return Err(SiteFault::Failed);
        }
        match self.site.poll() {
            Ok(Some(message)) => Ok(Some(message)),
            Ok(None) => {
                self.empty_polls = self.empty_polls.saturating_add(1);
                Ok(None)
            }
            Err(SiteFault::Failed) => {
                self.faults = self.faults.saturating_add(1);
                Err(SiteFault::Failed)
            }
            Err(SiteFault::Memory) => {
                self.wants = self.wants.saturating_add(1);
                Err(SiteFault::Memory)
            }
        }
    }
}
