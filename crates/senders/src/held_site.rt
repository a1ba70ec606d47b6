// A site for tests, which counts the calls of its port, and can hold a poll of one lane until another lane was polled.
ghost use Rattle.std.specs.Prelude.{[]};
ghost use Rattle.disk_model.specs.Disk.{untold};

use arrayvec::ArrayVec;
use disk_model::{DiskCalls, DiskFault, MemDisk};
use ota_core::{CardId, Reference};
use site_model::{BareSite, SiteCalls, SiteFault};
use std::alloc::Global;
use std::sync::Arc;
use std::sync::atomic::{AtomicBool, Ordering};
use std::thread;

/// How often a wait looks before it gives up.
pub(crate) const MOST_TURNS: u32 = 1_000_000;

/// What two lanes tell each other.
#[derive(Drop)]
pub(crate) struct Flags {
    /// The port of lane 0 waits, or has waited.
    pub(crate) is_held: AtomicBool,
    /// Lane 1 was polled.
    pub(crate) is_polled: AtomicBool,
    /// Somebody waited in vain.
    pub(crate) is_used_up: AtomicBool,
}

impl Flags {
    pub(crate) fn new() -> Flags {
        Flags {
            is_held: AtomicBool::new(false),
            is_polled: AtomicBool::new(false),
            is_used_up: AtomicBool::new(false),
        }
    }

    /// Waits until the flag is set, or the turns are used up.
    pub(crate) fn wait_for(&self, flag: &AtomicBool) {
        for _ in 0..MOST_TURNS {
            if flag.load(Ordering::SeqCst) {
                return;
            }
            thread::yield_now();
        }
        self.is_used_up.store(true, Ordering::SeqCst);
    }
}

/// A site in memory that passes each call on, tells nothing of its content, and counts what its port does.
#[derive(Drop)]
pub(crate) struct HeldSite {
    site: BareSite<MemDisk>,
    lane: u32,
    flags: Arc<Flags, Global>,
    pub(crate) sends: u64,
    pub(crate) polls: u64,
}

impl HeldSite {
    pub(crate) fn new(site: BareSite<MemDisk>, lane: u32, flags: Arc<Flags, Global>) -> HeldSite {
        HeldSite {
            site,
            lane,
            flags,
            sends: 0,
            polls: 0,
        }
    }

    /// Lane 0 waits until lane 1 was polled.
    fn wait(&self) {
        if self.lane != 0 {
            self.flags.is_polled.store(true, Ordering::SeqCst);
            return;
        }
        self.flags.is_held.store(true, Ordering::SeqCst);
        self.flags.wait_for(&self.flags.is_polled);
    }
}

impl DiskCalls for HeldSite {
    type Beside = ();

    type Choice = ();

    ghost told = { untold };

    ghost counts = { λ s. ⟦<BareSite<MemDisk> as DiskCalls>⟧.counts s.site };

    ghost seen_is_image = { λ site told. tt };

    fn len(&mut self) -> Result<u64, DiskFault> {
        self.site.len()
    }

    fn read_at(&mut self, at: u64, into: &mut [u8]) -> Result<usize, DiskFault> {
        self.site.read_at(at, into)
    }

    fn write_at(&mut self, at: u64, from: &[u8]) -> Result<(), DiskFault> {
        if at > self.site.disk().content().len() as u64 {
            return Ok(());
        }
        self.site.write_at(at, from)
    }

    fn cut(&mut self, len: u64) -> Result<(), DiskFault> {
        if len > self.site.disk().content().len() as u64 {
            return Ok(());
        }
        self.site.cut(len)
    }

    fn sync(&mut self) -> Result<(), DiskFault> {
        self.site.sync()
    }
}

impl SiteCalls for HeldSite {
    ghost use Rattle.std.specs.Prelude.{[]};

    ghost port = { λ _. record { sent = []; given = []; facts = []; made = []; polls = 0 } };

    ghost lines = { λ _ _. [] };

    ghost has_choice = { λ site told moment below. (tt, tt) };

    fn send(
        &mut self,
        card: CardId,
        packet: &[u8],
        reference: Reference,
        place: u8,
    ) -> Result<(), SiteFault> {
        self.sends = self.sends.saturating_add(1);
        self.site.send(card, packet, reference, place)
    }

    fn poll(&mut self) -> Result<Option<(CardId, ArrayVec<u8, 140>)>, SiteFault> {
        self.wait();
        self.polls = self.polls.saturating_add(1);
        self.site.poll()
    }
}
