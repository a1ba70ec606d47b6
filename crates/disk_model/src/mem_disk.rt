// A disk in memory, for simulations and tests.
ghost use Rattle.std.specs.Prelude.{◌≡◌, ◌≢◌, ◌⊎◌, ◌≤◌, ◌++◌, [], ◌∷◌, true, IfOk, OnOk, MatchOption, IfSome, length, take, ℕ, List};
ghost use Rattle.disk_model.specs.Contents.{image_of};
ghost use Rattle.disk_model.specs.Counts.{HasCause, HasRisen};
ghost use Rattle.disk_model.specs.Disk.{
  image_now,
  DiskRun,
  Ticks,
  Changes,
  Reads,
  overwritten,
  Torn,
  Cut,
  Follows,
  Only,
};
ghost use Rattle.disk_model.specs.Effects.{Nothing, Writes, Cuts, Settles};
ghost use Rattle.disk_model.specs.Events.{effect_of};
ghost use Rattle.disk_model.specs.MemDisk.{MemState, fresh, contents, failure_at as failure_of, FailsAt, Steps, Wants, Arms, mem_told, seen_is_image};

use crate::armed_calls::{ArmedCall, image_at};
use crate::call_log::{CallLog, Event};
use crate::disk_contents::DiskContents;
use crate::{Call, DiskCalls, DiskFault, Image, Memory, SimCalls};
use std::alloc::Global;
use std::marker::Model;

/// A disk in memory. It tells all that a disk tells, and keeps a record of its calls, numbered from 1.
/// A call that finds no memory is not recorded, and does nothing.
#[derive(Drop)]
pub struct MemDisk {
    alloc: Global,
    first: Vec<u8>,
    contents: DiskContents,
    log: CallLog,
    failing: Vec<u64>,
    armed: Vec<ArmedCall>,
    starved: bool,
    faults: u64,
    wants: u64,
}

impl Model for MemDisk {
    ghost use Rattle.std.specs.Prelude.{◌≡◌};
    ghost use Rattle.disk_model.specs.Effects.{contents_after};
    ghost use Rattle.disk_model.specs.MemDisk.{MemState};

    ghost Value = { MemState };

    ghost view = { λ disk. record {
      first = disk.first.items;
      effects = disk.log.effects;
      calls = disk.log.calls;
      failing = disk.failing.items;
      armed = disk.armed.items;
      starved = disk.starved;
      counts = record { faults = disk.faults; wants = disk.wants; beside = 0 };
    } };

    ghost invariant = { λ disk. disk.contents ≡ contents_after disk.first.items disk.log.effects };
}

impl MemDisk {
    /// An empty disk.
    pub fn new(alloc: Global) -> MemDisk
        ensures { result ≡ fresh [] }
    {
        MemDisk {
            alloc,
            first: Vec::new(alloc),
            contents: DiskContents::new(alloc),
            log: CallLog::new(alloc),
            failing: Vec::new(alloc),
            armed: Vec::new(alloc),
            starved: false,
            faults: 0,
            wants: 0,
        }
    }

    /// A disk that holds these octets, synced.
    pub fn of(alloc: Global, octets: &[u8]) -> Result<MemDisk, Memory>
        ensures { IfOk result (λ disk. disk ≡ fresh octets.now) }
    {
        let first = octets.to_vec(alloc)?;
        let contents = DiskContents::from_octets(alloc, octets)?;
        Ok(MemDisk {
            alloc,
            first,
            contents,
            log: CallLog::new(alloc),
            failing: Vec::new(alloc),
            armed: Vec::new(alloc),
            starved: false,
            faults: 0,
            wants: 0,
        })
    }

    /// The same disk, whose calls with these numbers, from 1, fail without effect, in place of those listed before.
    pub fn failing(self, calls: Vec<u64>) -> MemDisk
        ensures { result ≡ record self { failing = calls.items } }
    {
        let mut disk = self;
        disk.failing = calls;
        disk
    }

    /// The disk after a stop now, which leaves this image. Its calls are numbered anew, and none is listed.
    pub fn stopped(&self, image: Image) -> Result<MemDisk, Memory>
        ensures { IfOk result (λ disk. disk ≡ fresh (image_of (contents self.now) image)) }
    {
        MemDisk::of(self.alloc, self.contents.image(image))
    }

    /// The calls so far, in order.
    pub fn calls(&self) -> &[Call]
        ensures { result.now ≡ self.now.calls }
    {
        self.log.calls()
    }

    /// What a read gives now.
    pub fn content(&self) -> &[u8]
        ensures { result.now ≡ (contents self.now).seen }
    {
        self.contents.image(Image::New)
    }

    /// How many calls failed.
    pub fn faults(&self) -> u64
        ensures { result ≡ self.now.counts.faults }
    {
        self.faults
    }

    /// How many calls found no memory.
    pub fn wants(&self) -> u64
        ensures { result ≡ self.now.counts.wants }
    {
        self.wants
    }

    // Answers want of memory.
    fn want(&mut self) -> DiskFault
        ensures fault { result ≡ DiskFault.Memory }
        ensures counted { Wants self.old self.new }
        ensures rises { HasRisen self.old.counts.wants self.new.counts.wants }
    {
        self.starved = false;
        self.wants = self.wants.saturating_add(1);
        DiskFault::Memory
    }

    // A call that does this, unless it is one of those that fail.
    #[tactic(auto, using(crate::specs::EffectLaws::contents_after_more))]
    fn step(&mut self, call: Call, event: Event) -> Result<(), DiskFault>
        ensures step { Steps self.old self.new result call (effect_of event) }
        ensures cause { HasCause self.old.counts self.new.counts result }
    {
        if self.starved {
            return Err(self.want());
        }
        if self.log.reserve().is_err() {
            return Err(self.want());
        }
        let number = self.log.calls().len() as u64 + 1;
        if let Some(failure) = failure_at(&self.failing, &self.armed, number) {
            if self.contents.apply(&failure).is_err() {
                return Err(self.want());
            }
            self.log.add(call, failure);
            self.faults = self.faults.saturating_add(1);
            return Err(DiskFault::Failed);
        }
        if self.contents.apply(&event).is_err() {
            return Err(self.want());
        }
        self.log.add(call, event);
        Ok(())
    }
}

// What the call with this number does where it is one of those that fail.
fn failure_at(failing: &[u64], armed: &[ArmedCall], call: u64) -> Option<Event>
    ensures fails { MatchOption result (¬ FailsAt failing.now armed.now call) (λ _. FailsAt failing.now armed.now call) }
    ensures effect { IfSome result (λ event. effect_of event ≡ failure_of armed.now call) }
{
    if let Some(image) = image_at(armed, call) {
        return Some(Event::Settle(image));
    }
    if failing.contains(&call) {
        return Some(Event::Nothing);
    }
    None
}

impl DiskCalls for MemDisk {
    type Beside = ();

    type Choice = ();

    ghost told = { mem_told };

    ghost counts = { λ disk. disk.counts };

    ghost seen_is_image = { λ disk told. seen_is_image disk };

    fn len(&mut self) -> Result<u64, DiskFault>
        ensures length { IfOk result (λ len. len ≡ length (contents self.old).seen) }
        ensures step { Steps self.old self.new result Call.Len Nothing }
        ensures content { Changes (contents self.old).seen (contents self.new).seen result (contents self.old).seen }
        ensures moments { DiskRun mem_told self.old self.new (image_now mem_told self.old) }
        ensures clock { Ticks (length self.old.effects) (length self.new.effects) result }
        ensures cause { HasCause self.old.counts self.new.counts result }
    {
        self.step(Call::Len, Event::Nothing)?;
        Ok(self.content().len() as u64)
    }

    fn read_at(&mut self, at: u64, into: &mut [u8]) -> Result<usize, DiskFault>
        ensures count { IfOk result (λ count. count ≤ length into.old) }
        ensures octets { IfOk result (Reads (contents self.old).seen at into.old into.new) }
        ensures step { Steps self.old self.new result (Call.Read at (length into.old)) Nothing }
        ensures content { Changes (contents self.old).seen (contents self.new).seen result (contents self.old).seen }
        ensures moments { DiskRun mem_told self.old self.new (image_now mem_told self.old) }
        ensures clock { Ticks (length self.old.effects) (length self.new.effects) result }
        ensures cause { HasCause self.old.counts self.new.counts result }
    {
        let len = into.len() as u64;
        self.step(Call::Read { at, len }, Event::Nothing)?;
        Ok(read_from(self.content(), at, into))
    }

    fn write_at(&mut self, at: u64, from: &[u8]) -> Result<(), DiskFault>
        requires { at ≤ length (contents self.old).seen }
        ensures step { Steps self.old self.new result (Call.Write at (length from.now)) (Writes at from.now) }
        ensures content { Changes (contents self.old).seen (contents self.new).seen result (overwritten (contents self.old).seen at from.now) }
        ensures moments { DiskRun mem_told self.old self.new (Follows (Torn at (length from.now)) (image_now mem_told self.old)) }
        ensures clock { Ticks (length self.old.effects) (length self.new.effects) result }
        ensures cause { HasCause self.old.counts self.new.counts result }
    {
        let len = from.len() as u64;
        match Vec::from_slice(self.alloc, from) {
            Ok(octets) => self.step(Call::Write { at, len }, Event::Write { at, octets }),
            Err(_) => Err(self.want()),
        }
    }

    fn cut(&mut self, len: u64) -> Result<(), DiskFault>
        requires { len ≤ length (contents self.old).seen }
        ensures step { Steps self.old self.new result (Call.Cut len) (Cuts len) }
        ensures content { Changes (contents self.old).seen (contents self.new).seen result (take len (contents self.old).seen) }
        ensures moments { DiskRun mem_told self.old self.new (Follows (Cut len) (image_now mem_told self.old)) }
        ensures clock { Ticks (length self.old.effects) (length self.new.effects) result }
        ensures cause { HasCause self.old.counts self.new.counts result }
    {
        self.step(Call::Cut { len }, Event::Cut { len })
    }

    fn sync(&mut self) -> Result<(), DiskFault>
        ensures durable { OnOk result (Only (contents self.old).seen (image_now mem_told self.new)) }
        ensures step { Steps self.old self.new result Call.Sync (Settles Image.New) }
        ensures content { Changes (contents self.old).seen (contents self.new).seen result (contents self.old).seen }
        ensures moments { DiskRun mem_told self.old self.new (image_now mem_told self.old) }
        ensures clock { Ticks (length self.old.effects) (length self.new.effects) result }
        ensures cause { HasCause self.old.counts self.new.counts result }
    {
        self.step(Call::Sync, Event::Settle(Image::New))
    }
}

impl SimCalls for MemDisk {
    fn arm(&mut self, call: u32, image: Image)
        ensures arms { Arms self.old self.new call image }
        ensures content { (contents self.new).seen ≡ (contents self.old).seen }
        ensures moments { DiskRun mem_told self.old self.new (image_now mem_told self.old) }
        ensures clock { length self.new.effects ≡ length self.old.effects }
        ensures counts { self.new.counts ≡ self.old.counts }
    {
        let call = self.log.calls().len() as u64 + u64::from(call);
        if self.armed.push(ArmedCall { call, image }).is_err() {
            self.starved = true;
        }
    }
}

// Reads as many octets from a place on as there is room for.
fn read_from(octets: &[u8], at: u64, into: &mut [u8]) -> usize
    ensures { Reads octets.now at into.old into.new result }
{
    let place = at.min(octets.len() as u64) as usize;
    let count = into.len().min(octets.len() - place);
    into[..count].copy_from_slice(&octets[place..place + count]);
    count
}
