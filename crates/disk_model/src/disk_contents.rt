// The octets of a disk in memory, as a read gives them and as a stop may leave them.
ghost use Rattle.std.specs.Prelude.{◌≡◌, ◌≤◌, ◌+◌, [], IfOk, OnOk, OnErr, length, take, max, vec_len, vec_capacity, replicate};
ghost use Rattle.disk_model.specs.Disk.{overwritten};
ghost use Rattle.disk_model.specs.Contents.{settled, written, cut_to, image_of};
ghost use Rattle.disk_model.specs.Effects.{changed};
ghost use Rattle.disk_model.specs.Events.{effect_of};

use crate::Image;
use crate::call_log::Event;
use std::alloc::{AllocError, Global};
use std::marker::Model;

const ERASED: u8 = 0xff;

/// Three contents that are the same up to a place, so that a sync copies only what lies behind it.
#[derive(Drop)]
pub(crate) struct DiskContents {
    alloc: Global,
    durable: Vec<u8>,
    seen: Vec<u8>,
    torn: Vec<u8>,
    same: usize,
}

impl Model for DiskContents {
    ghost use Rattle.disk_model.specs.Contents.{Contents};
    ghost use Rattle.disk_model.specs.ContentsInside.{contents_of, IsInOrder};

    ghost Value = { Contents };

    ghost view = { contents_of };

    ghost invariant = { IsInOrder };
}

impl DiskContents {
    pub fn new(alloc: Global) -> Self
        ensures { result ≡ settled [] }
    {
        DiskContents {
            alloc,
            durable: Vec::new(alloc),
            seen: Vec::new(alloc),
            torn: Vec::new(alloc),
            same: 0,
        }
    }

    pub fn from_octets(alloc: Global, octets: &[u8]) -> Result<Self, AllocError>
        ensures { IfOk result (λ contents. contents ≡ settled octets.now) }
    {
        Ok(DiskContents {
            alloc,
            durable: octets.to_vec(alloc)?,
            seen: octets.to_vec(alloc)?,
            torn: octets.to_vec(alloc)?,
            same: octets.len(),
        })
    }

    /// What a stop leaves.
    pub fn image(&self, image: Image) -> &[u8]
        ensures { result.now ≡ image_of self.now image }
    {
        match image {
            Image::Old => &self.durable,
            Image::New => &self.seen,
            Image::Torn => &self.torn,
        }
    }

    /// Does to the octets what a call does. They are as they were where there is no memory.
    pub fn apply(&mut self, event: &Event) -> Result<(), AllocError>
        ensures ok { OnOk result (self.new ≡ changed self.old (effect_of event.now)) }
        ensures err { OnErr result (self.new ≡ self.old) }
    {
        match event {
            Event::Nothing => Ok(()),
            Event::Write { at, octets } => {
                let place = (*at).min(self.seen.len() as u64) as usize;
                self.write(place, octets)
            }
            Event::Cut { len } => {
                let place = (*len).min(self.seen.len() as u64) as usize;
                self.cut(place);
                Ok(())
            }
            Event::Settle(image) => {
                self.settle(*image);
                Ok(())
            }
        }
    }

    /// Writes at a place, without a sync. It is as it was where there is no memory.
    fn write(&mut self, at: usize, octets: &[u8]) -> Result<(), AllocError>
        requires { at ≤ length self.old.seen }
        ensures ok { OnOk result (self.new ≡ written self.old at octets.now) }
        ensures err { OnErr result (self.new ≡ self.old) }
    {
        let erased = vec![in self.alloc; ERASED; octets.len()]?;
        let len = self.seen.len().max(at + octets.len());
        reserve_up_to(&mut self.durable, len)?;
        reserve_up_to(&mut self.seen, len)?;
        reserve_up_to(&mut self.torn, len)?;
        overwrite(&mut self.seen, at, octets);
        overwrite(&mut self.torn, at, &erased);
        self.same = self.same.min(at);
        Ok(())
    }

    /// Cuts to a length, without a sync.
    fn cut(&mut self, len: usize)
        ensures { self.new ≡ cut_to self.old len }
    {
        self.seen.truncate(len);
        self.torn.truncate(len);
        self.same = self.same.min(len);
    }

    /// Leaves one of the images, all of it synced.
    pub fn settle(&mut self, image: Image)
        ensures { self.new ≡ settled (image_of self.old image) }
    {
        match image {
            Image::Old => {
                copy_from(&mut self.seen, &self.durable, self.same);
                copy_from(&mut self.torn, &self.durable, self.same);
            }
            Image::New => {
                copy_from(&mut self.durable, &self.seen, self.same);
                copy_from(&mut self.torn, &self.seen, self.same);
            }
            Image::Torn => {
                copy_from(&mut self.durable, &self.torn, self.same);
                copy_from(&mut self.seen, &self.torn, self.same);
            }
        }
        self.same = self.seen.len();
    }
}

// Makes room for so many octets in all.
fn reserve_up_to(octets: &mut Vec<u8>, len: usize) -> Result<(), AllocError>
    ensures items { octets.new.items ≡ octets.old.items }
    ensures room { OnOk result (len ≤ vec_capacity octets.new) }
    ensures capacity { vec_capacity octets.old ≤ vec_capacity octets.new }
{
    octets.reserve(len.saturating_sub(octets.len()))
}

fn overwrite(octets: &mut Vec<u8>, at: usize, from: &[u8])
    requires place { at ≤ vec_len octets.old }
    requires room { at + length from.now ≤ vec_capacity octets.old }
    ensures items { octets.new.items ≡ overwritten octets.old.items at from.now }
    ensures len { vec_len octets.new ≡ max (vec_len octets.old) (at + length from.now) }
    ensures capacity { vec_capacity octets.old ≤ vec_capacity octets.new }
{
    let over = from.len().min(octets.len() - at);
    octets[at..at + over].copy_from_slice(&from[..over]);
    octets.extend_from_slice(&from[over..]).unwrap();
}

// Makes a content that is the same up to a place the same.
fn copy_from(octets: &mut Vec<u8>, from: &[u8], same: usize)
    requires place { same ≤ length from.now }
    requires front { take same octets.old.items ≡ take same from.now }
    requires room { length from.now ≤ vec_capacity octets.old }
    ensures items { octets.new.items ≡ from.now }
    ensures capacity { vec_capacity octets.old ≤ vec_capacity octets.new }
{
    octets.truncate(same);
    octets.extend_from_slice(&from[same..]).unwrap();
}
