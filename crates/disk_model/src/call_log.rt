// The record of the calls of a disk in memory, and of what each did.
ghost use Rattle.std.specs.Prelude.{◌≡◌, ◌<◌, ◌≤◌, ◌-◌, [], ◌∷◌, ◌++◌, OnOk, length};
ghost use Rattle.disk_model.specs.Events.{effect_of};

use crate::{Call, Image};
use std::alloc::{AllocError, Global};
use std::marker::Model;

/// What a call did.
#[derive(Drop)]
pub(crate) enum Event {
    Nothing,
    Write { at: u64, octets: Vec<u8> },
    Cut { len: u64 },
    /// This image of the disk is all of it, and synced.
    Settle(Image),
}

#[derive(Drop)]
pub(crate) struct CallLog {
    calls: Vec<Call>,
    events: Vec<Event>,
}

impl Model for CallLog {
    ghost use Rattle.std.specs.Prelude.{◌≡◌, ◌-◌, map, min, vec_len, vec_capacity};
    ghost use Rattle.disk_model.specs.CallLog.{Logged};

    ghost Value = { Logged };

    ghost use Rattle.disk_model.specs.Events.{effect_of};

    ghost view = { λ log. record {
      calls = log.calls.items;
      effects = map effect_of log.events.items;
      room = min (vec_capacity log.calls - vec_len log.calls) (vec_capacity log.events - vec_len log.events);
    } };

    ghost invariant = { λ log. vec_len log.calls ≡ vec_len log.events };
}

impl CallLog {
    pub fn new(alloc: Global) -> Self
        ensures calls { result.calls ≡ [] }
        ensures effects { result.effects ≡ [] }
    {
        CallLog {
            calls: Vec::new(alloc),
            events: Vec::new(alloc),
        }
    }

    /// The calls so far, in order.
    pub fn calls(&self) -> &[Call]
        ensures calls { result.now ≡ self.now.calls }
        ensures as_many { length self.now.calls ≡ length self.now.effects }
    {
        &self.calls
    }

    /// Makes room for one more.
    pub fn reserve(&mut self) -> Result<(), AllocError>
        ensures calls { self.new.calls ≡ self.old.calls }
        ensures effects { self.new.effects ≡ self.old.effects }
        ensures room { OnOk result (1 ≤ self.new.room) }
    {
        self.calls.reserve(1)?;
        self.events.reserve(1)
    }

    pub fn add(&mut self, call: Call, event: Event)
        requires { 1 ≤ self.old.room }
        ensures calls { self.new.calls ≡ self.old.calls ++ call ∷ [] }
        ensures effects { self.new.effects ≡ self.old.effects ++ effect_of event ∷ [] }
    {
        self.calls.push(call).unwrap();
        self.events.push(event).unwrap();
    }
}
