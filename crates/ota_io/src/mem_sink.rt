// A sink in memory.
ghost use Rattle.std.specs.Prelude.{◌≡◌, ◌⊎◌, ◌<◌, ◌≤◌, ◌-◌, ◌++◌, ◌↔◌, [], true, IsTrue, IsErr, IfOk, OnErr, Contains, length, take, min};
ghost use Rattle.ota_io.specs.Calls.{HasCause, next};

use crate::numbered_calls::NumberedCalls;
use crate::{Failed, Memory, Sink};
use std::alloc::Global;
use std::marker::Model;

/// A sink in memory. It tells its octets, and fails exactly at the calls that are listed and where it has no room.
#[derive(Drop)]
pub struct MemSink {
    octets: Vec<u8>,
    room: usize,
    calls: NumberedCalls,
}

impl Model for MemSink {
    ghost use Rattle.std.specs.Prelude.{◌+◌, ◌≤◌, vec_len, vec_capacity};
    ghost use Rattle.ota_io.specs.InMemory.{SinkState};

    ghost Value = { SinkState };

    ghost view = { λ s. record { written = s.octets.items; room = s.room; calls = s.calls.made; failing = s.calls.failing.items; faults = s.calls.faults } };

    ghost invariant = { λ s. vec_len s.octets + s.room ≤ vec_capacity s.octets };
}

impl MemSink {
    /// An empty sink with room for so many octets, whose calls with these numbers, from 1, fail without effect.
    /// All its memory is taken here.
    pub fn new(alloc: Global, room: usize, failing: Vec<u64>) -> Result<MemSink, Memory>
        ensures { IfOk result (λ sink. sink ≡ record { written = []; room = room; calls = 0; failing = failing.items; faults = 0 }) }
    {
        let octets = Vec::with_capacity(alloc, room).map_err(|_| Memory)?;
        Ok(MemSink {
            octets,
            room,
            calls: NumberedCalls::new(failing),
        })
    }

    /// The octets written.
    pub fn content(&self) -> &[u8]
        ensures { result.now ≡ self.now.written }
    {
        &self.octets
    }

    // Whether there is no room for a piece that isn't empty.
    fn is_full_for(&self, piece: &[u8]) -> bool
        ensures { IsTrue result ↔ ((0 < length piece.now) × (self.now.room ≡ 0)) }
    {
        !piece.is_empty() && self.room == 0
    }
}

impl Sink for MemSink {
    ghost tells = { λ _. true };

    ghost written = { λ s. s.written };

    ghost faults = { λ s. s.faults };

    fn write(&mut self, from: &[u8]) -> Result<usize, Failed>
        ensures count { IfOk result (λ count. count ≤ length from.now) }
        ensures progress { 0 < length from.now → IfOk result (λ count. 0 < count) }
        ensures octets { IfOk result (λ count. self.new.written ≡ self.old.written ++ take count from.now) }
        ensures failed { OnErr result (self.new.written ≡ self.old.written) }
        ensures cause { HasCause self.old.faults self.new.faults result }

        // It takes all that it has room for, and fails at the calls listed, where it has none, and at no other.
        ensures most { IfOk result (λ count. (count ≡ min (length from.now) self.old.room) × (self.new.room ≡ self.old.room - count)) }
        ensures fails { IsErr result ↔ (Contains self.old.failing (next self.old.calls) ⊎ ((0 < length from.now) × (self.old.room ≡ 0))) }
        ensures counted { self.new.calls ≡ next self.old.calls }
        ensures kept { OnErr result (self.new.room ≡ self.old.room) }
        ensures failing { self.new.failing ≡ self.old.failing }
    {
        if self.calls.is_next_listed() || self.is_full_for(from) {
            self.calls.count_fault();
            return Err(Failed);
        }
        let count = from.len().min(self.room);
        self.octets.extend_from_slice(&from[..count]).unwrap();
        self.room -= count;
        Ok(count)
    }
}
