// A source in memory.
ghost use Rattle.std.specs.Prelude.{◌≡◌, ◌<◌, ◌≤◌, ◌++◌, ◌↔◌, [], true, IsTrue, IsErr, IfOk, OnErr, Contains, length, take, min};
ghost use Rattle.ota_io.specs.Calls.{HasCause, next};

use crate::numbered_calls::NumberedCalls;
use crate::{Failed, Source};
use std::marker::Model;

/// A source in memory. It tells its octets, and fails exactly at the calls that are listed.
#[derive(Drop)]
pub struct MemSource {
    octets: Vec<u8>,
    at: usize,
    calls: NumberedCalls,
}

impl Model for MemSource {
    ghost use Rattle.std.specs.Prelude.{◌≤◌, drop, vec_len};
    ghost use Rattle.ota_io.specs.InMemory.{SourceState};

    ghost Value = { SourceState };

    ghost view = { λ s. record { left = drop s.at s.octets.items; calls = s.calls.made; failing = s.calls.failing.items; faults = s.calls.faults } };

    ghost invariant = { λ s. s.at ≤ vec_len s.octets };
}

impl MemSource {
    /// A source of these octets, whose calls with these numbers, from 1, fail without effect.
    pub fn new(octets: Vec<u8>, failing: Vec<u64>) -> MemSource
        ensures { result ≡ record { left = octets.items; calls = 0; failing = failing.items; faults = 0 } }
    {
        MemSource {
            octets,
            at: 0,
            calls: NumberedCalls::new(failing),
        }
    }
}

impl Source for MemSource {
    ghost tells = { λ _. true };

    ghost left = { λ s. s.left };

    ghost faults = { λ s. s.faults };

    fn read(&mut self, into: &mut [u8]) -> Result<usize, Failed>
        ensures count { IfOk result (λ count. count ≤ length into.old) }
        ensures octets { IfOk result (λ count. self.old.left ≡ take count into.new ++ self.new.left) }
        ensures end { 0 < length into.old → IfOk result (λ count. count ≡ 0 → self.old.left ≡ []) }
        ensures failed { OnErr result (self.new.left ≡ self.old.left) }
        ensures cause { HasCause self.old.faults self.new.faults result }

        // It gives all that there is room for, and fails at the calls listed and no other.
        ensures most { IfOk result (λ count. count ≡ min (length self.old.left) (length into.old)) }
        ensures listed { IsErr result ↔ Contains self.old.failing (next self.old.calls) }
        ensures counted { self.new.calls ≡ next self.old.calls }
        ensures failing { self.new.failing ≡ self.old.failing }
    {
        if self.calls.is_next_listed() {
            self.calls.count_fault();
            return Err(Failed);
        }
        let count = copy_front(&self.octets[self.at..], into);
        self.at += count;
        Ok(count)
    }
}

// Copies as many octets as there are and there is room for.
fn copy_front(octets: &[u8], into: &mut [u8]) -> usize
    ensures count { result ≡ min (length octets.now) (length into.old) }
    ensures copied { take result into.new ≡ take result octets.now }
{
    let count = octets.len().min(into.len());
    into[..count].copy_from_slice(&octets[..count]);
    count
}
