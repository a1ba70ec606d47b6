ghost use Rattle.std.specs.Prelude.{◌≡◌, ◌≤◌, ◌+◌, ◌∷◌, ◌++◌, [], reverse, take, None, Some, OnOk, OnErr, MatchResult};
ghost use Rattle.ota_core.specs.History.{broken, IsLegal};

use crate::entries::{Entry, Illegal};
use crate::rules::may_follow;
use crate::wants::Memory;
use std::alloc::Global;
use std::marker::Model;

/// What happened on a lane, in order. It is legal at each moment. Contracts see the list of its entries, and
/// for how many more entries it has room.
#[derive(Debug, Drop)]
pub struct History {
    entries: Vec<Entry>,
}

impl Model for History {
    ghost use Rattle.std.specs.Prelude.{◌-◌, vec_len, vec_capacity};
    ghost use Rattle.ota_core.specs.History.{IsLegal};
    ghost use Rattle.ota_core.specs.HistoryValue.{HistoryValue};

    ghost Value = { HistoryValue };

    ghost view = { λ h. record { entries = h.entries.items; room = vec_capacity h.entries - vec_len h.entries } };

    ghost invariant = { λ h. IsLegal h.entries.items };
}

impl History {
    /// The empty history.
    pub fn new(alloc: Global) -> History
        ensures { result.entries ≡ [] }
    {
        History {
            entries: Vec::new(alloc),
        }
    }

    /// The history of entries that are legal one after the other. It wants no memory.
    pub fn from_legal(entries: Vec<Entry>) -> History
        requires { IsLegal entries.items }
        ensures { result.entries ≡ entries.items }
    {
        History { entries }
    }

    /// The entries, oldest first.
    pub fn entries(&self) -> &[Entry]
        ensures entries { result.now ≡ self.now.entries }
        ensures legal { IsLegal self.now.entries }
    {
        self.entries.as_slice()
    }

    /// Whether the entry may follow, or the first rule that it breaks.
    pub fn may_add(&self, entry: &Entry) -> Result<(), Illegal>
        ensures { MatchResult result (λ _. broken (reverse self.now.entries) entry.now ≡ None) (λ rule. broken (reverse self.now.entries) entry.now ≡ Some rule) }
    {
        may_follow(self.entries.as_slice(), entry)
    }

    /// Makes room for so many entries more.
    pub fn reserve(&mut self, entries: usize) -> Result<(), Memory>
        ensures entries { self.new.entries ≡ self.old.entries }
        ensures ok { OnOk result (entries ≤ self.new.room) }
        ensures room { self.old.room ≤ self.new.room }
    {
        self.entries.reserve(entries)?;
        Ok(())
    }

    /// Adds an entry that may follow, by `may_add`. It wants no memory where there is room for it.
    pub fn add(&mut self, entry: Entry) -> Result<(), Memory>
        requires { broken (reverse self.old.entries) entry ≡ None }
        ensures ok { OnOk result (self.new.entries ≡ self.old.entries ++ entry ∷ []) }
        ensures err { OnErr result ((self.new.entries ≡ self.old.entries) × (self.old.room ≡ 0)) }
        ensures room { self.old.room ≤ self.new.room + 1 }
    {
        self.entries.push(entry)?;
        Ok(())
    }

    /// Keeps the first `len` entries, or all where there are fewer.
    pub fn truncate(&mut self, len: usize)
        ensures entries { self.new.entries ≡ take len self.old.entries }
        ensures legal { IsLegal self.new.entries }
        ensures room { self.old.room ≤ self.new.room }
    {
        self.entries.truncate(len);
    }
}
