ghost use Rattle.std.specs.Prelude.{◌≡◌, ◌∷◌, ◌++◌, ◌⊎◌, ◌<◌, [], IfErr, OnOk, OnErr, IsSome, None, Some, is_some, length, reverse};
ghost use Rattle.std.specs.Option.{option_map};
ghost use Rattle.ota_core.specs.History.{broken, broken_batch, IsLegal};
ghost use Rattle.world_core.specs.Journal.{written_to};

use crate::refusals::NotAllowed;
use ota_core::{Entry, History};
use std::alloc::Global;
use std::marker::Model;

/// The journal of a world: the entries that are durable, and behind them those of the batch being written.
#[derive(Debug, Drop)]
pub(crate) struct Journal {
    entries: History,
    durable: usize,
    is_writing: bool,
}

impl Model for Journal {
    ghost use Rattle.std.specs.Prelude.{take, drop};
    ghost use Rattle.world_core.specs.Journal.{JournalState, batch_of, IsJournal};

    ghost Value = { JournalState };

    ghost view = { λ j. record { history = take j.durable j.entries.entries; batch = batch_of j.is_writing (drop j.durable j.entries.entries) } };

    ghost invariant = { λ j. IsJournal j.entries.entries j.durable j.is_writing };
}

impl Journal {
    /// The empty journal.
    pub(crate) fn new(alloc: Global) -> Journal
        ensures { result ≡ record { history = []; batch = None } }
    {
        Journal {
            entries: History::new(alloc),
            durable: 0,
            is_writing: false,
        }
    }

    /// The durable entries.
    pub(crate) fn history(&self) -> &[Entry]
        ensures { result.now ≡ self.now.history }
    {
        &self.entries.entries()[..self.durable]
    }

    /// Whether a batch is being written.
    pub(crate) fn is_writing(&self) -> bool
        ensures { result ≡ is_some self.now.batch }
    {
        self.is_writing
    }

    /// Begins to write the batch.
    pub(crate) fn begin(&mut self, batch: &[Entry]) -> Result<(), NotAllowed>
        requires { self.old.batch ≡ None }
        ensures legal { OnOk result (broken_batch (reverse self.old.history) batch.now ≡ None) }
        ensures begun { OnOk result (self.new ≡ record { history = self.old.history; batch = Some batch.now }) }
        ensures refused { IfErr result (λ refusal. (option_map NotAllowed.Broken (broken_batch (reverse self.old.history) batch.now) ≡ Some refusal) ⊎ ((0 < length batch.now) × (refusal ≡ NotAllowed.Memory))) }
        ensures unchanged { OnErr result (self.new ≡ self.old) }
    {
        self.open_batch();
        for entry in batch {
            if let Err(refusal) = self.append(entry) {
                self.discard();
                return Err(refusal);
            }
        }
        Ok(())
    }

    fn open_batch(&mut self)
        requires { self.old.batch ≡ None }
        ensures { self.new ≡ record { history = self.old.history; batch = Some [] } }
    {
        self.is_writing = true;
    }

    /// Makes the batch durable.
    pub(crate) fn seal(&mut self)
        ensures { self.new ≡ record { history = written_to self.old; batch = None } }
    {
        self.durable = self.entries.entries().len();
        self.is_writing = false;
    }

    /// Drops the batch.
    pub(crate) fn discard(&mut self)
        ensures { self.new ≡ record { history = self.old.history; batch = None } }
    {
        self.entries.truncate(self.durable);
        self.is_writing = false;
    }

    /// Adds an entry to the batch.
    fn append(&mut self, entry: &Entry) -> Result<(), NotAllowed>
        requires { IsSome self.old.batch }
        ensures legal { OnOk result (broken (reverse (written_to self.old)) entry.now ≡ None) }
        ensures added { OnOk result (self.new ≡ record { history = self.old.history; batch = option_map (λ batch. batch ++ entry.now ∷ []) self.old.batch }) }
        ensures refused { IfErr result (λ refusal. (option_map NotAllowed.Broken (broken (reverse (written_to self.old)) entry.now) ≡ Some refusal) ⊎ (refusal ≡ NotAllowed.Memory)) }
        ensures unchanged { OnErr result (self.new ≡ self.old) }
    {
        if let Err(rule) = self.entries.may_add(entry) {
            return Err(NotAllowed::Broken(rule));
        }
        let entry = entry.copy()?;
        self.entries.add(entry)?;
        Ok(())
    }
}
