//! A lane, and what it tells of itself.

ghost use Rattle.std.specs.Prelude.{◌≡◌, ◌≤◌, false, true, Option, Some, None, [], All, length};
ghost use Rattle.std.specs.Option.{option_or};
ghost use Rattle.disk_model.specs.Disk.{Tells};
ghost use Rattle.ota_core.specs.History.{IsLegal};
ghost use Rattle.counter_journal.specs.EntryRanges.{IsEntryOf};
ghost use Rattle.counter_journal.specs.JournalReading.{IsReady};
ghost use Rattle.lane_engine.specs.Kept.{KeptSince, IsLater};
ghost use Rattle.lane_engine.specs.Opening.{Opening};

use crate::answers::LaneErr;
use crate::openings::Opened;
use crate::workspaces::Workspace;
use arrayvec::ArrayVec;
use counter_journal::Journal;
use ota_core::{Entry, History};
use site_model::SiteCalls;
use sms_segments::Assembler;
use std::alloc::Global;
use std::marker::Model;
use std::snapshot::Snapshot;

/// A site with its journal open. A lane is for one sender at a time.
///
/// Contracts see its site and journal, whether it is stale, the pieces of messages that it keeps, the moment and the name
/// of the entries to come, its end, where one is set, how it was opened, and the batch that a fault left unknown.
#[derive(Drop)]
pub struct Lane<T: SiteCalls> {
    pub(crate) alloc: Global,
    pub(crate) site: T,
    pub(crate) journal: Journal,
    /// A call of the site answered a fault: the journal is to be opened again.
    pub(crate) is_stale: bool,
    pub(crate) assembler: Assembler,
    pub(crate) workspace: Workspace,
    pub(crate) moment: u64,
    pub(crate) name: ArrayVec<u8, 32>,
    pub(crate) end: Option<LaneErr>,
    /// For contracts alone, as is the next.
    pub(crate) opened: Opened<T>,
    /// The batch whose addition answered a fault: a stop may leave all of it or nothing.
    pub(crate) lost: Snapshot<Vec<Entry>>,
}

impl<T: SiteCalls> Model for Lane<T> {
    ghost use Rattle.lane_engine.specs.LaneValue.{LaneValue, IsLane};
    ghost use Rattle.std.specs.Coded.{codes};
    ghost use Rattle.keyset_book.specs.contracts.books.Book as kept;

    ghost Value = { LaneValue T };

    ghost coded = { Prim.hlevel (codes, kept.the_row.coded) };

    ghost view = { λ l. record { site = l.site; journal = l.journal; is_stale = l.is_stale; heard = l.assembler; moment = l.moment; name = l.name.items; end = l.end; opened = l.opened; lost = l.lost.value.items } };

    ghost invariant = { λ l. IsLane T.told (record { site = l.site; journal = l.journal; is_stale = l.is_stale; heard = l.assembler; moment = l.moment; name = l.name.items; end = l.end; opened = l.opened; lost = l.lost.value.items }) };
}

impl<T: SiteCalls> Lane<T> {
    /// The history that the lane holds. Each reserved script in it has 1 to 4,096 octets. Unless the lane is stale, its journal
    /// opens to it.
    pub fn history(&self) -> &History
        ensures entries { result.now.entries ≡ self.now.journal.entries }
        ensures of_lane { All (IsEntryOf self.now.journal.lane self.now.journal.lanes) self.now.journal.entries }
        ensures legal { IsLegal self.now.journal.entries }
        ensures ready { self.now.is_stale ≡ false → Tells T.told self.now.site → IsReady T.told self.now.site self.now.journal }
    {
        self.journal.history()
    }

    /// Gives the site and the history that the lane holds, and that its journal opens to unless it is stale.
    pub fn into_parts(self) -> (T, History)
        ensures site { result.0 ≡ self.site }
        ensures entries { result.1.entries ≡ self.journal.entries }
        ensures of_lane { All (IsEntryOf self.journal.lane self.journal.lanes) self.journal.entries }
        ensures legal { IsLegal self.journal.entries }
        ensures ready { self.is_stale ≡ false → Tells T.told self.site → IsReady T.told self.site self.journal }
    {
        (self.site, self.journal.into_history())
    }

    /// Sets the moment of the entries to come, 0 at the opening. An entry has the greater of it and the moment of the
    /// last entry, so that moments never fall in a history.
    pub fn at(&mut self, moment: u64)
        ensures { self.new ≡ record self.old { moment = moment } }
    {
        self.moment = moment;
    }

    /// Sets the name of the reservations to come, of at most 32 octets. It is empty at the opening.
    pub fn name(&mut self, name: &[u8])
        requires { length name.now ≤ 32 }
        ensures { self.new ≡ record self.old { name = name.now } }
    {
        self.name.clear();
        let _ = self.name.try_extend_from_slice(name);
    }

    /// Sets the lane's end where it has none. It changes no answer of the other calls.
    pub fn set_end(&mut self, end: LaneErr)
        ensures { self.new ≡ record self.old { end = option_or self.old.end (Some end) } }
    {
        if self.end.is_none() {
            self.end = Some(end);
        }
    }

    /// The end that was set, or None. A lane that was opened has none. Its history is legal, and nothing of it is lost before
    /// a fault, as always.
    pub fn end(&self) -> Option<LaneErr>
        ensures end { result ≡ self.now.end }
        ensures legal { IsLegal self.now.journal.entries }
        ensures whole { self.now.is_stale ≡ false → self.now.lost ≡ [] }
    {
        self.end
    }
}
