//! How entries are put into a batch.

ghost use Rattle.std.specs.Prelude.{◌≡◌, ◌+◌, ◌*◌, ◌≤◌, [], All, length, IfOk};
ghost use Rattle.gate_log.specs.Batches.{octets_in};
ghost use Rattle.counter_journal.specs.EntryRanges.{IsSized, IsEntry, LONGEST_ENTRY};
ghost use Rattle.counter_journal.specs.JournalReading.{parts_for};

use crate::entries_written::{EntryBuf, write_entry};
use gate_log::Batch;
use ota_core::{Entry, Memory};
use std::alloc::Global;

/// The greatest number of octets in an entry that is added.
const ENTRY_OCTETS: u32 = 4167;

/// An empty batch with room for so many entries, of 1 to 16.
pub fn room_for(alloc: Global, entries: u32) -> Result<Batch, Memory>
    requires some { 1 ≤ entries }
    requires few { entries ≤ 16 }
    ensures { IfOk result (λ batch. batch ≡ record { parts = []; parts_room = entries; octets_room = LONGEST_ENTRY * entries }) }
{
    Batch::room(alloc, entries, ENTRY_OCTETS * entries)
}

/// Puts the entries into an empty batch that has room for them.
pub fn put_entries(batch: &mut Batch, entries: &[Entry])
    requires empty { batch.old.parts ≡ [] }
    requires sized { All IsSized entries.now }
    requires parts { length entries.now ≤ batch.old.parts_room }
    requires octets { LONGEST_ENTRY * length entries.now ≤ batch.old.octets_room }
    ensures parts { batch.new.parts ≡ parts_for entries.now }
    ensures parts_room { batch.new.parts_room + length entries.now ≡ batch.old.parts_room }
    ensures octets_room { batch.new.octets_room + octets_in batch.new.parts ≡ batch.old.octets_room }
    ensures fit { All IsEntry entries.now }
{
    let mut octets = EntryBuf::new();
    for entry in entries {
        write_entry(entry, &mut octets);
        batch.put(octets.as_slice());
    }
}
