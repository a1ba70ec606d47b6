// The lock of a lane.
ghost use Rattle.std.specs.Prelude.{◌≡◌};

use crate::keeping::Kept;
use crate::plays::LaneRule;
use crate::views::{Key, Known};
use atomic_table::Table;
use std::alloc::Global;

// What a seat has of the table.
pub(crate) type Inner<L> = atomic_table::Seat<Option<L>, Known<L>>;

/// A lane that senders take in turn. Each has a seat. Who has taken the lane puts it back with `leave`.
#[derive(Drop)]
pub struct LaneLock<L: Kept> {
    // Word 0 is the next ticket, word 1 the turn. The lane lies in the one slot.
    pub(crate) table: Table<Option<L>, Known<L>, Key<L>, LaneRule<L>, Global>,
    ghost sized: { (table.shared.table_id.words ≡ 2) × (table.shared.table_id.slots ≡ 1) },
}
