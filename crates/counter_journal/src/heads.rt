//! The head of a journal.

ghost use Rattle.std.specs.Prelude.{◌≡◌};
ghost use Rattle.counter_journal.specs.Journal.{journal_head};

/// The head of the journal of a lane: a name, a version, the lane and the number of lanes.
pub(crate) fn head_of(lane: u16, lanes: u16) -> [u8; 9]
    ensures { result ≡ journal_head lane lanes }
{
    let [lane_high, lane_low] = lane.to_be_bytes();
    let [lanes_high, lanes_low] = lanes.to_be_bytes();
    [
        b'O', b'T', b'A', b'J', 0x01, lane_high, lane_low, lanes_high, lanes_low,
    ]
}
