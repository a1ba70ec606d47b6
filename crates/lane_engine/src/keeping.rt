//! A lane in the lock of the senders that share it.

ghost use Rattle.lane_engine.specs.Keeping.{lane_meaning};
ghost use Rattle.lane_engine.specs.KeepingLaws.{later_itself, later_chain};

use crate::answers::LaneErr;
use crate::lanes::Lane;
use crate::openings::Opened;
use lane_lock::Kept;
use ota_core::Entry;
use site_model::Site;

impl<T: Site> Kept for Lane<T> {
    type Opening = Opened<T>;

    type Entry = Entry;

    type End = LaneErr;

    ghost meaning = { lane_meaning T.told T.counts T.port T.lines };

    ghost later_itself = { later_itself T.told T.counts T.port T.lines };

    ghost later_chain = { later_chain T.told T.counts T.port T.lines };

    ghost later_opening = { λ a b later. later.opened };
}
