//! What the calls of a lane answer.

use ota_core::{Counter, KeysetId};
use site_model::SiteFault;

/// What a poll answers.
#[derive(Clone, Copy, Debug, PartialEq, Eq)]
pub enum Poll {
    /// The port gave no message.
    Nothing,
    /// The message is a piece of a packet that isn't whole yet.
    More,
    /// The message is none for the gateway: its header is outside the grammar, its packet opens under no keyset that the
    /// history has for the card, or it is a receipt of a counter that isn't reserved.
    NotOurs,
    /// The packet is a response with this status that settles nothing (ETSI TS 102 225, 5.2.2).
    Notice(u8),
    /// The receipt settled this counter of the keyset.
    Settled(KeysetId, Counter),
    /// The receipt's keyset is closed, or its counter is settled.
    Late,
}

/// Why a call of a lane did not do its work. Where several apply, `Stale` comes first, then what the history refuses, and
/// then `Memory`, `Full` and `SiteFault`.
#[derive(Clone, Copy, Debug, PartialEq, Eq)]
pub enum LaneErr {
    /// Memory is wanting.
    Memory,
    /// A call of the site answered a fault since the lane was opened.
    Stale,
    /// The site answered this fault.
    SiteFault(SiteFault),
    /// The journal has no room: its length in octets, and those that the batch needs.
    Full { length: u64, need: u64 },
    /// The keyset is closed.
    Closed,
    /// No counter of the keyset is left.
    Exhausted,
    /// The keyset isn't opened.
    UnknownKeyset,
    /// The job's last reservation isn't refused. It has this counter.
    AlreadyReserved(Counter),
    /// The counter isn't reserved, or it is settled.
    NotReserved,
}

impl From<SiteFault> for LaneErr {
    ghost use Rattle.std.specs.Prelude.{◌≡◌};
    ghost use Rattle.lane_engine.specs.declared.answers.LaneErr.TheVariants as lane_err;

    ghost from_gives = { λ fault e. e ≡ lane_err.SiteFault fault };

    fn from(fault: SiteFault) -> LaneErr {
        LaneErr::SiteFault(fault)
    }
}

impl From<ota_core::Memory> for LaneErr {
    ghost use Rattle.std.specs.Prelude.{◌≡◌};
    ghost use Rattle.lane_engine.specs.declared.answers.LaneErr.TheVariants as lane_err;

    ghost from_gives = { λ _ e. e ≡ lane_err.Memory };

    fn from(_want: ota_core::Memory) -> LaneErr {
        LaneErr::Memory
    }
}
