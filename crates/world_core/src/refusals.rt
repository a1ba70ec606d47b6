ghost use Rattle.std.specs.Prelude.{◌≡◌};

use ota_core::{Illegal, Memory};

/// Why an event can't happen. Where several hold, the first in this order is named; want of memory is free.
#[derive(Clone, Copy, Debug, PartialEq, Eq)]
pub enum NotAllowed {
    /// Memory is wanting.
    Memory,
    /// The gateway is down.
    Down,
    /// The gateway is up.
    Up,
    /// A batch is being written.
    BatchOpen,
    /// No batch is being written.
    NoBatch,
    /// The batch breaks this rule.
    Broken(Illegal),
    /// No reservation stands there.
    NoReservation,
    /// The reservation's packet hasn't that place.
    BadPlace,
    /// The card isn't there.
    NoCard,
    /// The pieces are no whole packet for that card.
    NotWhole,
    /// The card can't make that step.
    BadStep,
    /// There is no such answer, or none was given for a settlement.
    NoAnswer,
}

impl From<Memory> for NotAllowed {
    ghost use Rattle.world_core.specs.declared.refusals.NotAllowed.TheVariants as refused;

    ghost from_gives = { λ _ refusal. refusal ≡ refused.Memory };

    fn from(_want: Memory) -> NotAllowed {
        NotAllowed::Memory
    }
}
