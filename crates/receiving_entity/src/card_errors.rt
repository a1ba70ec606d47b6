use ota_core::Memory;
use std::alloc::AllocError;
use std::error::Error;
use std::fmt;

/// Why a card answers no messages.
#[derive(Clone, Copy, Debug, PartialEq, Eq)]
pub enum CardErr {
    /// Memory is wanting, the card's or its disk's.
    Memory,
    /// The power was cut: the disk failed at a call.
    PowerCut,
    /// The store has no room: its length in octets, and those that the counter and the commands of its script need. The
    /// packet is dropped.
    Full { length: u64, need: u64 },
    /// The card is off, and is to be restarted.
    Off,
}

impl fmt::Display for CardErr {
    fn fmt<W: fmt::Write>(&self, f: &mut fmt::Formatter<W>) -> fmt::Result {
        match self {
            CardErr::Memory => write!(f, "out of memory"),
            CardErr::PowerCut => write!(f, "the power of the card was cut"),
            CardErr::Full { length, need } => {
                write!(f, "card store full: length {length} need {need}")
            }
            CardErr::Off => write!(f, "the card is off"),
        }
    }
}

impl Error for CardErr {}

impl From<Memory> for CardErr {
    ghost use Rattle.std.specs.Prelude.{◌≡◌};
    ghost use Rattle.receiving_entity.specs.declared.card_errors.CardErr.TheVariants as card_err;

    ghost from_gives = { λ _ e. e ≡ card_err.Memory };

    fn from(_want: Memory) -> CardErr {
        CardErr::Memory
    }
}

impl From<AllocError> for CardErr {
    ghost use Rattle.std.specs.Prelude.{◌≡◌};
    ghost use Rattle.receiving_entity.specs.declared.card_errors.CardErr.TheVariants as card_err;

    ghost from_gives = { λ _ e. e ≡ card_err.Memory };

    fn from(_want: AllocError) -> CardErr {
        CardErr::Memory
    }
}
