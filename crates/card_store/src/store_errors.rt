use disk_model::DiskFault;
use gate_log::LogErr;
use ota_core::Memory;
use std::alloc::AllocError;

/// Why a call of a card's store did not do its work.
#[derive(Clone, Copy, Debug, PartialEq, Eq)]
pub enum StoreErr {
    /// Memory is wanting.
    Memory,
    /// The disk answered this fault.
    DiskFault(DiskFault),
    /// The disk holds something else than a card's store.
    NotALog,
    /// The disk holds a store whose head ends in these octets.
    OtherHead([u8; 4]),
    /// A part is bad, or the batch that it stands in. The number is that of the first such part, from 1.
    Damaged(u64),
    /// The store has no room: its length in octets, and those that the counter and the commands of its script need.
    Full { length: u64, need: u64 },
}

impl From<LogErr> for StoreErr {
    ghost use Rattle.std.specs.Prelude.{◌≡◌};
    ghost use Rattle.card_store.specs.Refusals.{store_error_of};

    ghost from_gives = { λ error e. e ≡ store_error_of error };

    /// A log that isn't made is no log of a card.
    fn from(error: LogErr) -> StoreErr {
        match error {
            LogErr::Memory => StoreErr::Memory,
            LogErr::DiskFault(fault) => StoreErr::DiskFault(fault),
            LogErr::Unformatted => StoreErr::NotALog,
            LogErr::NotALog => StoreErr::NotALog,
            LogErr::OtherHead(rest) => StoreErr::OtherHead(rest),
            LogErr::Damaged(number) => StoreErr::Damaged(number),
            LogErr::Full { length, need } => StoreErr::Full { length, need },
        }
    }
}

impl From<Memory> for StoreErr {
    ghost use Rattle.std.specs.Prelude.{◌≡◌};
    ghost use Rattle.card_store.specs.declared.store_errors.StoreErr.TheVariants as store_err;

    ghost from_gives = { λ _ e. e ≡ store_err.Memory };

    fn from(_want: Memory) -> StoreErr {
        StoreErr::Memory
    }
}

impl From<AllocError> for StoreErr {
    ghost use Rattle.std.specs.Prelude.{◌≡◌};
    ghost use Rattle.card_store.specs.declared.store_errors.StoreErr.TheVariants as store_err;

    ghost from_gives = { λ _ e. e ≡ store_err.Memory };

    fn from(_want: AllocError) -> StoreErr {
        StoreErr::Memory
    }
}
