use disk_model::DiskFault;
use ota_core::Memory;
use std::alloc::{AllocError, AllocFailed};

/// Why a call of a log did not do its work.
#[derive(Clone, Copy, Debug, PartialEq, Eq)]
pub enum LogErr {
    /// Memory is wanting.
    Memory,
    /// The disk answered this fault.
    DiskFault(DiskFault),
    /// No log is made on the disk, or its making was stopped.
    Unformatted,
    /// The disk holds something else than a log of this kind.
    NotALog,
    /// The disk holds a log of this kind whose head ends in these octets.
    OtherHead([u8; 4]),
    /// A batch is damaged. The number is one more than that of the parts in the batches before it.
    Damaged(u64),
    /// The log has no room: its length in octets, and those that the batch needs.
    Full { length: u64, need: u64 },
}

impl From<DiskFault> for LogErr {
    ghost use Rattle.std.specs.Prelude.{◌≡◌};
    ghost use Rattle.gate_log.specs.declared.log_errors.LogErr.TheVariants as log_err;

    ghost from_gives = { λ fault e. e ≡ log_err.DiskFault fault };

    fn from(fault: DiskFault) -> LogErr {
        LogErr::DiskFault(fault)
    }
}

impl From<Memory> for LogErr {
    ghost use Rattle.std.specs.Prelude.{◌≡◌};
    ghost use Rattle.gate_log.specs.declared.log_errors.LogErr.TheVariants as log_err;

    ghost from_gives = { λ _ e. e ≡ log_err.Memory };

    fn from(_want: Memory) -> LogErr {
        LogErr::Memory
    }
}

impl From<AllocError> for LogErr {
    ghost use Rattle.std.specs.Prelude.{◌≡◌};
    ghost use Rattle.gate_log.specs.declared.log_errors.LogErr.TheVariants as log_err;

    ghost from_gives = { λ _ e. e ≡ log_err.Memory };

    fn from(_want: AllocError) -> LogErr {
        LogErr::Memory
    }
}

impl<T: Drop> From<AllocFailed<T>> for LogErr {
    ghost use Rattle.std.specs.Prelude.{◌≡◌};
    ghost use Rattle.gate_log.specs.declared.log_errors.LogErr.TheVariants as log_err;

    ghost from_gives = { λ _ e. e ≡ log_err.Memory };

    fn from(_want: AllocFailed<T>) -> LogErr {
        LogErr::Memory
    }
}
