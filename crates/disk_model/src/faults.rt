// Why a call of a disk did not do its work.
ghost use Rattle.std.specs.Prelude.{◌≡◌};

use std::alloc::AllocError;

/// The fault of a call of a disk. Each is answered only where the disk's count of that cause rose in the call.
#[derive(Clone, Copy, Debug, PartialEq, Eq)]
pub enum DiskFault {
    /// The device failed.
    Failed,
    /// A disk in memory found none.
    Memory,
}

/// There was no memory.
#[derive(Clone, Copy, Debug, PartialEq, Eq)]
pub struct Memory;

impl From<AllocError> for Memory {
    ghost from_gives = { λ _ error. error ≡ record {} };

    fn from(_: AllocError) -> Self {
        Memory
    }
}
