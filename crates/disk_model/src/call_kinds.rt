// The calls of a disk, as a disk in memory records them.

/// A call of a disk: places and lengths in octets.
#[derive(Clone, Copy, Debug, PartialEq, Eq)]
pub enum Call {
    Len,
    Read { at: u64, len: u64 },
    Write { at: u64, len: u64 },
    Cut { len: u64 },
    Sync,
}
