//! What the card has room for.

/// The octets that all EFs may hold together.
pub const FILES_ROOM: u32 = 32_768;

/// How many files there may be, the MF among them.
pub const FILES: usize = 256;

/// How many DFs deep below the MF a DF may be.
pub const FOLDERS_DEEP: usize = 3;

/// How many identifiers a path has at most, without the MF's: those of three DFs and an EF.
pub const PATH_LEN: usize = 4;

/// How many records an EF may have.
pub const RECORDS: u16 = 254;

/// The identifier of the MF. ETSI TS 102 221, 8.6.
pub const MF: u16 = 0x3F00;
