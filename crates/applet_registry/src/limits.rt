//! What the card has room for, the lengths of AIDs, and the numbers of keysets.

/// The octets that all load files may hold together, with the blocks of a load under way.
pub const LOAD_FILES_ROOM: u32 = 65_536;

/// How many blocks a load may have.
pub const LOAD_BLOCKS: u16 = 256;

/// How many load files there may be.
pub const LOAD_FILES: usize = 32;

/// How many applications there may be.
pub const APPLICATIONS: usize = 64;

/// How many octets a command gives at most.
pub const ANSWER_ROOM: usize = 256;

/// The fewest octets of an AID. ISO/IEC 7816-4, 8.2.1.2.
pub const AID_SHORTEST: usize = 5;

/// The most octets of an AID. ISO/IEC 7816-4, 8.2.1.2.
pub const AID_LONGEST: usize = 16;

/// The least number of a keyset. ETSI TS 102 225, 5.1.2.
pub const KVN_FIRST: u8 = 0x01;

/// The greatest number of a keyset. ETSI TS 102 225, 5.1.2.
pub const KVN_LAST: u8 = 0x0F;
