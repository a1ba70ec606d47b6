//! The instruction octets (INS) of the commands that a script is read by.

/// READ BINARY (ETSI TS 102 221, 11.1.3). It has no data; P3 is the number of octets wanted.
pub const READ_BINARY: u8 = 0xB0;

/// READ RECORD (ETSI TS 102 221, 11.1.5). It has no data; P3 is the number of octets wanted.
pub const READ_RECORD: u8 = 0xB2;

/// SEARCH RECORD (ETSI TS 102 221, 11.1.7).
pub const SEARCH_RECORD: u8 = 0xA2;

/// GET STATUS (GlobalPlatform Card Specification 2.1.1, 9.4).
pub const GET_STATUS: u8 = 0xF2;
