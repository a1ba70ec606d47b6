//! What command and response packets share: fields, padding, ciphering, and the cryptographic checksum.
//!
//! ETSI TS 102 225, 5.1 and 5.2. The profile: AES in CBC mode from a zero block, and a cryptographic checksum of 8 octets
//! by CMAC with AES.
#![tactic(auto)]

pub mod checks;
pub mod fields;
pub mod protection;

pub use fields::PacketBuf;
