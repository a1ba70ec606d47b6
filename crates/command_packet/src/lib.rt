//! Command packets: the secured packets that go to a card.
//!
//! ETSI TS 102 225, 5.1. The profile: AES in CBC mode from a zero block, and a cryptographic checksum of 8 octets
//! by CMAC with AES.
#![tactic(auto)]

mod building;
mod heads;
mod laws;
mod opening;

pub use building::{build, build_in};
pub use heads::kvn_of;
pub use laws::{packets_carry_their_command, packets_name_their_keyset};
pub use opening::{Command, OpenErr, open};
pub use secured_packet::PacketBuf;

#[cfg(test)]
mod tests;
