//! Packets in short messages: how a packet is cut into messages with a user data header, and how what
//! arrives is put together again.
//!
//! 3GPP TS 23.040, 9.2.3.24 has the header and the concatenation; 3GPP TS 31.115, 4 the information
//! elements of secured packets.
#![tactic(auto)]

mod assembling;
mod concatenations;
mod cutting;
mod headers;
mod kept_pieces;
mod laws;

pub use assembling::{Assembler, Push};
pub use cutting::{piece, pieces_of};
pub use headers::{is_wide, is_wide_reference};
pub use laws::pieces_make_packets;

#[cfg(test)]
mod tests;
