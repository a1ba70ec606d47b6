//! What holds of command packets and response packets together.
//!
//! ETSI TS 102 225, 5.1 and 5.2.
#![tactic(auto)]

mod laws;

pub use laws::checksums_apart;
