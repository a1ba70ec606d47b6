//! Response packets: what a card answers, and the status codes.
//!
//! ETSI TS 102 225, 5.2; 3GPP TS 31.115, 4.4. The profile: AES in CBC mode from a zero block, and a cryptographic
//! checksum of 8 octets by CMAC with AES, or neither.
#![tactic(auto)]

mod answers;
mod building;
mod fronts;
mod opening;

pub use answers::{Answer, AnswerErr, AnswerIn};
pub use building::{build, build_in, build_plain};
pub use opening::{is_settling, open, open_in, unsecured_status};

#[cfg(test)]
mod tests;
