//! AES (FIPS 197), equal to the standard's own words: `specs/Field.antt` and `specs/Cipher.antt`.
#![tactic(auto)]

mod cipher;
mod cipher_block;
mod kernel;
mod key_schedule;
mod laws;
mod tables;

pub use cipher_block::CipherBlock;
pub use key_schedule::{KeyLength, KeySchedule};
pub use laws::aes_is_undone;
