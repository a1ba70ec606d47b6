//! CBC (NIST SP 800-38A) and CMAC (NIST SP 800-38B) with AES, equal to the standards' own words:
//! `specs/Modes.antt`.
#![tactic(auto)]

mod cbc;
mod key_pair;
mod laws;
mod mac;
mod mac_stream;

pub use cbc::{cbc_decrypt, cbc_encrypt};
pub use key_pair::Keys;
pub use laws::{cbc_is_undone, cmac_is_a_block};
pub use mac::{cmac, cmac8};
pub use mac_stream::MacStream;
