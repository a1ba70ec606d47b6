//! Commands in compact scripts: where each one begins and ends, what it is answered, and the compact
//! response.
//!
//! ETSI TS 102 226, 5.2.1 has the compact format; ETSI TS 102 221, 10 has the command and its answer.
#![tactic(auto)]

pub mod apdu;
pub mod compact;
pub mod instruction;
pub mod refusal;
pub mod reply;
pub mod script;

pub use apdu::{Apdu, Next, next_apdu};
pub use compact::compact_response;
pub use refusal::{DONE, Refusal};
pub use reply::Reply;
pub use script::{ScriptErr, count_commands, one_reading, split_script};
