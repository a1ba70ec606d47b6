//! The load files, the applications and the keysets of a card, and the commands on them.
//!
//! GlobalPlatform Card Specification 2.1.1, 5, 6 and 9.
#![tactic(auto)]

mod aid;
mod application;
mod blocks;
mod data_block;
mod fields;
mod keyset;
pub mod limits;
mod load;
mod load_file;
pub mod registry;
mod status;

pub use registry::Registry;
