//! The files of a card, and the commands on them.
//!
//! ETSI TS 102 221, 8 and 11.1; ETSI TS 102 222, 6.
#![tactic(auto)]

pub mod files;
mod fresh;
mod kind;
pub mod limits;
mod path;
mod tree;

pub use files::Files;
