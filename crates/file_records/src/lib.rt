//! The files of a card: their contents, and what a command does to one file.
//!
//! ETSI TS 102 221, 8 has the kinds of files and 11.1 the commands.
#![tactic(auto)]

pub mod binary;
pub mod contents;
pub mod file;
pub mod records;
mod span;
mod sum;
mod table;

pub use binary::Binary;
pub use contents::Contents;
pub use file::File;
pub use records::Records;
