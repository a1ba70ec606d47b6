//! A log that a stop at any moment leaves whole: each batch of it counts from the moment its gate is open.
//!
//! A log is a mark octet, a head of nine octets, a gate octet, and then batches, each followed by a gate. A gate of
//! A5 is open and a batch follows; any other is closed and ends the log.
#![tactic(auto)]

mod appends;
mod batches;
mod batches_read;
mod contents;
mod formats;
mod headings;
mod laws;
mod log_errors;
mod logs;
mod measures;
mod readers;
mod standings;
mod windows;

pub use appends::append;
pub use batches::Batch;
pub use formats::format;
pub use laws::{opened_logs_are_spelled, spelled_logs_open};
pub use log_errors::LogErr;
pub use logs::{Log, open, records, sound_records};
pub use readers::LogReader;

#[cfg(test)]
mod tests;
