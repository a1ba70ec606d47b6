//! The journal of a lane: its history, kept so that a stop at any moment leaves each entry whole or not at all.
#![tactic(auto)]

mod batches;
mod entries_read;
mod entries_written;
mod fields;
mod formats;
mod heads;
mod histories_read;
mod journals;
mod laws;
mod marks;
mod openings;
mod versions;

pub use formats::format;
pub use journals::Journal;
pub use laws::{one_history, openings_keep_the_history, written_entries_are_read};

#[cfg(test)]
mod tests;
