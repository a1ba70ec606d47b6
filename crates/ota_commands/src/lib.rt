//! The commands of the gateway: what each reads, what it adds to the journals, and what it writes.
#![tactic(auto)]

mod dry_runs;
mod ends;
mod faults;
mod formatting;
mod inputs;
mod laws;
mod opening;
mod packets;
mod plain;
mod reserving;
mod trials;
mod words;
mod writing;

pub use dry_runs::{Drilled, dry_run};
pub use faults::{Fault, Which};
pub use laws::{blank_sites_are_sound, one_response};
pub use plain::{Ended, plain_command};
pub use words::{Command, Words, read_words};

#[cfg(test)]
mod tests;
