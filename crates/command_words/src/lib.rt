//! The words of the commands: what they say, for how many lanes, and where the files are. The options of each command are
//! read as those of one simple command.
#![tactic(auto)]

mod commands;
mod drills;
mod kinds;
mod names;
mod options;
mod places;
mod reading;
mod values;

pub use commands::{Command, Reserving, Sending, Shown};
pub use drills::{Drill, read_drill};
pub use names::Name;
pub use places::Paths;
pub use reading::{Words, command_for, read_words};

#[cfg(test)]
mod tests;
