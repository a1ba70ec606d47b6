//! Scripts on a card: their commands one after the other.
//!
//! ETSI TS 102 226, 5.2.1.
#![tactic(auto)]

mod applet_command;
mod card;
mod file_command;
mod part;
mod ran;
mod step;

pub use card::{CardState, runs_end};
pub use part::Part;
pub use ran::Ran;
pub use step::Step;
