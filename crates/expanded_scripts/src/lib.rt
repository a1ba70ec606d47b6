//! Expanded command scripts: their reading, their writing, and their run on a card.
//!
//! ETSI TS 102 226, 5.2.2, with definite lengths.
#![tactic(auto)]

mod commands;
mod laws;
mod lengths;
mod reading;
mod running;
mod scripts;
mod writing;

pub use laws::one_reading;
pub use reading::{TemplateErr, read_template};
pub use running::run_expanded;
pub use scripts::Expanded;
pub use writing::{write_template, written_len};

#[cfg(test)]
mod tests;
