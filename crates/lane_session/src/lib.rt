//! A session on the journals of all lanes: how they are opened, and what is added for the rows of a list of jobs.
#![tactic(auto)]

mod differences;
mod due;
mod formatting;
mod histories;
mod lanes;
mod laws;
mod opening;
mod opens;
mod rows;
mod session;

pub use differences::{job_difference, keyset_difference};
pub use formatting::format_lanes;
pub use histories::into_histories;
pub use lanes::Lane;
pub use laws::{each_job_stays_live_once, grown_histories_are_legal};
pub use opening::{OpeningErr, open_lanes};
pub use session::add_for_rows;

#[cfg(test)]
mod tests;
