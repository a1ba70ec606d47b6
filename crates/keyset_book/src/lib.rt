//! The book of a lane: what its history says of each keyset, job and counter, found without a walk over the history.
//!
//! A book stands for a legal history, and answers as a walk over that history would. Each answer takes the time of a
//! look-up and no memory.
#![tactic(auto)]

mod answers;
mod asked;
mod books;
mod counter_table;
mod entering;
mod job_table;
mod keyset_table;
mod room;
mod rules;

pub use answers::{BookErr, Looked, Settled};
pub use books::Book;

#[cfg(test)]
mod tests;
