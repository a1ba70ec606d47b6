//! The texts that commands write: what has become of the jobs of a campaign and when, the keysets of its cards, and the
//! messages of the jobs that wait for an answer. Each is a function of jobs or cards and of the histories of the lanes.
#![tactic(auto)]

mod cards;
mod keyset_counts;
mod lane_books;
mod lane_indexes;
mod later_keysets;
mod notes;
mod packets;
mod places;
mod report;
mod summary;
mod times;

pub use cards::cards_text;
pub use packets::packet_text;
pub use report::report_text;
pub use summary::summary_text;
pub use times::times_text;

#[cfg(test)]
mod tests;
