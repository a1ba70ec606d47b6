//! A lock of a lane that many senders share: tickets, a turn, and one slot in which the lane lies.
//!
//! What a sender puts back is what the next one finds. At close the lane is the one that was put in, grown by exactly
//! the entries that each seat added. Nothing is said of progress: not that a turn comes, and not in which order
//! waiting senders are served.
#![tactic(auto)]

mod gathering;
mod keeping;
mod locks;
mod making;
mod plays;
mod seats;
mod turns;
mod views;

pub use keeping::Kept;
pub use locks::LaneLock;
pub use plays::LaneRule;
pub use seats::{Held, Seat};
pub use views::{Key, Known, Part, Sight, Stage, View};

#[cfg(test)]
mod tests;
