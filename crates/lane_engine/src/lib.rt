//! A lane: a site with its journal open. Its calls reserve counters, hand packets to the port, and settle what cards
//! answer.
#![tactic(auto)]

mod adding;
mod answers;
mod keeping;
mod keysets;
mod lanes;
mod laws;
mod openings;
mod polling;
mod reserving;
mod responses;
mod sending;
mod unsettled;
mod workspaces;

pub use answers::{LaneErr, Poll};
pub use lanes::Lane;
pub use laws::bare_cards_act;
pub use openings::Opened;
