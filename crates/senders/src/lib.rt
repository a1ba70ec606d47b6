//! The senders of a campaign: threads that take pieces of work from a queue, and share each lane through its lock; then
//! each lane by itself, whose unsettled jobs are sent again.
//!
//! Nothing is said of progress: not that a lane's turn comes, and not that two threads run at once.
#![tactic(auto)]

mod alone;
mod benches;
mod desks;
mod gates;
mod job_lists;
mod locking;
mod passes;
mod pieces;
mod rooms;
mod rounds;
mod rows;
mod serving;
mod settings;
mod sharing;
mod working;

pub use benches::{Fair, Hand, Terms};
pub use gates::{Gate, OpenGate};
pub use job_lists::JobList;
pub use pieces::Work;
pub use settings::Settings;
pub use working::{Worked, work};

#[cfg(test)]
mod held_site;
#[cfg(test)]
mod tests;
