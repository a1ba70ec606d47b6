//! Simulated sites: the disk of a lane's journal, and a port to simulated cards. What is sent is delivered, lost, repeated,
//! reordered or cut as a schedule says, and everything is told of each moment.
#![tactic(auto)]

mod deliveries;
mod lines;
mod made_messages;
mod notes;
mod parts;
mod schedules;
mod sim_site;
mod site_cards;
mod store_sites;
mod traces;

pub use lines::Lines;
pub use schedules::{Act, Cut, Schedule};
pub use sim_site::SimSite;
pub use store_sites::file_sites;

#[cfg(test)]
mod store_tests;
#[cfg(test)]
mod tests;
#[cfg(test)]
mod unsynced_files;
