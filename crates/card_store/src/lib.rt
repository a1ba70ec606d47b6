//! The store of a card: its counters, and the commands that it ran, each durable before the next.
#![tactic(auto)]

mod additions;
mod card_lines;
mod issued_facts;
mod kept;
mod laws;
mod openings;
mod parts;
mod scripts;
mod store_errors;
mod stores;

pub use card_lines::CardLine;
pub use laws::{commands_lead_on, stores_hold_cards};
pub use store_errors::StoreErr;
pub use stores::CardStore;

#[cfg(test)]
mod tests;
