//! One lane with its cards, as a machine over events: what was written to the journal, what was sent, what the cards
//! logged, what they answered and which answers reached the gateway.
//!
//! A packet here is a reservation and a place of it; octets, ciphers and locks aren't in it. Losing a packet is never
//! delivering it, and an event may deliver any packet again and in any order.
#![tactic(auto)]

mod answers;
mod batches;
mod card_steps;
mod cards;
mod events;
mod journals;
mod lines;
mod packets;
mod parts;
mod pieces;
mod receiving;
mod refusals;
mod segments;
mod worlds;

pub use answers::Made;
pub use batches::Batch;
pub use card_steps::CardStep;
pub use events::Event;
pub use lines::Line;
pub use pieces::Pieces;
pub use refusals::NotAllowed;
pub use segments::Sent;
pub use worlds::World;
