//! A card's receiving entity: it takes messages, puts packets together, and answers each by the first rule that applies,
//! with the counter durable before the script runs, and each command before the next.
//!
//! ETSI TS 102 225, 5.1 and 5.2; ETSI TS 102 226, 5.2.1. The order of the rules is this product's own.
#![tactic(auto)]

mod answers;
mod card_errors;
mod cards;
mod fields;
mod laws;
mod running;
mod stops;
mod taking;
mod verdicts;

pub use card_errors::CardErr;
pub use cards::Card;
pub use laws::answered_as_reserved;

#[cfg(test)]
mod counter_tests;
#[cfg(test)]
mod cut_tests;
#[cfg(test)]
mod message_tests;
#[cfg(test)]
mod room_tests;
#[cfg(test)]
mod status_tests;
#[cfg(test)]
mod test_cards;
