//! What a simulated site has.

use crate::made_messages::MadeMessages;
use crate::site_cards::SiteCards;
use disk_model::DiskCalls;
use site_model::Departure;

/// What a simulated site has at a moment.
#[derive(Drop)]
pub(crate) struct Parts<D: DiskCalls> {
    pub journal: D,
    pub cards: SiteCards<D>,
    /// The pieces that were handed to the port.
    pub sent: Vec<Departure>,
    /// The messages of the answers that the cards made.
    pub messages: MadeMessages,
}
