use arrayvec::ArrayVec;
use ota_core::CardId;

/// What happened at the end of a moment.
#[derive(Drop)]
pub enum Note {
    /// A call of the disk, a piece that was handed to the port, or the start of a delivery.
    Quiet,
    /// A card was at work in this moment.
    AtWork(Delivery),
    /// The message at this position of those that the cards made was given, in a poll.
    Gave(u64),
    /// A poll found no message.
    Polled,
}

/// A message that was handed to a card.
#[derive(Drop)]
pub struct Delivery {
    pub card: CardId,
    pub message: ArrayVec<u8, 140>,
    /// Whether the card answered it.
    pub answered: bool,
}
