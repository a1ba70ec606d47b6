use crate::batches::Batch;
use crate::card_steps::CardStep;
use crate::pieces::Pieces;
use ota_core::CardId;

/// One step of the gateway, of the air or of a card. Numbers are positions from 0 in the lists of a world.
#[derive(Debug, Drop)]
pub enum Event {
    /// The gateway begins to write a batch to the journal.
    Begin(Batch),
    /// The batch is durable.
    Seal,
    /// A piece of a reservation's packet leaves.
    Leave {
        reservation: u64,
        place: u8,
    },
    /// Pieces that left make a packet whole at a card, which makes this step.
    Deliver {
        card: CardId,
        pieces: Pieces,
        step: CardStep,
    },
    /// An answer that was made reaches the gateway.
    Give {
        made: u64,
    },
    /// The gateway stops. A batch being written is kept whole, or not at all.
    Stop {
        kept: bool,
    },
    /// The gateway starts again.
    Start,
    /// A card loses power. What it loses isn't in the world.
    PowerCut(CardId),
}
