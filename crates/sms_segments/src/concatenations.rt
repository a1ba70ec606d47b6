//! Which pieces are of one packet.

use ota_core::{CardId, Reference};

/// What the pieces of one packet have in common (3GPP TS 23.040, 9.2.3.24.1).
#[derive(Clone, Copy, Debug, PartialEq, Eq, Hash)]
pub struct Concatenation {
    pub card: CardId,
    pub reference: Reference,
    /// How many pieces there are.
    pub total: u8,
}
