use ota_core::{CardId, Octets, Reference};

/// A piece of a packet that was handed to the port.
#[derive(Debug, Drop)]
pub struct Departure {
    pub card: CardId,
    /// The octets of the whole packet.
    pub packet: Octets,
    pub reference: Reference,
    /// Which piece, from 1.
    pub place: u8,
}
