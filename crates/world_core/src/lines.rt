use ota_core::{Counter, KeysetId, Octets, Tar};

/// A line of a card's log: one counter that the card used up.
#[derive(Debug, Drop)]
pub struct Line {
    pub keyset: KeysetId,
    pub counter: Counter,
    pub tar: Tar,
    pub body: Octets,
    /// How many commands of the script ran.
    pub executed: u32,
    /// Whether the script came to its end.
    pub finished: bool,
    /// 00, 07 or 09 (ETSI TS 102 225, 5.2.2).
    pub status: u8,
    /// The compact response (ETSI TS 102 226, 5.2.1).
    pub answer: Octets,
}
