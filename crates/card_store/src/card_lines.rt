use ota_core::{Counter, KeysetId};

/// A line of a card's log, without its TAR, its script and its answer: one counter that the card used up.
#[derive(Clone, Copy, Debug, PartialEq, Eq)]
pub struct CardLine {
    pub keyset: KeysetId,
    pub counter: Counter,
    /// How many commands of the script ran.
    pub executed: u32,
    /// Whether all commands ran, one ended the script, or the status is 07 or 09.
    pub finished: bool,
    /// 00, 07 or 09 (ETSI TS 102 225, 5.2.2).
    pub status: u8,
}
