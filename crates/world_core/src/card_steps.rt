use ota_core::Octets;

/// What a card does with a packet that became whole.
#[derive(Debug, Drop)]
pub enum CardStep {
    /// It drops the packet.
    Drop,
    /// It answers with this status, and no counter is used up.
    Answered(u8),
    /// It loses power before the counter is stored.
    CutBeforeCounter,
    /// It uses the counter up, and logs a line.
    Took {
        /// How many commands ran.
        executed: u32,
        /// Whether the script came to its end.
        finished: bool,
        status: u8,
        /// The compact response.
        answer: Octets,
        /// Whether the answer was made before the power was lost.
        answered: bool,
    },
}
