/// How a session sends.
#[derive(Clone, Copy, Debug, PartialEq, Eq)]
pub struct Settings {
    /// How many senders there are, 1 to 64.
    pub senders: u32,
    /// How many jobs are reserved together at most, 1 to 16.
    pub batch: u32,
    /// How many times an unsettled job is sent again.
    pub resends: u32,
    /// How many times a lane is polled for each of its unsettled jobs in a round.
    pub polls: u32,
}
