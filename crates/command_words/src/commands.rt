use crate::names::Name;
use ota_core::KeysetId;

/// What a command is to do, as its words say it.
#[derive(Debug, Drop)]
pub enum Command {
    /// Makes the journals.
    Format,
    /// Reserves a counter for each job.
    Reserve(Reserving),
    /// Runs the campaign: reserves, sends and settles.
    Send(Reserving, Sending),
    /// Shows what has become of the jobs.
    Report(Shown),
    /// Closes a keyset.
    Close(KeysetId),
    /// Shows the keysets of the cards.
    Cards,
    /// Shows the messages of the jobs that are reserved and not settled.
    Packet,
}

/// How jobs are reserved.
#[derive(Debug, Drop)]
pub struct Reserving {
    /// Whether refused jobs are tried again.
    pub retry: bool,
    /// The campaign's name, which each reservation carries; it may be empty.
    pub name: Name,
}

/// How jobs are sent.
#[derive(Clone, Copy, Debug, PartialEq, Eq)]
pub struct Sending {
    /// How many senders there are, 1 to 64.
    pub senders: u32,
    /// How many jobs are reserved together at most, 1 to 16.
    pub batch: u32,
    /// How many times an unsettled job is sent again, 0 to 16.
    pub resends: u32,
    /// How many times a lane is polled for each of its unsettled jobs in a round, 1 to 1,000.
    pub polls: u32,
    /// Whether the summary is written in place of the report.
    pub summary: bool,
}

/// What is shown of a campaign's jobs.
#[derive(Clone, Copy, Debug, PartialEq, Eq)]
pub enum Shown {
    /// The report: a line for each job.
    Lines,
    /// How many jobs stand in each way.
    Summary,
    /// When each job was reserved and settled.
    Times,
}
