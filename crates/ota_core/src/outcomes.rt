use crate::counters::Counter;
use crate::keysets::KeysetId;
use crate::octet_string::Octets;

/// What has become of a job.
#[derive(Debug, Drop)]
pub enum Outcome {
    /// It has no reservation.
    New,
    /// Its last reservation has no settlement.
    Unsettled {
        keyset: KeysetId,
        counter: Counter,
    },
    /// The card ran it and gave this answer.
    Done {
        keyset: KeysetId,
        counter: Counter,
        answer: Octets,
    },
    /// The card used the counter up and ran nothing.
    Refused {
        keyset: KeysetId,
        counter: Counter,
        status: u8,
    },
}
