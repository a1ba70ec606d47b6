//! What a book answers.

use ota_core::{Counter, KeysetId};

/// Why a keyset has no next counter. Where several hold, the first in this order is named.
#[derive(Clone, Copy, Debug, PartialEq, Eq)]
pub enum BookErr {
    /// It isn't opened.
    UnknownKeyset,
    /// It is closed.
    Closed,
    /// No counter of it is left.
    Exhausted,
}

/// What has become of a job, without the card's answer.
#[derive(Clone, Copy, Debug, PartialEq, Eq)]
pub enum Looked {
    /// It has no reservation.
    New,
    /// Its last reservation has no settlement.
    Unsettled(KeysetId, Counter),
    /// The card ran it.
    Done(KeysetId, Counter),
    /// The card used the counter up and ran nothing.
    Refused(KeysetId, Counter),
}

/// How a counter is settled.
#[derive(Clone, Copy, Debug, PartialEq, Eq)]
pub enum Settled {
    /// The card ran the script.
    Done,
    /// The card used the counter up and ran nothing, with this status (ETSI TS 102 225, 5.2.2).
    Refused(u8),
}
