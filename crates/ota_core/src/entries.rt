ghost use Rattle.std.specs.Prelude.{◌≡◌, IfOk};
ghost use Rattle.ota_core.specs.Entry.{by_of, moment_of, keyset_of};

use crate::application::Tar;
use crate::counters::Counter;
use crate::jobs::JobId;
use crate::keysets::{KeysetFacts, KeysetId};
use crate::octet_string::Octets;
use crate::wants::Memory;

/// One thing that happened on a lane. `by` is the number of the sender that made the entry; 0 is the session itself.
/// `moment` is the number that the clock gave, or that of the entry before where this is greater.
#[derive(Debug, Drop)]
pub enum Entry {
    /// The keyset is in use from now on.
    Open {
        by: u32,
        moment: u64,
        keyset: KeysetId,
        facts: KeysetFacts,
    },
    /// The counter belongs to the job's packet and to no other. `name` is that of the campaign, or empty.
    Reserve {
        by: u32,
        moment: u64,
        keyset: KeysetId,
        counter: Counter,
        job: JobId,
        tar: Tar,
        name: Octets,
        body: Octets,
    },
    /// The card ran the script and answered it with this compact response (ETSI TS 102 226, 5.2.1).
    Done {
        by: u32,
        moment: u64,
        keyset: KeysetId,
        counter: Counter,
        answer: Octets,
    },
    /// The card used the counter up and ran nothing. The status is 07 or 09 (ETSI TS 102 225, 5.2.2).
    Refused {
        by: u32,
        moment: u64,
        keyset: KeysetId,
        counter: Counter,
        status: u8,
    },
    /// The keyset is out of use from now on.
    Close {
        by: u32,
        moment: u64,
        keyset: KeysetId,
    },
}

impl Entry {
    /// The number of the sender that made the entry; 0 is the session itself.
    pub fn by(&self) -> u32
        ensures { result ≡ by_of self.now }
    {
        match self {
            Entry::Open { by, .. } => *by,
            Entry::Reserve { by, .. } => *by,
            Entry::Done { by, .. } => *by,
            Entry::Refused { by, .. } => *by,
            Entry::Close { by, .. } => *by,
        }
    }

    /// The moment at which it was made, as the clock gave it.
    pub fn moment(&self) -> u64
        ensures { result ≡ moment_of self.now }
    {
        match self {
            Entry::Open { moment, .. } => *moment,
            Entry::Reserve { moment, .. } => *moment,
            Entry::Done { moment, .. } => *moment,
            Entry::Refused { moment, .. } => *moment,
            Entry::Close { moment, .. } => *moment,
        }
    }

    /// The keyset that it is of.
    pub fn keyset(&self) -> KeysetId
        ensures { result ≡ keyset_of self.now }
    {
        match self {
            Entry::Open { keyset, .. } => *keyset,
            Entry::Reserve { keyset, .. } => *keyset,
            Entry::Done { keyset, .. } => *keyset,
            Entry::Refused { keyset, .. } => *keyset,
            Entry::Close { keyset, .. } => *keyset,
        }
    }

    /// The same entry once more.
    pub fn copy(&self) -> Result<Entry, Memory>
        ensures { IfOk result (λ made. made ≡ self.now) }
    {
        match self {
            Entry::Open {
                by,
                moment,
                keyset,
                facts,
            } => Ok(Entry::Open {
                by: *by,
                moment: *moment,
                keyset: *keyset,
                facts: *facts,
            }),
            Entry::Reserve {
                by,
                moment,
                keyset,
                counter,
                job,
                tar,
                name,
                body,
            } => {
                let name = name.copy()?;
                let body = body.copy()?;
                Ok(Entry::Reserve {
                    by: *by,
                    moment: *moment,
                    keyset: *keyset,
                    counter: *counter,
                    job: *job,
                    tar: *tar,
                    name,
                    body,
                })
            }
            Entry::Done {
                by,
                moment,
                keyset,
                counter,
                answer,
            } => {
                let answer = answer.copy()?;
                Ok(Entry::Done {
                    by: *by,
                    moment: *moment,
                    keyset: *keyset,
                    counter: *counter,
                    answer,
                })
            }
            Entry::Refused {
                by,
                moment,
                keyset,
                counter,
                status,
            } => Ok(Entry::Refused {
                by: *by,
                moment: *moment,
                keyset: *keyset,
                counter: *counter,
                status: *status,
            }),
            Entry::Close { by, moment, keyset } => Ok(Entry::Close {
                by: *by,
                moment: *moment,
                keyset: *keyset,
            }),
        }
    }
}

/// Why an entry may not follow a history. Where several hold, the first in this order is named.
#[derive(Clone, Copy, Debug, PartialEq, Eq)]
pub enum Illegal {
    /// It is no Open, and the keyset has none.
    NotOpened,
    /// It is a second Open of the keyset.
    OpenedTwice,
    /// The keyset is closed.
    Closed,
    /// No counter of the keyset is left.
    Exhausted,
    /// Another counter comes next: this one.
    NotNext(Counter),
    /// The job's last reservation isn't refused. It has this counter.
    JobTaken(Counter),
    /// The counter that it settles isn't reserved.
    NotReserved,
    /// The counter that it settles is settled.
    AlreadySettled,
    /// It refuses with a status other than 07 and 09.
    BadStatus,
    /// Its moment is below that of the entry before it: this one.
    Earlier(u64),
}
