ghost use Rattle.std.specs.Prelude.{◌≡◌};
ghost use Rattle.ota_core.specs.Questions.{place_of};

use crate::application::Tar;
use crate::counters::Counter;
use crate::jobs::JobId;
use crate::keysets::KeysetId;
use crate::octet_string::Octets;
use std::marker::Model;

/// A counter of a keyset, as an entry reserves it.
#[derive(Clone, Copy, Debug, PartialEq, Eq)]
pub struct Reservation {
    pub keyset: KeysetId,
    pub counter: Counter,
}

impl Model for Reservation {
    ghost use Rattle.ota_core.specs.Entry.{Reservation};

    ghost Value = { Reservation };

    ghost view = { λ p. record { keyset = p.keyset; counter = p.counter } };

    ghost inverse = { λ p. record { keyset = p.keyset; counter = p.counter } };
}

/// What an entry reserves: a job's script for an application, under a counter of a keyset.
#[derive(Drop)]
pub struct Reserved<'a> {
    pub keyset: KeysetId,
    pub counter: Counter,
    pub job: JobId,
    /// When it was reserved.
    pub moment: u64,
    pub tar: Tar,
    /// The campaign's name, or nothing.
    pub name: &'a Octets,
    pub body: &'a Octets,
}

impl<'a> Model for Reserved<'a> {
    ghost use Rattle.ota_core.specs.Questions.{Reserved};

    ghost Value = { Reserved };

    ghost view = { λ r. record { keyset = r.keyset; counter = r.counter; job = r.job; moment = r.moment; tar = r.tar; name = r.name.now; body = r.body.now } };
}

impl Reserved<'_> {
    /// The counter that it is reserved under.
    pub fn place(&self) -> Reservation
        ensures { result ≡ place_of self.now }
    {
        Reservation {
            keyset: self.keyset,
            counter: self.counter,
        }
    }
}
