//! Places of entries in a history.

ghost use Rattle.std.specs.Prelude.{◌≡◌};

use ota_core::{Counter, KeysetId, Reservation};
use std::marker::Model;

/// A counter of a keyset, in the order of keysets and then of counters.
#[derive(Clone, Copy, Debug, PartialEq, Eq, PartialOrd, Ord)]
pub(crate) struct CounterKey {
    keyset: KeysetId,
    counter: Counter,
}

impl Model for CounterKey {
    ghost use Rattle.ota_core.specs.Entry.{Reservation};

    ghost Value = { Reservation };

    ghost view = { λ p. record { keyset = p.keyset; counter = p.counter } };

    ghost inverse = { λ p. record { keyset = p.keyset; counter = p.counter } };
}

pub(crate) fn counter_key(counter: Reservation) -> CounterKey
    ensures { result ≡ counter }
{
    CounterKey {
        keyset: counter.keyset,
        counter: counter.counter,
    }
}
