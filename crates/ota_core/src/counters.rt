ghost use Rattle.std.specs.Prelude.{ℕ, ◌^◌, ◌<◌};

use std::marker::Model;

/// A counter of a keyset, CNTR: a number of five octets, below 2^40 (ETSI TS 102 225, 5.1.1).
#[derive(Clone, Copy, Debug, PartialEq, Eq, PartialOrd, Ord)]
pub struct Counter(pub u64);

impl Model for Counter {
    ghost Value = { ℕ };

    ghost view = { λ c. c.0 };

    ghost invariant = { λ c. c.0 < 2 ^ 40 };

    ghost inverse = { λ n. record { 0 = n } };
}
