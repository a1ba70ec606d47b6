ghost use Rattle.std.specs.Prelude.{ℕ, List};

use std::marker::Model;

/// A toolkit application reference, TAR: the three octets that name the application which a packet is for
/// (ETSI TS 102 225, 5.1.1; ETSI TS 101 220). Contracts see the list of its octets.
#[derive(Clone, Copy, Debug, PartialEq, Eq)]
pub struct Tar(pub [u8; 3]);

impl Model for Tar {
    ghost Value = { List ℕ };

    ghost view = { λ t. t.0 };

    ghost inverse = { λ octets. record { 0 = octets } };
}
