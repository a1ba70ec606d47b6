ghost use Rattle.std.specs.Prelude.{◌≡◌};

use std::marker::Model;

/// The messages that make a packet whole, as positions from 0 among those that left. Contracts see their list.
#[derive(Debug, Drop)]
pub struct Pieces {
    positions: Vec<u64>,
}

impl Model for Pieces {
    ghost use Rattle.std.specs.Prelude.{ℕ, List};

    ghost Value = { List ℕ };

    ghost view = { λ p. p.positions.items };
}

impl Pieces {
    /// The messages at these positions.
    pub fn new(positions: Vec<u64>) -> Pieces
        ensures { result ≡ positions.items }
    {
        Pieces { positions }
    }

    /// The positions, in order.
    pub fn as_slice(&self) -> &[u64]
        ensures { result.now ≡ self.now }
    {
        self.positions.as_slice()
    }
}
