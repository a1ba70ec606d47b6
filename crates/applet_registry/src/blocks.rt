//! The blocks of a load.

ghost use Rattle.std.specs.Prelude.{◌≡◌, [], ◌++◌, length, IfOk, OnErr};

use ota_core::Memory;
use std::alloc::Global;
use std::marker::Model;

/// The blocks of a load under way, seen as their octets in order.
///
/// GlobalPlatform Card Specification 2.1.1, 9.6.
#[derive(Drop)]
pub struct Blocks {
    octets: Vec<u8>,
}

impl Model for Blocks {
    ghost use Rattle.std.specs.Prelude.{ℕ, List};

    ghost Value = { List ℕ };

    ghost view = { λ blocks. blocks.octets.items };
}

impl Blocks {
    /// No blocks.
    pub fn new(alloc: Global) -> Blocks
        ensures { result ≡ [] }
    {
        Blocks {
            octets: Vec::new(alloc),
        }
    }

    /// How many octets they have.
    pub fn len(&self) -> usize
        ensures { result ≡ length self.now }
    {
        self.octets.len()
    }

    /// Adds a block behind the others.
    pub fn add(&mut self, block: &[u8]) -> Result<(), Memory>
        ensures ok { IfOk result (λ _. self.new ≡ self.old ++ block.now) }
        ensures err { OnErr result (self.new ≡ self.old) }
    {
        self.octets.extend_from_slice(block)?;
        Ok(())
    }

    /// Their octets with those of the last block.
    pub fn with_last(&self, block: &[u8]) -> Result<Vec<u8>, Memory>
        ensures { IfOk result (λ octets. octets.items ≡ self.now ++ block.now) }
    {
        let mut octets = Vec::from_slice(*self.octets.allocator(), self.octets.as_slice())?;
        octets.extend_from_slice(block)?;
        Ok(octets)
    }
}
