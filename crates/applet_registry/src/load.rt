//! A load under way.

ghost use Rattle.std.specs.Prelude.{◌≡◌, ◌+◌, ◌<◌, ◌++◌, ◌&&◌, ◌==◌, nat_lt, IfOk, OnErr};
ghost use Rattle.applet_registry.specs.State.{awaits_block, with_block};

use crate::aid::Aid;
use crate::blocks::Blocks;
use crate::limits::LOAD_BLOCKS;
use ota_core::Memory;

/// A load under way: the load file's AID, the blocks so far, and their count.
///
/// GlobalPlatform Card Specification 2.1.1, 9.6.
#[derive(Drop)]
pub struct Load {
    /// The AID of the load file.
    pub aid: Aid,
    /// The blocks so far.
    pub blocks: Blocks,
    /// How many they are.
    pub count: u16,
}

impl Load {
    /// Whether the block with this number, from 0, is the next one.
    pub fn awaits(&self, number: u8) -> bool
        ensures { result ≡ awaits_block self.now number }
    {
        u16::from(number) == self.count && self.count < LOAD_BLOCKS
    }

    /// Takes a block.
    pub fn add(&mut self, block: &[u8]) -> Result<(), Memory>
        requires { self.old.count < 256 }
        ensures ok { IfOk result (λ _. self.new ≡ with_block self.old block.now) }
        ensures err { OnErr result (self.new ≡ self.old) }
    {
        self.blocks.add(block)?;
        self.count += 1;
        Ok(())
    }
}
