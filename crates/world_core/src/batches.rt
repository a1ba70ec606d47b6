ghost use Rattle.std.specs.Prelude.{◌≡◌};

use ota_core::Entry;
use std::marker::Model;

/// The entries that are written to the journal together. Contracts see their list.
#[derive(Debug, Drop)]
pub struct Batch {
    entries: Vec<Entry>,
}

impl Model for Batch {
    ghost use Rattle.std.specs.Prelude.{List};
    ghost use Rattle.ota_core.specs.declared.entries.Entry.{Entry};

    ghost Value = { List Entry };

    ghost view = { λ b. b.entries.items };
}

impl Batch {
    /// These entries, in order.
    pub fn new(entries: Vec<Entry>) -> Batch
        ensures { result ≡ entries.items }
    {
        Batch { entries }
    }

    /// The entries, in order.
    pub fn as_slice(&self) -> &[Entry]
        ensures { result.now ≡ self.now }
    {
        self.entries.as_slice()
    }
}
