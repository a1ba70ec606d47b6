ghost use Rattle.std.specs.Prelude.{◌≡◌, ◌≤◌, false, [], ◌∷◌, ◌++◌, OnOk, OnErr};
ghost use Rattle.ota_core.specs.KeysetList.{has_kvn, IsKeysetList};

use crate::cards::CardId;
use crate::counters::Counter;
use crate::key_bytes::KeyBytes;
use crate::wants::Memory;
use std::alloc::Global;
use std::marker::Model;

/// How a card compares a counter with the one that it has stored (ETSI TS 102 225, 5.1.1, SPI).
#[derive(Clone, Copy, Debug, PartialEq, Eq)]
pub enum Mode {
    /// Processed only if it is higher.
    Higher,
    /// Processed only if it is one higher.
    Next,
}

/// A keyset of a card, named by its key version number of 1 to 15 (ETSI TS 102 225, 5.1.2 and 5.1.3).
#[derive(Clone, Copy, Debug, PartialEq, Eq, PartialOrd, Ord)]
pub struct KeysetId {
    pub card: CardId,
    pub kvn: u8,
}

impl Model for KeysetId {
    ghost use Rattle.std.specs.Prelude.{◌≤◌};
    ghost use Rattle.ota_core.specs.Keyset.{Keyset};

    ghost Value = { Keyset };

    ghost view = { λ k. record { card = k.card; kvn = k.kvn } };

    ghost invariant = { λ k. (1 ≤ k.kvn) × (k.kvn ≤ 15) };

    ghost inverse = { λ k. record { card = k.card; kvn = k.kvn } };
}

/// What a keyset is opened with.
#[derive(Clone, Copy, Debug, PartialEq, Eq)]
pub struct KeysetFacts {
    /// The counter that the card has stored before the first packet.
    pub base: Counter,
    pub mode: Mode,
    /// Whether packets are ciphered.
    pub ciphered: bool,
    /// The key for ciphering.
    pub kic: KeyBytes,
    /// The key for the cryptographic checksum.
    pub kid: KeyBytes,
}

/// The keysets of a card, each with its key version number. No number stands twice.
#[derive(Debug, Drop)]
pub struct KeysetList {
    keysets: Vec<(u8, KeysetFacts)>,
}

impl Model for KeysetList {
    ghost use Rattle.std.specs.Prelude.{ℕ, List};
    ghost use Rattle.ota_core.specs.declared.keysets.KeysetFacts.{KeysetFacts};
    ghost use Rattle.ota_core.specs.KeysetList.{IsKeysetList};

    ghost Value = { List (ℕ × KeysetFacts) };

    ghost view = { λ l. l.keysets.items };

    ghost invariant = { λ l. IsKeysetList l.keysets.items };
}

impl KeysetList {
    /// The empty list.
    pub fn new(alloc: Global) -> KeysetList
        ensures { result ≡ [] }
    {
        KeysetList {
            keysets: Vec::new(alloc),
        }
    }

    /// Adds a keyset at the end.
    pub fn push(&mut self, kvn: u8, facts: KeysetFacts) -> Result<(), Memory>
        requires above { 1 ≤ kvn }
        requires below { kvn ≤ 15 }
        requires new { has_kvn kvn self.old ≡ false }
        ensures ok { OnOk result (self.new ≡ self.old ++ (kvn, facts) ∷ []) }
        ensures err { OnErr result (self.new ≡ self.old) }
    {
        self.keysets.push((kvn, facts))?;
        Ok(())
    }

    /// The keysets in order of listing.
    pub fn as_slice(&self) -> &[(u8, KeysetFacts)]
        ensures keysets { result.now ≡ self.now }
        ensures distinct { IsKeysetList self.now }
    {
        self.keysets.as_slice()
    }
}
