//! The facts with which a card was issued.

ghost use Rattle.std.specs.Prelude.{◌≡◌, ◌≤◌, ◌<◌, ◌^◌, ◌||◌, map, length, IfOk, IfSome, option_copied};
ghost use Rattle.std.specs.Str.{bytes_eq};
ghost use Rattle.ota_core.specs.KeysetList.{IsKeysetList};
ghost use Rattle.world_core.specs.Card.{facts_under, base_of, line_status};
ghost use Rattle.card_store.specs.Content.{keyset_named, script_part};

use ota_core::{CardFacts, CardId, Counter, KeysetFacts, Memory, Tar};
use script_engine::Part;
use std::alloc::Global;
use std::marker::Model;

/// The status codes of a line (ETSI TS 102 225, 5.2.2).
const POR_OK: u8 = 0x00;

const INSUFFICIENT_MEMORY: u8 = 0x07;

const TAR_UNKNOWN: u8 = 0x09;

/// The facts of a card, as a store keeps them. Contracts see them as `CardFacts`.
#[derive(Drop)]
pub struct IssuedFacts {
    card: CardId,
    buffer: u32,
    rfm: Tar,
    ram: Tar,
    keysets: Vec<(u8, KeysetFacts)>,
    wide: bool,
}

impl Model for IssuedFacts {
    ghost use Rattle.ota_core.specs.KeysetList.{IsKeysetList};
    ghost use Rattle.ota_core.specs.declared.cards.CardFacts.{CardFacts};

    ghost Value = { CardFacts };

    ghost view = { λ f. record { card = f.card; buffer = f.buffer; rfm = f.rfm; ram = f.ram; keysets = f.keysets.items; wide = f.wide } };

    ghost invariant = { λ f. IsKeysetList f.keysets.items };
}

impl IssuedFacts {
    /// The same facts once more.
    pub fn of(alloc: Global, facts: &CardFacts) -> Result<IssuedFacts, Memory>
        ensures { IfOk result (λ issued. issued ≡ facts.now) }
    {
        let keysets = Vec::from_slice(alloc, facts.keysets.as_slice())?;
        Ok(IssuedFacts {
            card: facts.card,
            buffer: facts.buffer,
            rfm: facts.rfm,
            ram: facts.ram,
            keysets,
            wide: facts.wide,
        })
    }

    /// The facts of the keyset with this key version number, where the card was issued with it.
    pub fn keyset(&self, kvn: u8) -> Option<&KeysetFacts>
        ensures keyset { option_copied result ≡ facts_under kvn self.now.keysets }
        ensures distinct { IsKeysetList self.now.keysets }
    {
        self.keysets
            .iter()
            .find(|keyset| keyset.0 == kvn)
            .map(|keyset| &keyset.1)
    }

    /// The number of the card.
    pub fn card(&self) -> CardId
        ensures { result ≡ self.now.card }
    {
        self.card
    }

    /// The key version numbers of the keysets with which the card was issued.
    pub fn kvns(&self, alloc: Global) -> Result<Vec<u8>, Memory>
        ensures { IfOk result (λ kvns. kvns.items ≡ map (λ keyset. keyset.0) self.now.keysets) }
    {
        let kvns = self.keysets.iter().map(|keyset| keyset.0).collect(alloc)?;
        Ok(kvns)
    }

    /// The counter that the card has stored before the first packet: the base of an issued keyset, and 0 of one that was put.
    pub fn base(&self, kvn: u8) -> Counter
        ensures { result ≡ base_of self.now (keyset_named self.now kvn) }
    {
        match self.keyset(kvn) {
            Some(keyset) => keyset.base,
            None => Counter(0),
        }
    }

    /// The part of the card that a script is for; none, where it isn't run: no application has its TAR, or it is longer than
    /// the buffer.
    pub fn script_part(&self, tar: Tar, body: &[u8]) -> Option<Part>
        ensures part { result ≡ script_part self.now tar body.now }
        ensures fits { IfSome result (λ _. length body.now < 2 ^ 32) }
    {
        if body.len() > self.buffer as usize {
            return None;
        }
        Part::of(&tar, &self.rfm, &self.ram)
    }

    /// The status that the line of a script begins with (ETSI TS 102 225, 5.2.2).
    pub fn status(&self, tar: Tar, body: &[u8]) -> u8
        ensures { result ≡ line_status self.now tar body.now }
    {
        if !self.has_application(tar) {
            return TAR_UNKNOWN;
        }
        if body.len() <= self.buffer as usize {
            POR_OK
        } else {
            INSUFFICIENT_MEMORY
        }
    }

    /// Whether an application of the card has this TAR.
    fn has_application(&self, tar: Tar) -> bool
        ensures { result ≡ (bytes_eq tar self.now.rfm || bytes_eq tar self.now.ram) }
    {
        tar.0.as_slice() == self.rfm.0.as_slice() || tar.0.as_slice() == self.ram.0.as_slice()
    }
}
