//! The octets of a transparent EF.

ghost use Rattle.std.specs.Prelude.{◌≡◌, ◌+◌, ◌^◌, ◌<◌, ◌≤◌, length, replicate, IfOk};
ghost use Rattle.file_records.specs.Binary.{overwritten};

use crate::span::{filled, write_at};
use ota_core::Memory;
use std::alloc::Global;
use std::marker::Model;

/// The octets of a transparent EF, seen as a list.
///
/// ETSI TS 102 221, 8.2.2.1.
#[derive(Drop)]
pub struct Binary {
    octets: Vec<u8>,
}

impl Model for Binary {
    ghost use Rattle.std.specs.Prelude.{ℕ, List};

    ghost Value = { List ℕ };

    ghost view = { λ binary. binary.octets.items };
}

impl Binary {
    /// As many octets as `size` says, all the same.
    pub fn filled(alloc: Global, size: usize, octet: u8) -> Result<Binary, Memory>
        ensures { IfOk result (λ binary. binary ≡ replicate size octet) }
    {
        let octets = filled(alloc, size, octet)?;
        Ok(Binary { octets })
    }

    /// The octets.
    pub fn as_slice(&self) -> &[u8]
        ensures { result.now ≡ self.now }
    {
        &self.octets
    }

    /// Writes octets from the place `offset` on, from 0.
    pub fn write(&mut self, offset: usize, octets: &[u8])
        requires { offset + length octets.now ≤ length self.old }
        ensures { self.new ≡ overwritten self.old offset octets.now }
    {
        write_at(&mut self.octets, offset, octets);
    }
}
