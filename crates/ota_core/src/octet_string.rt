ghost use Rattle.std.specs.Prelude.{◌≡◌, ◌≤◌, ℕ, List, [], length, vec_capacity, IfOk};

use crate::wants::Memory;
use std::alloc::Global;
use std::marker::Model;

/// A list of octets.
#[derive(Debug, Drop)]
pub struct Octets {
    octets: Vec<u8>,
}

impl Model for Octets {
    ghost Value = { List ℕ };

    ghost view = { λ o. o.octets.items };
}

impl Octets {
    /// These octets.
    pub fn from_slice(alloc: Global, octets: &[u8]) -> Result<Octets, Memory>
        ensures { IfOk result (λ made. made ≡ octets.now) }
    {
        let octets = Vec::from_slice(alloc, octets)?;
        Ok(Octets { octets })
    }

    /// The octets in order.
    pub fn as_slice(&self) -> &[u8]
        ensures { result.now ≡ self.now }
    {
        self.octets.as_slice()
    }

    /// The same octets once more.
    pub fn copy(&self) -> Result<Octets, Memory>
        ensures { IfOk result (λ made. made ≡ self.now) }
    {
        Octets::from_slice(*self.octets.allocator(), self.octets.as_slice())
    }

    /// Room for `len` octets, which are put in later and then want no memory.
    pub fn room(alloc: Global, len: usize) -> Result<OctetsRoom, Memory>
        ensures { IfOk result (λ room. room ≡ len) }
    {
        let octets = Vec::with_capacity(alloc, len)?;
        Ok(OctetsRoom { octets })
    }
}

impl From<Vec<u8>> for Octets {
    ghost from_gives = { λ octets made. made ≡ octets.items };

    /// The octets of the vector, which aren't copied.
    fn from(octets: Vec<u8>) -> Octets {
        Octets { octets }
    }
}

/// Room for octets. Contracts see the number of octets that fit.
#[derive(Debug, Drop)]
pub struct OctetsRoom {
    octets: Vec<u8>,
}

impl Model for OctetsRoom {
    ghost Value = { ℕ };

    ghost view = { λ r. vec_capacity r.octets };

    ghost invariant = { λ r. r.octets.items ≡ [] };
}

impl OctetsRoom {
    /// These octets. It wants no memory.
    pub fn put(mut self, octets: &[u8]) -> Octets
        requires { length octets.now ≤ self }
        ensures { result ≡ octets.now }
    {
        self.octets.extend_from_slice(octets).unwrap();
        Octets {
            octets: self.octets,
        }
    }
}

#[cfg(test)]
mod tests;
