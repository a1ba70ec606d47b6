//! Application identifiers.

ghost use Rattle.std.specs.Prelude.{◌≡◌, ◌≤◌, length, nat_eq, bytes_eq};
ghost use Rattle.std.specs.List.{starts_with};
ghost use Rattle.applet_registry.specs.Aid.{aid_of};

use crate::limits::{AID_LONGEST, AID_SHORTEST};
use arrayvec::ArrayVec;
use std::marker::Model;

/// The AID of a load file, of one of its modules, or of an application: 5 to 16 octets, seen as their list.
///
/// ISO/IEC 7816-4, 8.2.1.2.
#[derive(Drop)]
pub struct Aid {
    octets: ArrayVec<u8, 16>,
}

impl Model for Aid {
    ghost use Rattle.std.specs.Prelude.{ℕ, ◌≤◌, List, length};

    ghost Value = { List ℕ };

    ghost view = { λ aid. aid.octets.items };

    ghost invariant = { λ aid. 5 ≤ length aid.octets.items };
}

impl Aid {
    /// The AID with these octets; none, where they aren't 5 to 16.
    pub fn read(octets: &[u8]) -> Option<Aid>
        ensures { result ≡ aid_of octets.now }
    {
        if octets.len() < AID_SHORTEST || octets.len() > AID_LONGEST {
            return None;
        }
        let mut aid = ArrayVec::new();
        let _ = aid.try_extend_from_slice(octets);
        Some(Aid { octets: aid })
    }

    /// The octets.
    pub fn as_slice(&self) -> &[u8]
        ensures octets { result.now ≡ self.now }
        ensures short { length result.now ≤ 16 }
    {
        self.octets.as_slice()
    }

    /// The same AID once more.
    pub fn copied(&self) -> Aid
        ensures { result ≡ self.now }
    {
        let mut octets = ArrayVec::new();
        let _ = octets.try_extend_from_slice(self.octets.as_slice());
        Aid { octets }
    }

    /// Whether it is the same AID as another.
    pub fn is(&self, other: &Aid) -> bool
        ensures { result ≡ bytes_eq self.now other.now }
    {
        self.as_slice() == other.as_slice()
    }

    /// Whether it begins with these octets.
    pub fn begins_with(&self, prefix: &[u8]) -> bool
        ensures { result ≡ starts_with nat_eq self.now prefix.now }
    {
        self.as_slice().starts_with(prefix)
    }
}
