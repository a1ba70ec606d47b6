ghost use Rattle.std.specs.Prelude.{◌≡◌, ◌≤◌, [], length};

use arrayvec::ArrayVec;
use std::marker::Model;

/// The name of a campaign: at most 32 octets. Contracts see it as its octets.
#[derive(Debug, Drop)]
pub struct Name {
    octets: ArrayVec<u8, 32>,
}

impl Model for Name {
    ghost use Rattle.std.specs.Prelude.{ℕ, List, ◌≤◌, length};

    ghost Value = { List ℕ };

    ghost view = { λ n. n.octets.items };

    ghost invariant = { λ n. length n.octets.items ≤ 32 };
}

impl Name {
    pub(crate) fn empty() -> Name
        ensures { result ≡ [] }
    {
        Name {
            octets: ArrayVec::new(),
        }
    }

    /// The name with these octets.
    pub(crate) fn of(octets: &[u8]) -> Name
        requires { length octets.now ≤ 32 }
        ensures { result ≡ octets.now }
    {
        let mut name = ArrayVec::new();
        let _ = name.try_extend_from_slice(octets);
        Name { octets: name }
    }

    pub fn as_slice(&self) -> &[u8]
        ensures octets { result.now ≡ self.now }
        ensures few { length self.now ≤ 32 }
    {
        self.octets.as_slice()
    }
}
