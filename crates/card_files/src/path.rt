//! The paths of files.

ghost use Rattle.std.specs.Prelude.{◌≡◌, ◌<◌, ◌≤◌, [], ◌↔◌, IsTrue, length, nat_eq, nat_le, if◌then◌else◌};
ghost use Rattle.std.specs.List.{starts_with};
ghost use Rattle.card_files.specs.Path.{id_of, above, child_of, ids_of};

use crate::limits::{MF, PATH_LEN};
use arrayvec::ArrayVec;
use std::marker::Model;

/// The identifiers from the MF down to a file, without the MF's; seen as their list. No file lies more than
/// four deep.
///
/// ETSI TS 102 221, 8.4.2.
#[derive(PartialEq, Eq, PartialOrd, Ord, Drop)]
pub struct Path {
    ids: ArrayVec<u16, 4>,
}

impl Model for Path {
    ghost use Rattle.std.specs.Prelude.{ℕ, List};

    ghost Value = { List ℕ };

    ghost view = { λ path. path.ids.items };

    ghost inverse = { λ ids. record { ids = record { items = ids } } };
}

impl Path {
    /// The path of the MF.
    pub fn mf() -> Path
        ensures { result ≡ [] }
    {
        Path {
            ids: ArrayVec::new(),
        }
    }

    /// The path with these identifiers, two octets each.
    pub fn read(octets: &[u8]) -> Path
        requires { length octets.now ≤ 8 }
        ensures { result ≡ ids_of octets.now }
    {
        let mut ids = ArrayVec::new();
        let mut rest = octets;
        while let [high, low, others @ ..] = rest {
            ids.push(256 * u16::from(*high) + u16::from(*low));
            rest = others;
        }
        Path { ids }
    }

    /// The path with these identifiers; none, where no file lies so deep.
    pub fn of(ids: &[u16]) -> Option<Path>
        ensures { result ≡ (if nat_le (length ids.now) 4 then Some ids.now else None) }
    {
        if ids.len() > PATH_LEN {
            return None;
        }
        let mut path = ArrayVec::new();
        let _ = path.try_extend_from_slice(ids);
        Some(Path { ids: path })
    }

    /// The identifiers.
    pub fn ids(&self) -> &[u16]
        ensures ids { result.now ≡ self.now }
        ensures deep { length result.now ≤ 4 }
    {
        self.ids.as_slice()
    }

    /// How deep below the MF the file lies.
    pub fn depth(&self) -> usize
        ensures depth { result ≡ length self.now }
        ensures deep { result ≤ 4 }
    {
        self.ids.len()
    }

    /// The identifier of the file.
    pub fn id(&self) -> u16
        ensures { result ≡ id_of self.now }
    {
        self.ids.as_slice().last().copied().unwrap_or(MF)
    }

    /// The same path.
    pub fn copied(&self) -> Path
        ensures { result ≡ self.now }
    {
        let mut ids = ArrayVec::new();
        let _ = ids.try_extend_from_slice(self.ids.as_slice());
        Path { ids }
    }

    /// The path of the folder that the file lies in.
    pub fn above(&self) -> Path
        ensures { result ≡ above self.now }
    {
        let ids = self.ids.as_slice();
        let mut above = ArrayVec::new();
        let _ = above.try_extend_from_slice(&ids[..ids.len().saturating_sub(1)]);
        Path { ids: above }
    }

    /// The path of the file with this identifier in a folder; none, where no file lies so deep.
    pub fn child(&self, id: u16) -> Option<Path>
        ensures { result ≡ child_of self.now id }
    {
        let mut path = self.copied();
        if path.ids.try_push(id).is_err() {
            return None;
        }
        Some(path)
    }

    /// Whether another path is this one, or lies below it.
    pub fn holds(&self, other: &Path) -> bool
        ensures { result ≡ starts_with nat_eq other.now self.now }
    {
        other.ids.as_slice().starts_with(self.ids.as_slice())
    }
}
