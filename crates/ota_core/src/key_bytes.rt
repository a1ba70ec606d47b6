ghost use Rattle.std.specs.Prelude.{◌≡◌, IfOk, is_ok, IsTrue, length};
ghost use Rattle.ota_core.specs.KeyBytes.{is_key_length};

use std::error::Error;
use std::fmt;
use std::marker::Model;

/// The greatest number of octets in a key.
const LONGEST: usize = 32;

/// Octets that are no key, since they aren't 16, 24 or 32.
#[derive(Clone, Copy, Debug, PartialEq, Eq)]
pub struct KeyLength;

impl fmt::Display for KeyLength {
    fn fmt<W: fmt::Write>(&self, f: &mut fmt::Formatter<W>) -> fmt::Result {
        write!(f, "a key has 16, 24 or 32 octets")
    }
}

impl Error for KeyLength {}

/// A key of AES: 16, 24 or 32 octets (FIPS 197, 5). Contracts see the list of them. Its `Debug` shows no octet.
#[derive(Clone, Copy, PartialEq, Eq)]
pub struct KeyBytes {
    /// The key, and behind it zeros.
    octets: [u8; 32],
    len: usize,
}

impl Model for KeyBytes {
    ghost use Rattle.std.specs.Prelude.{ℕ, List, take, length, refl};
    ghost use Rattle.ota_core.specs.KeyBytes.{padded, IsPadded};

    ghost Value = { List ℕ };

    ghost view = { λ k. take k.len k.octets };

    ghost invariant = { λ k. IsPadded k.octets k.len };

    ghost inverse = { λ key. record { octets = padded key; len = length key } };

    ghost inverse_ok = { λ k h. rw (← h.zeros, h.taken) refl };
}

impl KeyBytes {
    /// The key with these octets. It is refused exactly where they aren't 16, 24 or 32.
    pub fn new(octets: &[u8]) -> Result<KeyBytes, KeyLength>
        ensures key { IfOk result (λ key. key ≡ octets.now) }
        ensures length { is_ok result ≡ is_key_length (length octets.now) }
    {
        if !is_key_length(octets.len()) {
            return Err(KeyLength);
        }
        let mut padded = [0; LONGEST];
        padded[..octets.len()].copy_from_slice(octets);
        Ok(KeyBytes {
            octets: padded,
            len: octets.len(),
        })
    }

    /// The key's octets.
    pub fn as_slice(&self) -> &[u8]
        ensures octets { result.now ≡ self.now }
        ensures length { IsTrue (is_key_length (length self.now)) }
    {
        &self.octets[..self.len]
    }
}

impl fmt::Debug for KeyBytes {
    fn fmt<W: fmt::Write>(&self, f: &mut fmt::Formatter<W>) -> fmt::Result {
        write!(f, "KeyBytes({} octets)", self.len)
    }
}

fn is_key_length(len: usize) -> bool
    ensures { result ≡ is_key_length len }
{
    len == 16 || len == 24 || len == 32
}

#[cfg(test)]
mod tests;
