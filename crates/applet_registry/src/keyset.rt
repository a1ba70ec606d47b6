//! The keysets that PUT KEY puts.

ghost use Rattle.std.specs.Prelude.{◌≡◌, not, bytes_eq, if◌then◌else◌};
ghost use Rattle.applet_registry.specs.Fields.{values_of};
ghost use Rattle.applet_registry.specs.Keyset.{mode_of, ciphered_of, with_keys, keyset_of, is_mode, are_same};

use crate::fields::field;
use ota_core::{Counter, KeyBytes, KeysetFacts, Mode};

/// The keyset that the data of PUT KEY are: the mode, whether packets are ciphered, and KIc and KID, each
/// behind its length. Its counter begins at 0.
pub(crate) fn keyset_of(octets: &[u8]) -> Option<KeysetFacts>
    ensures { result ≡ keyset_of octets.now }
{
    match octets {
        [mode, ciphered, keys @ ..] => {
            let mode = mode_of(*mode)?;
            let ciphered = ciphered_of(*ciphered)?;
            with_keys(mode, ciphered, keys)
        }
        _ => None,
    }
}

/// How counters are checked. ETSI TS 102 225, 5.1.1.
fn mode_of(octet: u8) -> Option<Mode>
    ensures { result ≡ mode_of octet }
{
    match octet {
        0x02 => Some(Mode::Higher),
        0x03 => Some(Mode::Next),
        _ => None,
    }
}

/// Whether packets are ciphered.
fn ciphered_of(octet: u8) -> Option<bool>
    ensures { result ≡ ciphered_of octet }
{
    match octet {
        0x00 => Some(false),
        0x01 => Some(true),
        _ => None,
    }
}

/// A keyset with the two keys that fill these octets, each behind its length.
#[tactic(auto, unfolding(crate::specs::Fields::values_of))]
fn with_keys(mode: Mode, ciphered: bool, octets: &[u8]) -> Option<KeysetFacts>
    ensures { result ≡ with_keys mode ciphered (values_of 2 octets.now) }
{
    let (kic, behind) = field(octets)?;
    let (kid, behind) = field(behind)?;
    if !behind.is_empty() {
        return None;
    }
    let kic = KeyBytes::new(kic).ok()?;
    let kid = KeyBytes::new(kid).ok()?;
    Some(KeysetFacts {
        base: Counter(0),
        mode,
        ciphered,
        kic,
        kid,
    })
}

/// Whether two modes are the same.
fn is_mode(a: Mode, b: Mode) -> bool
    ensures { result ≡ is_mode a b }
{
    matches!(
        (a, b),
        (Mode::Higher, Mode::Higher) | (Mode::Next, Mode::Next)
    )
}

/// Whether two keysets have the same data.
pub(crate) fn are_same(a: &KeysetFacts, b: &KeysetFacts) -> bool
    ensures { result ≡ are_same a.now b.now }
{
    is_mode(a.mode, b.mode)
        && is_ciphered_as(a.ciphered, b.ciphered)
        && is_key(&a.kic, &b.kic)
        && is_key(&a.kid, &b.kid)
}

/// Whether packets are ciphered alike.
fn is_ciphered_as(a: bool, b: bool) -> bool
    ensures { result ≡ (if a then b else not b) }
{
    a == b
}

/// Whether two keys are the same.
fn is_key(a: &KeyBytes, b: &KeyBytes) -> bool
    ensures { result ≡ bytes_eq a.now b.now }
{
    a.as_slice() == b.as_slice()
}
