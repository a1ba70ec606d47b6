//! Lengths of tagged values, and the values behind them.

ghost use Rattle.std.specs.Prelude.{◌≡◌, ◌+◌, ◌^◌, ◌<◌, ◌≤◌, ◌++◌, length, option_map, IfSome, IfNone, OnOk};
ghost use Rattle.expanded_scripts.specs.Decoded.{length_in, one_octet_in, two_octets_in};
ghost use Rattle.expanded_scripts.specs.Template.{HasValue, HasNoValue};
ghost use Rattle.expanded_scripts.specs.Written.{least_length, element};

use ota_core::Memory;

/// The value behind the length with which the octets begin, and the octets behind that value.
pub(crate) fn value_in(octets: &[u8]) -> Option<(&[u8], &[u8])>
    ensures found { IfSome result (λ found. HasValue octets.now found.0.now found.1.now) }
    ensures left { IfSome result (λ found. length found.0.now + length found.1.now < length octets.now) }
    ensures none { IfNone result (HasNoValue octets.now) }
{
    match length_at(octets) {
        Some((len, behind)) if len <= behind.len() => Some(behind.split_at(len)),
        _ => None,
    }
}

/// The length with which the octets begin, and the octets behind it.
fn length_at(octets: &[u8]) -> Option<(usize, &[u8])>
    ensures { option_map (λ found. (found.0, found.1.now)) result ≡ length_in octets.now }
{
    match octets {
        [] => None,
        [first, behind @ ..] => {
            if *first < 0x80 {
                Some((usize::from(*first), behind))
            } else if *first == 0x81 {
                one_octet(behind)
            } else if *first == 0x82 {
                two_octets(behind)
            } else {
                None
            }
        }
    }
}

/// A length of one octet.
fn one_octet(octets: &[u8]) -> Option<(usize, &[u8])>
    ensures { option_map (λ found. (found.0, found.1.now)) result ≡ one_octet_in octets.now }
{
    match octets {
        [len, behind @ ..] => Some((usize::from(*len), behind)),
        _ => None,
    }
}

/// A length of two octets.
fn two_octets(octets: &[u8]) -> Option<(usize, &[u8])>
    ensures { option_map (λ found. (found.0, found.1.now)) result ≡ two_octets_in octets.now }
{
    match octets {
        [high, low, behind @ ..] => { Some((usize::from(*high) * 256 + usize::from(*low), behind)) }
        _ => None,
    }
}

/// How many octets a tag, the length in its least form and a value of so many octets have.
#[tactic(auto, unfolding(crate::specs::Written::least_length))]
pub(crate) fn element_len(len: usize) -> usize
    requires { len < 2 ^ 24 }
    ensures len { result ≡ 1 + length (least_length len) + len }
    ensures few { result ≤ len + 5 }
{
    if len < 0x80 {
        len + 2
    } else if len < 0x100 {
        len + 3
    } else if len < 0x10000 {
        len + 4
    } else {
        len + 5
    }
}

/// Puts the tag, the length in its least form and the value at the end.
pub(crate) fn put_element(out: &mut Vec<u8>, tag: u8, value: &[u8]) -> Result<(), Memory>
    requires { length value.now < 2 ^ 24 }
    ensures { OnOk result (out.new.items ≡ out.old.items ++ element tag value.now) }
{
    out.push(tag)?;
    put_length(out, value.len())?;
    out.extend_from_slice(value)?;
    Ok(())
}

/// Puts a length in its least form at the end.
#[tactic(auto, unfolding(crate::specs::Written::least_length))]
fn put_length(out: &mut Vec<u8>, len: usize) -> Result<(), Memory>
    requires { len < 2 ^ 24 }
    ensures { OnOk result (out.new.items ≡ out.old.items ++ least_length len) }
{
    if len < 0x80 {
        out.push(len as u8)?;
    } else if len < 0x100 {
        out.extend_from_slice(&[0x81, len as u8])?;
    } else if len < 0x10000 {
        out.extend_from_slice(&[0x82, (len / 256) as u8, (len % 256) as u8])?;
    } else {
        let high = (len / 65536) as u8;
        let middle = (len / 256 % 256) as u8;
        out.extend_from_slice(&[0x83, high, middle, (len % 256) as u8])?;
    }
    Ok(())
}
