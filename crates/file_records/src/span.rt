//! Spans of octets in longer ones.

ghost use Rattle.std.specs.Prelude.{◌≡◌, ◌+◌, ◌≤◌, length, take, drop, replicate, vec_len, IfOk};
ghost use Rattle.file_records.specs.Binary.{overwritten};

use ota_core::Memory;
use std::alloc::Global;

/// As many octets as `len` says, all the same.
pub(crate) fn filled(alloc: Global, len: usize, octet: u8) -> Result<Vec<u8>, Memory>
    ensures { IfOk result (λ octets. octets.items ≡ replicate len octet) }
{
    let octets = vec![in alloc; octet; len]?;
    Ok(octets)
}

/// The `len` octets from the place `start` on, from 0.
pub(crate) fn octets_at(octets: &[u8], start: usize, len: usize) -> &[u8]
    requires { start + len ≤ length octets.now }
    ensures octets { result.now ≡ take len (drop start octets.now) }
    ensures len { length result.now ≡ len }
{
    &octets[start..start + len]
}

/// Writes octets from the place `start` on, from 0.
pub(crate) fn write_at(octets: &mut Vec<u8>, start: usize, new: &[u8])
    requires { start + length new.now ≤ vec_len octets.old }
    ensures { octets.new.items ≡ overwritten octets.old.items start new.now }
{
    write_within(octets, start, new);
}

fn write_within(octets: &mut [u8], start: usize, new: &[u8])
    requires { start + length new.now ≤ length octets.old }
    ensures { octets.new ≡ overwritten octets.old start new.now }
{
    octets[start..start + new.len()].copy_from_slice(new);
}
