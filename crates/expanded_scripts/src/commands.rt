//! The commands of an expanded script.

ghost use Rattle.std.specs.Prelude.{◌≡◌, ◌^◌, ◌<◌, ◌≤◌, [], ◌∷◌, ◌++◌, length, IfOk, IfSome, IfNone};
ghost use Rattle.expanded_scripts.specs.Decoded.{whole_len_of, plain_len_of};
ghost use Rattle.expanded_scripts.specs.Template.{IsCommand, IsNoCommand};

use apdu_codec::{Next, next_apdu};
use ota_core::{Memory, Octets};
use std::alloc::Global;

/// The plain form of a command; none, where the octets are no command.
pub(crate) fn plain_form(alloc: Global, value: &[u8]) -> Result<Option<Octets>, Memory>
    requires { length value.now < 2 ^ 32 }
    ensures command { IfOk result (λ form. IfSome form (IsCommand value.now)) }
    ensures none { IfOk result (λ form. IfNone form (IsNoCommand value.now)) }
{
    if value.len() == 4 {
        let plain = with_p3(alloc, value)?;
        return Ok(Some(plain));
    }
    match plain_len(value) {
        Some(len) => {
            let plain = Octets::from_slice(alloc, &value[..len])?;
            Ok(Some(plain))
        }
        None => Ok(None),
    }
}

/// CLA, INS, P1 and P2 with a P3 of 00 behind them.
fn with_p3(alloc: Global, header: &[u8]) -> Result<Octets, Memory>
    ensures { IfOk result (λ plain. plain ≡ header.now ++ 0x00 ∷ []) }
{
    let mut plain = Vec::from_slice(alloc, header)?;
    plain.push(0x00)?;
    Octets::from_slice(alloc, plain.as_slice())
}

/// How many of the octets of a command with P3 are its plain form; none, where the octets are no such command.
fn plain_len(value: &[u8]) -> Option<usize>
    requires { length value.now < 2 ^ 32 }
    ensures len { result ≡ plain_len_of value.now }
    ensures within { IfSome result (λ len. len ≤ length value.now) }
{
    match whole_len(value) {
        Some(len) if len == value.len() => Some(len),
        Some(len) if 5 < len && len + 1 == value.len() => Some(len),
        _ => None,
    }
}

/// How many octets the whole command has with which the octets begin.
fn whole_len(value: &[u8]) -> Option<usize>
    requires { length value.now < 2 ^ 32 }
    ensures len { result ≡ whole_len_of value.now }
    ensures within { IfSome result (λ len. len ≤ length value.now) }
{
    match next_apdu(value, 0) {
        Next::Command(apdu, _) => Some(apdu.len as usize + 5),
        _ => None,
    }
}
