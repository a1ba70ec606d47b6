//! The parts and batches of a log, as they are read.

ghost use Rattle.std.specs.Prelude.{◌≡◌, ◌+◌, ◌<◌, ◌≤◌, length, IfOk, IfSome};
ghost use Rattle.std.specs.Option.{option_map};
ghost use Rattle.gate_log.specs.Reading.{size_at, measured, parts_from, batch_of};

use ota_core::{Memory, Octets};
use std::alloc::Global;

/// The number that the first four octets say.
pub(crate) fn size_at(octets: &[u8]) -> u32
    requires { 4 ≤ length octets.now }
    ensures { result ≡ size_at octets.now }
{
    u32::from_be_bytes([octets[0], octets[1], octets[2], octets[3]])
}

/// The octets behind their length, so many, and what follows them; None where they run past the end.
#[tactic(auto, unfolding(crate::specs::Reading::measured))]
pub(crate) fn measured(octets: &[u8]) -> Option<(&[u8], &[u8])>
    ensures found { option_map (λ m. (m.0.now, m.1.now)) result ≡ measured octets.now }
    ensures whole { IfSome result (λ m. 4 + length m.0.now + length m.1.now ≡ length octets.now) }
{
    if octets.len() < 4 {
        return None;
    }
    let end = 4 + size_at(octets) as usize;
    if octets.len() < end {
        return None;
    }
    Some((&octets[4..end], &octets[end..]))
}
