//! Load files.

ghost use Rattle.std.specs.Prelude.{◌≡◌, ◌-◌, ◌^◌, min};
ghost use Rattle.applet_registry.specs.State.{total_of};

use crate::aid::Aid;
use ota_core::Octets;

/// A load file of the card, with the octets that were loaded.
///
/// GlobalPlatform Card Specification 2.1.1, 6.2.
#[derive(Drop)]
pub struct LoadFile {
    /// Its AID.
    pub aid: Aid,
    /// The load file data block, without its tag and length.
    pub octets: Octets,
}

/// The octets that load files hold, as far as 64 bits go.
pub(crate) fn total(files: &[LoadFile]) -> u64
    ensures { result ≡ min (total_of files.now) (2 ^ 64 - 1) }
{
    let mut total = 0u64;
    for file in files {
        total = total.saturating_add(file.octets.as_slice().len() as u64);
    }
    total
}
