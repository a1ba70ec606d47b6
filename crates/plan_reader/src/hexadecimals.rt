ghost use Rattle.std.specs.Prelude.{◌≡◌, ◌/◌, length, option_map, IfOk};
ghost use Rattle.plan_reader.specs.Hexadecimal.{is_memory, octets_of};

use hex::FromHexError;
use ota_core::Memory;
use std::alloc::Global;

/// Fills `octets` with what the digits write, in either case; twice as many digits are wanted.
pub(crate) fn read_octets(digits: &[u8], octets: &mut [u8]) -> Option<()>
    ensures { octets_of (length octets.old) digits.now ≡ option_map (λ _. octets.new) result }
{
    hex::decode_to_slice(digits, octets).ok()
}

/// The octets that the digits write, in either case, if they are hexadecimal and of an even number.
pub(crate) fn decoded(alloc: Global, digits: &[u8]) -> Result<Option<Vec<u8>>, Memory>
    ensures { IfOk result (λ read. octets_of (length digits.now / 2) digits.now ≡ option_map (λ octets. octets.items) read) }
{
    match hex::decode(alloc, digits) {
        Ok(octets) => Ok(Some(octets)),
        Err(err) => {
            if is_memory(err) {
                Err(Memory)
            } else {
                Ok(None)
            }
        }
    }
}

fn is_memory(err: FromHexError) -> bool
    ensures { result ≡ is_memory err }
{
    match err {
        FromHexError::OutOfMemory => true,
        _ => false,
    }
}
