//! The compact response.

ghost use Rattle.std.specs.Prelude.{◌≡◌, ◌≤◌, length};
ghost use Rattle.apdu_codec.specs.Compact.{compact_response_of};

use arrayvec::ArrayVec;

/// The compact response to a script: the number of commands that were executed, in one octet and at
/// most 255, the last status word, and the data of the last command.
///
/// ETSI TS 102 226, 5.2.1.2.
pub fn compact_response(count: u32, sw: u16, octets: &[u8]) -> ArrayVec<u8, 259>
    requires { length octets.now ≤ 256 }
    ensures { result.items ≡ compact_response_of count sw octets.now }
{
    let mut response = ArrayVec::new();
    response.push(count.min(255) as u8);
    let _ = response.try_extend_from_slice(&sw.to_be_bytes());
    let _ = response.try_extend_from_slice(octets);
    response
}

#[cfg(test)]
mod tests {
    use super::*;

    #[test]
    fn count_stops_at_255(rt: HostRuntime) {
        let ended = compact_response(3, 0x6981, &[]);
        assert_eq!(rt; ended.as_slice(), [3, 0x69, 0x81].as_slice());
        let many = compact_response(256, 0x9000, &[0xAB]);
        assert_eq!(rt; many.as_slice(), [0xFF, 0x90, 0x00, 0xAB].as_slice());
    }
}
