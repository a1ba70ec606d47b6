//! Load file data blocks.

ghost use Rattle.std.specs.Prelude.{◌≡◌, ◌≤◌, length, option_map, option_copied, IfSome};
ghost use Rattle.applet_registry.specs.DataBlock.{short_length, long_length, length_of, data_block_of};

/// The octets of a load file data block, behind its tag and its length.
///
/// GlobalPlatform Card Specification 2.1.1, 9.6.2.3.
pub(crate) fn data_block(octets: &[u8]) -> Option<&[u8]>
    ensures block { option_copied result ≡ data_block_of octets.now }
    ensures short { IfSome result (λ block. length block.now ≤ length octets.now) }
{
    match octets {
        [tag, field @ ..] if *tag == 0xC4 => {
            let (len, value) = length(field)?;
            if value.len() == len {
                Some(value)
            } else {
                None
            }
        }
        _ => None,
    }
}

/// A length, and what stands behind it.
///
/// ISO/IEC 7816-4, 5.2.2.2.
fn length(octets: &[u8]) -> Option<(usize, &[u8])>
    ensures field { option_map (λ field. (field.0, field.1.now)) result ≡ length_of octets.now }
    ensures short { IfSome result (λ field. length field.1.now ≤ length octets.now) }
{
    match octets {
        [] => None,
        [first, behind @ ..] => {
            if *first < 0x80 {
                Some((usize::from(*first), behind))
            } else if *first == 0x81 {
                one_octet(behind)
            } else if *first == 0x82 {
                two_octets(behind)
            } else {
                None
            }
        }
    }
}

/// A length of one octet.
fn one_octet(octets: &[u8]) -> Option<(usize, &[u8])>
    ensures field { option_map (λ field. (field.0, field.1.now)) result ≡ short_length octets.now }
    ensures short { IfSome result (λ field. length field.1.now ≤ length octets.now) }
{
    match octets {
        [len, behind @ ..] => Some((usize::from(*len), behind)),
        [] => None,
    }
}

/// A length of two octets.
fn two_octets(octets: &[u8]) -> Option<(usize, &[u8])>
    ensures field { option_map (λ field. (field.0, field.1.now)) result ≡ long_length octets.now }
    ensures short { IfSome result (λ field. length field.1.now ≤ length octets.now) }
{
    match octets {
        [high, low, behind @ ..] => Some((256 * usize::from(*high) + usize::from(*low), behind)),
        _ => None,
    }
}
