//! The sum of a record and a number.

ghost use Rattle.std.specs.Prelude.{◌≡◌, ◌+◌, ◌*◌, ◌^◌, ◌<◌, ◌≤◌, option_map, length, IfSome};
ghost use Rattle.file_records.specs.Numbers.{AreOctets, number_of, sum_in};

use arrayvec::ArrayVec;

/// The octets of a record with a number added; none, where they don't hold the sum.
pub(crate) fn sum(row: &[u8], by: u32) -> Option<ArrayVec<u8, 16>>
    requires row { length row.now ≤ 16 }
    requires by { by < 2 ^ 24 }

    ensures sum { option_map (λ sum. sum.items) result ≡ sum_in row.now by }
    ensures len { IfSome result (λ sum. length sum.items ≡ length row.now) }
{
    let mut sum = copy_of(row);
    if add(&mut sum, by) == 0 {
        Some(sum)
    } else {
        None
    }
}

fn copy_of(row: &[u8]) -> ArrayVec<u8, 16>
    requires { length row.now ≤ 16 }
    ensures { result.items ≡ row.now }
{
    let mut copy = ArrayVec::new();
    let _ = copy.try_extend_from_slice(row);
    copy
}

/// Adds a number to octets that are one, the highest first; it gives what doesn't fit in them, in units
/// of the octet before the first.
fn add(octets: &mut [u8], by: u32) -> u32
    requires { by < 2 ^ 24 }
    ensures octets { AreOctets octets.new }
    ensures sum { number_of octets.new + result * 256 ^ length octets.new ≡ number_of octets.old + by }
{
    let mut carry = by;
    let mut at = octets.len();
    while at > 0 {
        at -= 1;
        let sum = u32::from(octets[at]) + carry;
        octets[at] = (sum % 256) as u8;
        carry = sum / 256;
    }
    carry
}
