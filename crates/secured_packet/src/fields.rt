//! Fields of packets: how they are put behind others, and how they are read.

ghost use Rattle.std.specs.Prelude.{◌≡◌, ◌+◌, ◌^◌, ◌<◌, ◌≤◌, ◌++◌, length, replicate};
ghost use Rattle.secured_packet.specs.Secured.{five, number_of_five, number_of_two, two};

use arrayvec::ArrayVec;
use ota_core::Counter;

/// The octets of one packet. A body of 4,096 octets makes one of at most 4,122.
pub type PacketBuf = ArrayVec<u8, 4128>;

/// Puts octets behind those that are there.
pub fn put(out: &mut PacketBuf, octets: &[u8])
    requires { length out.old.items + length octets.now ≤ 4128 }
    ensures octets { out.new.items ≡ out.old.items ++ octets.now }
    ensures len { length out.new.items ≡ length out.old.items + length octets.now }
{
    let _ = out.try_extend_from_slice(octets);
}

/// Puts octets of padding behind those that are there, at most 15.
pub fn put_padding(out: &mut PacketBuf, padding: u8)
    requires few { padding ≤ 15 }
    requires room { length out.old.items + padding ≤ 4128 }
    ensures octets { out.new.items ≡ out.old.items ++ replicate padding 0 }
    ensures len { length out.new.items ≡ length out.old.items + padding }
{
    put(out, &[0; 16][..usize::from(padding)]);
}

/// Puts a number in two octets.
#[tactic(auto, unfolding(crate::specs::Secured::two))]
pub fn put_len(out: &mut PacketBuf, len: u16)
    requires { length out.old.items + 2 ≤ 4128 }
    ensures octets { out.new.items ≡ out.old.items ++ two len }
    ensures len { length out.new.items ≡ length out.old.items + 2 }
{
    put(out, &len.to_be_bytes());
}

/// Puts a counter in five octets.
#[tactic(auto, unfolding(crate::specs::Secured::five))]
pub fn put_counter(out: &mut PacketBuf, counter: Counter)
    requires { length out.old.items + 5 ≤ 4128 }
    ensures octets { out.new.items ≡ out.old.items ++ five counter }
    ensures len { length out.new.items ≡ length out.old.items + 5 }
    ensures below { counter < 2 ^ 40 }
{
    put(out, &counter.0.to_be_bytes()[3..]);
}

/// The number that two octets are.
#[tactic(auto, unfolding(crate::specs::Secured::number_of_two))]
pub fn len_of(octets: [u8; 2]) -> u16
    ensures { result ≡ number_of_two octets }
{
    u16::from_be_bytes(octets)
}

/// The counter that five octets are.
#[tactic(auto, unfolding(crate::specs::Secured::number_of_five))]
pub fn counter_of(octets: [u8; 5]) -> Counter
    ensures { result ≡ number_of_five octets }
{
    let [a, b, c, d, e] = octets;
    Counter(u64::from_be_bytes([0, 0, 0, a, b, c, d, e]))
}
