//! Building a command packet.

ghost use Rattle.std.specs.Prelude.{◌≡◌, ◌+◌, ◌^◌, ◌<◌, ◌≤◌, ◌++◌, length, replicate, IfOk};
ghost use Rattle.command_packet.specs.Carried.{carries};
ghost use Rattle.command_packet.specs.Command.{checked_octets, command_octets, counter_octets, head_octets, packet_length};
ghost use Rattle.secured_packet.specs.Secured.{with_padding};

use crate::heads::HEADER_LEN;
use aes_modes::Keys;
use ota_core::{Counter, Memory, Octets, Spi, Tar, write_key, write_spi};
use secured_packet::fields::{PacketBuf, put, put_counter, put_len, put_padding};
use secured_packet::protection::{cipher, padding_len, put_checksum};
use std::alloc::Global;

/// Puts CPL, CHL, SPI, KIc, KID and TAR, where so many octets follow CPL.
fn put_head(out: &mut PacketBuf, len: u16, kvn: u8, spi: Spi, tar: Tar)
    requires kvn_above { 1 ≤ kvn }
    requires kvn_below { kvn ≤ 15 }
    requires room { length out.old.items + 10 ≤ 4128 }
    ensures octets { out.new.items ≡ out.old.items ++ head_octets len spi kvn tar }
    ensures len { length out.new.items ≡ length out.old.items + 10 }
    ensures tar { length tar ≡ 3 }
{
    put_len(out, len);
    put(out, &[HEADER_LEN]);
    put(out, &write_spi(spi));
    let key = write_key(kvn);
    put(out, &[key, key]);
    put(out, &tar.0);
}

/// Puts CNTR and PCNTR.
fn put_counters(out: &mut PacketBuf, counter: Counter, padding: u8)
    requires { length out.old.items + 6 ≤ 4128 }
    ensures octets { out.new.items ≡ out.old.items ++ counter_octets counter padding }
    ensures len { length out.new.items ≡ length out.old.items + 6 }
    ensures below { counter < 2 ^ 40 }
{
    put_counter(out, counter);
    put(out, &[padding]);
}

/// Puts what the cryptographic checksum is over behind 8 octets that are kept free for it.
fn put_checked(
    out: &mut PacketBuf,
    kvn: u8,
    spi: Spi,
    tar: Tar,
    counter: Counter,
    padding: u8,
    body: &[u8],
)
    requires kvn_above { 1 ≤ kvn }
    requires kvn_below { kvn ≤ 15 }
    requires few { padding ≤ 15 }
    requires fits { length body.now ≤ 4096 }
    requires room { length body.now + padding ≤ 4104 }
    ensures octets { out.new.items ≡ replicate 8 0 ++ checked_octets spi kvn tar counter padding (with_padding padding body.now) }
    ensures len { length out.new.items ≡ 24 + length body.now + padding }
    ensures tar { length tar ≡ 3 }
    ensures below { counter < 2 ^ 40 }
{
    let len = (22 + body.len() + usize::from(padding)) as u16;
    out.clear();
    put(out, &[0; 8]);
    put_head(out, len, kvn, spi, tar);
    put_counters(out, counter, padding);
    put(out, body);
    put_padding(out, padding);
}

/// Leaves exactly the packet in `out`.
///
/// The body, 1 to 4,096 octets, is padded with zeros to whole blocks where it is ciphered. What is left carries the
/// arguments: ETSI TS 102 225, 5.1.
pub fn build_in(
    keys: &Keys,
    kvn: u8,
    spi: Spi,
    tar: Tar,
    counter: Counter,
    body: &[u8],
    out: &mut PacketBuf,
)
    requires kvn_above { 1 ≤ kvn }
    requires kvn_below { kvn ≤ 15 }
    requires some { 1 ≤ length body.now }
    requires fits { length body.now ≤ 4096 }

    ensures packet { out.new.items ≡ command_octets keys.now kvn spi tar counter body.now }
    ensures len { length out.new.items ≡ packet_length spi.ciphered (length body.now) }
    ensures law { carries keys.now kvn (command_octets keys.now kvn spi tar counter body.now) ≡ Ok (record { kvn = kvn; spi = spi; tar = tar; counter = counter; body = body.now }) }
    ensures carries { carries keys.now kvn out.new.items ≡ Ok (record { kvn = kvn; spi = spi; tar = tar; counter = counter; body = body.now }) }
{
    let padding = padding_len(spi.ciphered, 14 + body.len());
    put_checked(out, kvn, spi, tar, counter, padding, body);
    put_checksum(keys.kid(), out, 8, 16);
    cipher(spi.ciphered, keys.kic(), out, 10);
}

/// The packet in octets of its own: what `build_in` leaves.
pub fn build(
    alloc: Global,
    keys: &Keys,
    kvn: u8,
    spi: Spi,
    tar: Tar,
    counter: Counter,
    body: &[u8],
) -> Result<Octets, Memory>
    requires kvn_above { 1 ≤ kvn }
    requires kvn_below { kvn ≤ 15 }
    requires some { 1 ≤ length body.now }
    requires fits { length body.now ≤ 4096 }

    ensures len { IfOk result (λ packet. length packet ≡ packet_length spi.ciphered (length body.now)) }
    ensures packet { IfOk result (λ packet. packet ≡ command_octets keys.now kvn spi tar counter body.now) }
    ensures carries { IfOk result (λ packet. carries keys.now kvn packet ≡ Ok (record { kvn = kvn; spi = spi; tar = tar; counter = counter; body = body.now })) }
{
    let mut out = PacketBuf::new();
    build_in(keys, kvn, spi, tar, counter, body, &mut out);
    Octets::from_slice(alloc, out.as_slice())
}
