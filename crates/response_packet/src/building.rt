//! Building a response packet.

ghost use Rattle.std.specs.Prelude.{◌≡◌, ℕ, ◌+◌, ◌^◌, ◌<◌, ◌≤◌, ◌++◌, Bool, length, replicate, IfOk};
ghost use Rattle.aes_modes.specs.KeyPair.{KeyPair};
ghost use Rattle.secured_packet.specs.Secured.{with_padding};
ghost use Rattle.response_packet.specs.declared.answers.AnswerErr.TheVariants.{Unsecured};
ghost use Rattle.response_packet.specs.Opened.{opens};
ghost use Rattle.response_packet.specs.Response.{checked_octets, head_octets, plain_octets, response_octets, status_octets};

use aes_modes::Keys;
use ota_core::{Counter, Memory, Octets, Tar};
use secured_packet::PacketBuf;
use secured_packet::fields::{put, put_counter, put_len, put_padding};
use secured_packet::protection::{cipher, padding_len, put_checksum};
use std::alloc::Global;

/// RHL with CC: the octets from TAR to its end.
pub const SECURED_LEN: u8 = 0x12;

/// RHL without CC.
pub const PLAIN_LEN: u8 = 0x0A;

/// The user data header of a response packet in one message, over which CC goes too.
pub const USER_DATA_HEADER: [u8; 3] = [0x02, 0x71, 0x00];

/// Puts RPL, RHL with CC, and TAR, where so many octets follow RPL.
fn put_head(out: &mut PacketBuf, len: u16, tar: Tar)
    requires { length out.old.items + 6 ≤ 4128 }
    ensures octets { out.new.items ≡ out.old.items ++ head_octets len 0x12 tar }
    ensures len { length out.new.items ≡ length out.old.items + 6 }
    ensures tar { length tar ≡ 3 }
{
    put_len(out, len);
    put(out, &[SECURED_LEN]);
    put(out, &tar.0);
}

/// Puts CNTR, PCNTR and the status code.
fn put_status(out: &mut PacketBuf, counter: Counter, padding: u8, status: u8)
    requires { length out.old.items + 7 ≤ 4128 }
    ensures octets { out.new.items ≡ out.old.items ++ status_octets counter padding status }
    ensures len { length out.new.items ≡ length out.old.items + 7 }
    ensures below { counter < 2 ^ 40 }
{
    put_counter(out, counter);
    put(out, &[padding, status]);
}

/// Puts what the cryptographic checksum is over into the empty `out`, behind 5 octets: these and the user data header
/// are kept free for the checksum.
fn put_checked(
    out: &mut PacketBuf,
    tar: Tar,
    counter: Counter,
    padding: u8,
    status: u8,
    octets: &[u8],
)
    requires few { padding ≤ 15 }
    requires fits { length octets.now ≤ 259 }
    ensures octets { out.new.items ≡ replicate 5 0 ++ checked_octets tar counter padding status (with_padding padding octets.now) }
    ensures len { length out.new.items ≡ 21 + length octets.now + padding }
    ensures tar { length tar ≡ 3 }
    ensures below { counter < 2 ^ 40 }
{
    let len = (19 + octets.len() + usize::from(padding)) as u16;
    out.clear();
    put(out, &[0; 5]);
    put(out, &USER_DATA_HEADER);
    put_head(out, len, tar);
    put_status(out, counter, padding, status);
    put(out, octets);
    put_padding(out, padding);
}

/// Leaves exactly the secured packet in `out`: the octets that `build` gives, without memory.
///
/// ETSI TS 102 225, 5.2.
pub fn build_in(
    keys: &Keys,
    ciphered: bool,
    tar: Tar,
    counter: Counter,
    status: u8,
    octets: &[u8],
    out: &mut PacketBuf,
)
    requires { length octets.now ≤ 259 }
    ensures packet { out.new.items ≡ response_octets keys.now ciphered tar counter status octets.now }
    ensures opens { opens keys.now ciphered out.new.items ≡ Ok (record { tar = tar; counter = counter; status = status; octets = octets.now }) }
{
    let padding = padding_len(ciphered, 15 + octets.len());
    put_checked(out, tar, counter, padding, status, octets);
    put_checksum(keys.kid(), out, 5, 13);
    cipher(ciphered, keys.kic(), out, 6);
}

/// The secured packet with these data, at most 259 octets, ciphered or not. What it is opens to the arguments.
///
/// ETSI TS 102 225, 5.2.
pub fn build(
    alloc: Global,
    keys: &Keys,
    ciphered: bool,
    tar: Tar,
    counter: Counter,
    status: u8,
    octets: &[u8],
) -> Result<Octets, Memory>
    requires { length octets.now ≤ 259 }

    ensures packet { IfOk result (λ packet. packet ≡ response_octets keys.now ciphered tar counter status octets.now) }
    ensures opens { IfOk result (λ packet. opens keys.now ciphered packet ≡ Ok (record { tar = tar; counter = counter; status = status; octets = octets.now })) }
{
    let mut out = PacketBuf::new();
    build_in(keys, ciphered, tar, counter, status, octets, &mut out);
    Octets::from_slice(alloc, out.as_slice())
}

/// The packet in the unsecured form. It opens to that form with its status under any keys.
///
/// ETSI TS 102 225, 5.2.
pub fn build_plain(tar: Tar, counter: Counter, status: u8) -> [u8; 13]
    ensures packet { result ≡ plain_octets tar counter status }
    ensures opens { (keys : KeyPair) (ciphered : Bool) → opens keys ciphered result ≡ Err (Unsecured status) }
{
    let Tar([t0, t1, t2]) = tar;
    let [_, _, _, n0, n1, n2, n3, n4] = counter.0.to_be_bytes();
    [0, 11, PLAIN_LEN, t0, t1, t2, n0, n1, n2, n3, n4, 0, status]
}
