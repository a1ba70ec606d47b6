//! The messages of a card's answers.

ghost use Rattle.std.specs.Prelude.{◌≡◌, ◌≤◌, [], length, IfOk};
ghost use Rattle.receiving_entity.specs.Answer.{messages_of, octets_of, secured_answer, unsecured_answer};

use aes_modes::Keys;
use arrayvec::ArrayVec;
use command_packet::{Command, PacketBuf};
use ota_core::{Counter, Memory, Reference, Tar};
use response_packet::{build_in, build_plain};
use sms_segments::{piece, pieces_of};
use std::alloc::Global;

/// The user data of a message: at most 140 octets (3GPP TS 23.040, 9.2.3.24).
pub type Message = ArrayVec<u8, 140>;

/// The information element of a response packet (3GPP TS 31.115, 4.4).
const RESPONSE_PACKET: u8 = 0x71;

/// The messages of a response packet, in order. Their reference is the low octet of the counter.
fn messages_of(alloc: Global, packet: &[u8], counter: Counter) -> Result<Vec<Message>, Memory>
    requires some { 1 ≤ length packet.now }
    requires fits { length packet.now ≤ 34168 }
    ensures { IfOk result (λ messages. octets_of messages.items ≡ messages_of packet.now counter) }
{
    let reference = Reference::Short((counter.0 % 256) as u8);
    let count = pieces_of(packet.len(), false) as u8;
    let mut messages = Vec::new(alloc);
    for before in 0..count {
        messages.push(piece(packet, RESPONSE_PACKET, reference, before + 1))?;
    }
    Ok(messages)
}

/// The messages of an answer in the unsecured form.
pub fn unsecured(
    alloc: Global,
    status: u8,
    tar: Tar,
    counter: Counter,
) -> Result<Vec<Message>, Memory>
    ensures { IfOk result (λ messages. octets_of messages.items ≡ unsecured_answer status tar counter) }
{
    messages_of(alloc, &build_plain(tar, counter, status), counter)
}

/// The messages of an answer to a command under the keys of its keyset, ciphered as its SPI asks, with these data.
pub fn secured(
    alloc: Global,
    keys: &Keys,
    command: &Command,
    status: u8,
    octets: &[u8],
) -> Result<Vec<Message>, Memory>
    requires { length octets.now ≤ 259 }
    ensures { IfOk result (λ messages. octets_of messages.items ≡ secured_answer keys.now command.now status octets.now) }
{
    let mut packet = PacketBuf::new();
    build_in(
        keys,
        command.spi.answer_ciphered,
        command.tar,
        command.counter,
        status,
        octets,
        &mut packet,
    );
    messages_of(alloc, packet.as_slice(), command.counter)
}
