//! The packet of a reservation.

ghost use Rattle.std.specs.Prelude.{◌≡◌, ◌<◌, ◌+◌, ◌^◌};
ghost use Rattle.world_core.specs.Packet.{packet_at, packet_of, packet_length, pieces_of_length, pieces_of};

use ota_core::questions::opened_facts;
use ota_core::{Counter, Entry, KeysetFacts, KeysetId, Octets, Tar};
use std::marker::Model;

/// The longest packet that leaves in one message, in octets.
const SINGLE: u64 = 137;

/// The octets of a longer packet that its first message has room for, and those of each other message.
const FIRST: u64 = 132;

const OTHER: u64 = 134;

/// The same under a reference of two octets.
const WIDE_FIRST: u64 = 131;

const WIDE_OTHER: u64 = 133;

/// The longest body that leaves under a reference of one octet.
const LONGEST_SHORT: u64 = 1024;

/// What the packet of a reservation carries, and the facts with which its keyset was opened.
#[derive(Drop)]
pub(crate) struct ReservedPacket<'a> {
    pub(crate) keyset: KeysetId,
    pub(crate) counter: Counter,
    pub(crate) tar: Tar,
    pub(crate) body: &'a Octets,
    pub(crate) opened: KeysetFacts,
}

impl<'a> Model for ReservedPacket<'a> {
    ghost use Rattle.world_core.specs.Packet.{Packet};

    ghost Value = { Packet };

    ghost view = { λ p. record { keyset = p.keyset; counter = p.counter; tar = p.tar; body = p.body.now; opened = p.opened } };
}

/// The packet of the reservation at a position of the history.
pub(crate) fn packet_at(history: &[Entry], position: u64) -> Option<ReservedPacket<'_>>
    ensures { result ≡ packet_at history.now position }
{
    match history.get(position as usize) {
        Some(entry) => packet_of(history, entry),
        None => None,
    }
}

impl ReservedPacket<'_> {
    /// The messages that the packet leaves in.
    pub(crate) fn pieces(&self) -> u64
        ensures { result ≡ pieces_of self.now }
    {
        let body = self.body.as_slice().len() as u64;
        let packet = packet_length(self.opened.ciphered, body);
        pieces_of_length(packet, body > LONGEST_SHORT)
    }
}

fn packet_of<'a>(history: &'a [Entry], entry: &'a Entry) -> Option<ReservedPacket<'a>>
    ensures { result ≡ packet_of history.now entry.now }
{
    match entry {
        Entry::Reserve {
            keyset,
            counter,
            tar,
            body,
            ..
        } => match opened_facts(history, *keyset) {
            Some(opened) => Some(ReservedPacket {
                keyset: *keyset,
                counter: *counter,
                tar: *tar,
                body,
                opened,
            }),
            None => None,
        },
        _ => None,
    }
}

fn packet_length(ciphered: bool, body: u64) -> u64
    requires { body < 2 ^ 63 }
    ensures { result ≡ packet_length ciphered body }
{
    if ciphered {
        10 + 16 * ((14 + body + 15) / 16)
    } else {
        24 + body
    }
}

fn pieces_of_length(octets: u64, wide: bool) -> u64
    requires { octets < 2 ^ 63 + 64 }
    ensures { result ≡ pieces_of_length octets wide }
{
    if octets <= SINGLE {
        return 1;
    }
    if wide {
        1 + (octets - WIDE_FIRST + (WIDE_OTHER - 1)) / WIDE_OTHER
    } else {
        1 + (octets - FIRST + (OTHER - 1)) / OTHER
    }
}
