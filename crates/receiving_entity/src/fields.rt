//! The fields of a packet that isn't opened.

ghost use Rattle.std.specs.Prelude.{◌≡◌, ◌%◌, ◌≤◌, length, take, true};
ghost use Rattle.aes_modes.specs.Modes.{cbc_plain_of};
ghost use Rattle.command_packet.specs.Carried.{has_form, says_ciphered};
ghost use Rattle.secured_packet.specs.Secured.{number_of_five};
ghost use Rattle.receiving_entity.specs.Fields.{counter_by, tar_in};

use gf_aes::KeySchedule;
use ota_core::{Counter, Tar};
use secured_packet::fields::counter_of;
use secured_packet::protection::decipher;

/// TAR, octets 8 to 10 of a packet; zeros, where it has fewer than 10.
pub fn tar_in(packet: &[u8]) -> Tar
    ensures { result ≡ tar_in packet.now }
{
    match packet {
        [_, _, _, _, _, _, _, a, b, c, ..] => Tar([*a, *b, *c]),
        _ => Tar([0; 3]),
    }
}

/// CNTR, octets 11 to 15 of a packet, as it is deciphered.
pub fn counter_in(kic: &KeySchedule, packet: &[u8]) -> Counter
    requires { has_form packet.now ≡ true }
    ensures { result ≡ counter_by kic.now packet.now }
{
    if says_ciphered(packet[3]) {
        first_counter(kic, &packet[10..])
    } else {
        counter_of([packet[10], packet[11], packet[12], packet[13], packet[14]])
    }
}

fn says_ciphered(octet: u8) -> bool
    ensures { result ≡ says_ciphered octet }
{
    octet / 4 % 2 == 1
}

/// The counter that the first block of ciphered octets begins with.
fn first_counter(kic: &KeySchedule, octets: &[u8]) -> Counter
    requires some { 16 ≤ length octets.now }
    requires blocks { length octets.now % 16 ≡ 0 }
    ensures { result ≡ number_of_five (take 5 (cbc_plain_of kic.now octets.now)) }
{
    let mut first = [0; 16];
    first.copy_from_slice(&octets[..16]);
    decipher(true, kic, &mut first);
    counter_of([first[0], first[1], first[2], first[3], first[4]])
}
