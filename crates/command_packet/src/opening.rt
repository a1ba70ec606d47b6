//! Opening a command packet.

ghost use Rattle.std.specs.Prelude.{◌≡◌, ◌-◌, ◌%◌, ◌≤◌, drop, length, true, IsTrue};
ghost use Rattle.secured_packet.specs.Secured.{deciphered};
ghost use Rattle.command_packet.specs.declared.opening.OpenErr.TheVariants.{Memory};
ghost use Rattle.command_packet.specs.Carried.{Answers, carried_plain, carries, checked_of, command_in, has_padding, is_authentic, plain_of};

use crate::heads::{has_form, security_of};
use aes_modes::Keys;
use gf_aes::KeySchedule;
use ota_core::{Counter, Octets, Spi, Tar};
use secured_packet::checks;
use secured_packet::fields::counter_of;
use secured_packet::protection::{decipher, take_checksum};
use std::alloc::{AllocError, Global};
use std::error::Error;
use std::fmt;

/// What a command packet carries.
#[derive(Debug, Drop)]
pub struct Command {
    /// The key version number of its keyset, 1 to 15.
    pub kvn: u8,
    pub spi: Spi,
    pub tar: Tar,
    pub counter: Counter,
    /// The script, without padding.
    pub body: Octets,
}

/// Why a packet isn't opened. Where several apply, the first one here.
#[derive(Clone, Copy, Debug, PartialEq, Eq)]
pub enum OpenErr {
    /// There are fewer than 24 octets, CPL isn't their number less 2, CHL isn't 15 in hexadecimal, or what is ciphered
    /// isn't whole blocks.
    Form,
    /// SPI, KIc or KID isn't of the profile, or KIc or KID names another keyset.
    UnknownAlgorithm,
    /// CC isn't the one of the deciphered octets.
    CcWrong,
    /// PCNTR is above the number of octets behind CC.
    Padding,
    /// Memory is wanting.
    Memory,
}

impl fmt::Display for OpenErr {
    fn fmt<W: fmt::Write>(&self, f: &mut fmt::Formatter<W>) -> fmt::Result {
        let text = match self {
            OpenErr::Form => "no form of a command packet",
            OpenErr::UnknownAlgorithm => "unknown algorithm or another keyset",
            OpenErr::CcWrong => "wrong cryptographic checksum",
            OpenErr::Padding => "more padding than octets",
            OpenErr::Memory => "out of memory",
        };
        write!(f, "{text}")
    }
}

impl Error for OpenErr {}

impl From<AllocError> for OpenErr {
    ghost from_gives = { λ _ error. error ≡ Memory };

    fn from(_error: AllocError) -> OpenErr {
        OpenErr::Memory
    }
}

impl From<ota_core::Memory> for OpenErr {
    ghost from_gives = { λ _ error. error ≡ Memory };

    fn from(_error: ota_core::Memory) -> OpenErr {
        OpenErr::Memory
    }
}

/// Opens a packet for the keyset with this key version number and these keys. It is Ok exactly where the octets carry
/// a command; otherwise the first refusal that applies is answered. Nothing is copied, and no memory is wanted, before the
/// packet is known to carry a command.
///
/// ETSI TS 102 225, 5.1.
#[tactic(auto, unfolding(crate::specs::Carried::carries))]
pub fn open(alloc: Global, keys: &Keys, kvn: u8, packet: &[u8]) -> Result<Command, OpenErr>
    ensures { Answers (carries keys.now kvn packet.now) result }
{
    if !has_form(packet) {
        return Err(OpenErr::Form);
    }
    match security_of(packet) {
        Some((spi, named)) => {
            if named != kvn {
                return Err(OpenErr::UnknownAlgorithm);
            }
            open_secured(alloc, keys, kvn, spi, packet)
        }
        None => Err(OpenErr::UnknownAlgorithm),
    }
}

/// Opens a packet of which form, SPI, KIc and KID are right.
fn open_secured(
    alloc: Global,
    keys: &Keys,
    kvn: u8,
    spi: Spi,
    packet: &[u8],
) -> Result<Command, OpenErr>
    requires long { 24 ≤ length packet.now }
    requires blocks { IsTrue spi.ciphered → (length packet.now - 10) % 16 ≡ 0 }
    ensures { Answers (carried_plain keys.now.kid kvn spi (plain_of spi.ciphered keys.now.kic packet.now)) result }
{
    if !is_authentic(keys, spi.ciphered, packet) {
        return Err(OpenErr::CcWrong);
    }
    if !has_padding(keys.kic(), spi.ciphered, packet) {
        return Err(OpenErr::Padding);
    }
    copy(alloc, keys.kic(), kvn, spi, packet)
}

/// Whether CC is the one that belongs to the packet.
fn is_authentic(keys: &Keys, ciphered: bool, packet: &[u8]) -> bool
    requires long { 24 ≤ length packet.now }
    requires blocks { IsTrue ciphered → (length packet.now - 10) % 16 ≡ 0 }
    ensures authentic { result ≡ is_authentic keys.now.kid (plain_of ciphered keys.now.kic packet.now) }
    ensures len { length (deciphered ciphered keys.now.kic (drop 10 packet.now)) ≡ length packet.now - 10 }
{
    checks::is_authentic(keys, ciphered, &[], &packet[..10], &packet[10..], 6)
}

/// Whether there are as many octets of padding as PCNTR says.
fn has_padding(kic: &KeySchedule, ciphered: bool, packet: &[u8]) -> bool
    requires long { 24 ≤ length packet.now }
    requires blocks { IsTrue ciphered → (length packet.now - 10) % 16 ≡ 0 }
    requires len { length (deciphered ciphered kic.now (drop 10 packet.now)) ≡ length packet.now - 10 }
    ensures { result ≡ has_padding (checked_of (plain_of ciphered kic.now packet.now)) }
{
    usize::from(checks::padding_in(ciphered, kic, &packet[10..])) <= packet.len() - 24
}

/// What an authentic packet with right padding carries.
fn copy(
    alloc: Global,
    kic: &KeySchedule,
    kvn: u8,
    spi: Spi,
    packet: &[u8],
) -> Result<Command, OpenErr>
    requires long { 24 ≤ length packet.now }
    requires blocks { IsTrue spi.ciphered → (length packet.now - 10) % 16 ≡ 0 }
    requires padding { has_padding (checked_of (plain_of spi.ciphered kic.now packet.now)) ≡ true }
    ensures { Answers (Ok (command_in kvn spi (checked_of (plain_of spi.ciphered kic.now packet.now)))) result }
{
    let mut work = Vec::from_slice(alloc, packet)?;
    decipher_packet(spi.ciphered, kic, &mut work);
    let _ = take_checksum(&mut work, 16);
    command_in(alloc, kvn, spi, &work[8..])
}

/// Undoes the ciphering of what stands behind TAR.
fn decipher_packet(ciphered: bool, kic: &KeySchedule, packet: &mut [u8])
    requires long { 24 ≤ length packet.old }
    requires blocks { IsTrue ciphered → (length packet.old - 10) % 16 ≡ 0 }
    ensures { packet.new ≡ plain_of ciphered kic.now packet.old }
{
    decipher(ciphered, kic, &mut packet[10..]);
}

/// The fields of a packet without CC that has as many octets of padding as it says.
fn command_in(alloc: Global, kvn: u8, spi: Spi, checked: &[u8]) -> Result<Command, OpenErr>
    requires long { 16 ≤ length checked.now }
    requires padding { has_padding checked.now ≡ true }
    ensures { Answers (Ok (command_in kvn spi checked.now)) result }
{
    match checked {
        [
            _,
            _,
            _,
            _,
            _,
            _,
            _,
            t0,
            t1,
            t2,
            n0,
            n1,
            n2,
            n3,
            n4,
            padding,
            text @ ..,
        ] => {
            let len = text.len() - usize::from(*padding);
            let body = Octets::from_slice(alloc, &text[..len])?;
            Ok(Command {
                kvn,
                spi,
                tar: Tar([*t0, *t1, *t2]),
                counter: counter_of([*n0, *n1, *n2, *n3, *n4]),
                body,
            })
        }
        _ => Err(OpenErr::Padding),
    }
}
