//! Opening a response packet.

ghost use Rattle.std.specs.Prelude.{◌≡◌, ◌-◌, ◌%◌, ◌^◌, ◌+◌, ◌<◌, ◌≤◌, drop, length, take, true, None, IfOk, IfSome, IsOk};
ghost use Rattle.secured_packet.specs.Secured.{deciphered};
ghost use Rattle.response_packet.specs.Opened.{Answers, AnswersBehind, AnswersIn, IsRefused, checked_of, has_padding, is_authentic, opened_checked, opened_plain, opens, plain_of, unsecured_in};
ghost use Rattle.response_packet.specs.Response.{settles};

use crate::answers::{Answer, AnswerErr, AnswerIn};
use crate::building::USER_DATA_HEADER;
use crate::fronts::{Front, front_of};
use aes_modes::{Keys, cmac8};
use gf_aes::KeySchedule;
use ota_core::{Memory, Octets, Tar};
use secured_packet::checks;
use secured_packet::fields::counter_of;
use secured_packet::protection::{decipher, take_checksum};
use std::alloc::Global;

/// Whether a status code says that the card used its counter up: 00, 07 and 09 (ETSI TS 102 225, 5.2.2).
pub fn is_settling(status: u8) -> bool
    ensures { result ≡ settles status }
{
    status == 0x00 || status == 0x07 || status == 0x09
}

/// The status code of a packet in the unsecured form, which has no cryptographic checksum: RHL is 0A. None where it isn't
/// in that form (ETSI TS 102 225, 5.2).
pub fn unsecured_status(packet: &[u8]) -> Option<u8>
    ensures { result ≡ unsecured_in packet.now }
{
    match front_of(false, packet) {
        Front::Plain(status) => Some(status),
        _ => None,
    }
}

/// Opens a response packet under these keys. `ciphered` says whether a secured one is ciphered, as the SPI of its
/// command asked. It is Ok exactly where the octets are a secured response; otherwise the first refusal that applies is
/// answered. Nothing is copied, and no memory is wanted, before the packet is known to be a secured response.
///
/// ETSI TS 102 225, 5.2.
#[tactic(auto, unfolding(crate::specs::Opened::opens))]
pub fn open(alloc: Global, keys: &Keys, ciphered: bool, packet: &[u8]) -> Result<Answer, AnswerErr>
    ensures { Answers (opens keys.now ciphered packet.now) result }
{
    match front_of(ciphered, packet) {
        Front::NoForm => Err(AnswerErr::Form),
        Front::Plain(status) => Err(AnswerErr::Unsecured(status)),
        Front::Secured => match refusal_of(keys, ciphered, packet) {
            Some(refusal) => Err(refusal),
            None => open_copy(alloc, keys, ciphered, packet),
        },
    }
}

/// Opens a response packet in the caller's octets, at least as many as the packet has, and says where its data are
/// there. It answers as `open` does, and wants no memory.
#[tactic(auto, unfolding(crate::specs::Opened::opens))]
pub fn open_in(
    keys: &Keys,
    ciphered: bool,
    packet: &[u8],
    work: &mut [u8],
) -> Result<AnswerIn, AnswerErr>
    requires { length packet.now ≤ length work.old }
    ensures { AnswersIn (opens keys.now ciphered packet.now) result work.new }
{
    match front_of(ciphered, packet) {
        Front::NoForm => Err(AnswerErr::Form),
        Front::Plain(status) => Err(AnswerErr::Unsecured(status)),
        Front::Secured => open_into(keys, ciphered, packet, work),
    }
}

/// Why a packet with CC isn't a secured response, if it is none. It wants no memory.
fn refusal_of(keys: &Keys, ciphered: bool, packet: &[u8]) -> Option<AnswerErr>
    requires long { 21 ≤ length packet.now }
    requires blocks { ciphered ≡ true → (length packet.now - 6) % 16 ≡ 0 }
    ensures refusal { IfSome result (IsRefused (opened_plain keys.now.kid (plain_of ciphered keys.now.kic packet.now))) }
    ensures none { result ≡ None → IsOk (opened_plain keys.now.kid (plain_of ciphered keys.now.kic packet.now)) }
{
    if !has_checksum(keys, ciphered, packet) {
        return Some(AnswerErr::CcWrong);
    }
    if !has_padding(keys.kic(), ciphered, packet) {
        return Some(AnswerErr::Padding);
    }
    None
}

/// Whether CC is the one that belongs to the packet, which is deciphered block by block.
fn has_checksum(keys: &Keys, ciphered: bool, packet: &[u8]) -> bool
    requires long { 21 ≤ length packet.now }
    requires blocks { ciphered ≡ true → (length packet.now - 6) % 16 ≡ 0 }
    ensures authentic { result ≡ is_authentic keys.now.kid (plain_of ciphered keys.now.kic packet.now) }
    ensures len { length (deciphered ciphered keys.now.kic (drop 6 packet.now)) ≡ length packet.now - 6 }
{
    checks::is_authentic(
        keys,
        ciphered,
        &USER_DATA_HEADER,
        &packet[..6],
        &packet[6..],
        7,
    )
}

/// Whether there are as many octets of padding as PCNTR says.
fn has_padding(kic: &KeySchedule, ciphered: bool, packet: &[u8]) -> bool
    requires long { 21 ≤ length packet.now }
    requires blocks { ciphered ≡ true → (length packet.now - 6) % 16 ≡ 0 }
    requires len { length (deciphered ciphered kic.now (drop 6 packet.now)) ≡ length packet.now - 6 }
    ensures { result ≡ has_padding (checked_of (plain_of ciphered kic.now packet.now)) }
{
    usize::from(checks::padding_in(ciphered, kic, &packet[6..])) <= packet.len() - 21
}

fn open_copy(alloc: Global, keys: &Keys, ciphered: bool, packet: &[u8]) -> Result<Answer, AnswerErr>
    requires opens { IsOk (opened_plain keys.now.kid (plain_of ciphered keys.now.kic packet.now)) }
    requires long { 21 ≤ length packet.now }
    requires short { length packet.now < 2 ^ 17 }
    requires blocks { ciphered ≡ true → (length packet.now - 6) % 16 ≡ 0 }
    ensures { Answers (opened_plain keys.now.kid (plain_of ciphered keys.now.kic packet.now)) result }
{
    let mut work = Vec::from_slice(alloc, packet)?;
    match open_secured(keys, ciphered, &mut work) {
        Ok(answer) => {
            let octets = octets_at(alloc, &work, answer.from, answer.len)?;
            Ok(Answer {
                tar: answer.tar,
                counter: answer.counter,
                status: answer.status,
                octets,
            })
        }
        Err(refusal) => Err(refusal),
    }
}

/// A copy of so many octets from a place on.
fn octets_at(alloc: Global, work: &[u8], from: u32, len: u32) -> Result<Octets, Memory>
    requires { from + len ≤ length work.now }
    ensures { IfOk result (λ octets. octets ≡ take len (drop from work.now)) }
{
    let behind = &work[from as usize..];
    Octets::from_slice(alloc, &behind[..len as usize])
}

fn open_into(
    keys: &Keys,
    ciphered: bool,
    packet: &[u8],
    work: &mut [u8],
) -> Result<AnswerIn, AnswerErr>
    requires room { length packet.now ≤ length work.old }
    requires long { 21 ≤ length packet.now }
    requires short { length packet.now < 2 ^ 17 }
    requires blocks { ciphered ≡ true → (length packet.now - 6) % 16 ≡ 0 }
    ensures { AnswersIn (opened_plain keys.now.kid (plain_of ciphered keys.now.kic packet.now)) result work.new }
{
    let work = &mut work[..packet.len()];
    work.copy_from_slice(packet);
    open_secured(keys, ciphered, work)
}

/// Opens a packet with CC in its own octets.
fn open_secured(keys: &Keys, ciphered: bool, packet: &mut [u8]) -> Result<AnswerIn, AnswerErr>
    requires long { 21 ≤ length packet.old }
    requires short { length packet.old < 2 ^ 17 }
    requires blocks { ciphered ≡ true → (length packet.old - 6) % 16 ≡ 0 }
    ensures { AnswersIn (opened_plain keys.now.kid (plain_of ciphered keys.now.kic packet.old)) result packet.new }
{
    decipher_packet(ciphered, keys.kic(), packet);
    if !is_authentic(keys.kid(), packet) {
        return Err(AnswerErr::CcWrong);
    }
    answer_in(&packet[8..])
}

/// Undoes the ciphering of what stands behind TAR.
fn decipher_packet(ciphered: bool, kic: &KeySchedule, packet: &mut [u8])
    requires long { 21 ≤ length packet.old }
    requires blocks { ciphered ≡ true → (length packet.old - 6) % 16 ≡ 0 }
    ensures { packet.new ≡ plain_of ciphered kic.now packet.old }
{
    decipher(ciphered, kic, &mut packet[6..]);
}

/// Whether CC is the one that belongs to the packet, which isn't ciphered any more. The packet without CC is moved
/// together, and stands behind the first 8 octets then.
fn is_authentic(kid: &KeySchedule, plain: &mut [u8]) -> bool
    requires { 21 ≤ length plain.old }
    ensures authentic { result ≡ is_authentic kid.now plain.old }
    ensures checked { drop 8 plain.new ≡ checked_of plain.old }
{
    let checksum = take_checksum(plain, 13);
    plain[5..8].copy_from_slice(&USER_DATA_HEADER);
    checksum == cmac8(kid, &plain[5..])
}

/// The fields of an authentic packet without CC that stands behind 8 other octets, where it has as many octets of padding
/// as it says.
fn answer_in(checked: &[u8]) -> Result<AnswerIn, AnswerErr>
    requires long { 13 ≤ length checked.now }
    requires short { length checked.now < 2 ^ 17 }
    ensures { AnswersBehind (opened_checked checked.now) result checked.now }
{
    match checked {
        [
            _,
            _,
            _,
            t0,
            t1,
            t2,
            n0,
            n1,
            n2,
            n3,
            n4,
            padding,
            status,
            text @ ..,
        ] => {
            let padding = usize::from(*padding);
            if padding > text.len() {
                return Err(AnswerErr::Padding);
            }
            Ok(AnswerIn {
                tar: Tar([*t0, *t1, *t2]),
                counter: counter_of([*n0, *n1, *n2, *n3, *n4]),
                status: *status,
                from: 21,
                len: (text.len() - padding) as u32,
            })
        }
        _ => Err(AnswerErr::Padding),
    }
}
