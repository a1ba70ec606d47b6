//! What a card does with a packet: the first rule that applies.

ghost use Rattle.std.specs.Prelude.{◌≡◌, ◌<◌, ◌≤◌, length, IfOk};
ghost use Rattle.card_store.specs.Content.{Content};
ghost use Rattle.card_store.specs.Store.{Shows};
ghost use Rattle.command_packet.specs.Carried.{carries};
ghost use Rattle.world_core.specs.Receiving.{is_next};
ghost use Rattle.receiving_entity.specs.Taking.{IfTakes, IsStorable};
ghost use Rattle.receiving_entity.specs.Verdict.{is_below_level, keys_of, refusal_of, unidentified, verdict, verdict_by, verdict_unless};

use crate::fields::{counter_in, tar_in};
use aes_modes::Keys;
use card_store::CardStore;
use command_packet::{Command, OpenErr, kvn_of, open};
use disk_model::DiskCalls;
use ota_core::{Counter, KeysetFacts, Memory, Mode, Spi, Tar};
use std::alloc::Global;

/// The greatest counter: a keyset that has it stored is blocked.
const LAST_COUNTER: u64 = 0xFF_FFFF_FFFF;

/// What a card does with a packet. The status codes are those of ETSI TS 102 225, 5.2.2.
#[derive(Drop)]
pub enum Verdict {
    /// It answers in the unsecured form.
    Unsecured {
        status: u8,
        tar: Tar,
        counter: Counter,
    },
    /// It answers with a status under the keys of the command's keyset, and the counter isn't used up.
    Refused {
        keys: Keys,
        command: Command,
        status: u8,
    },
    /// It uses the counter up.
    Takes {
        keys: Keys,
        command: Command,
    },
}

/// What the card of this store does with a packet.
pub fn judge<D: DiskCalls>(
    alloc: Global,
    store: &CardStore<D>,
    packet: &[u8],
) -> Result<Verdict, Memory>
    requires { length packet.now ≤ 34168 }
    ensures verdict { (content : Content) → Shows content store.now.shown → IfOk result (λ found. found ≡ verdict store.now.facts content packet.now) }
    ensures takes { IfOk result (λ found. IfTakes found (IsStorable store.now)) }
{
    let kvn = match kvn_of(packet) {
        Some(kvn) => kvn,
        None => return Ok(unidentified(packet)),
    };
    match (store.keyset(kvn), store.counter(kvn)) {
        (Some(own), Some(stored)) => verdict_under(alloc, own, stored, kvn, packet),
        _ => Ok(unidentified(packet)),
    }
}

/// What a card does with a packet for a keyset of its own, which has this counter stored.
fn verdict_under(
    alloc: Global,
    own: &KeysetFacts,
    stored: Counter,
    kvn: u8,
    packet: &[u8],
) -> Result<Verdict, Memory>
    ensures verdict { IfOk result (λ found. found ≡ verdict_by own.now stored packet.now (carries (keys_of own.now) kvn packet.now)) }
    ensures takes { IfOk result (λ found. IfTakes found (λ command. (stored < command.counter) × (command.kvn ≡ kvn) × (length command.body ≤ length packet.now))) }
{
    let keys = keys_of(own);
    match open(alloc, &keys, kvn, packet) {
        Ok(command) => Ok(verdict_unless(refusal_of(own, stored, &command), keys, command)),
        Err(OpenErr::CcWrong) => Ok(Verdict::Unsecured {
            status: 0x01,
            tar: tar_in(packet),
            counter: counter_in(keys.kic(), packet),
        }),
        Err(OpenErr::Memory) => Err(Memory),
        Err(_) => Ok(unidentified(packet)),
    }
}

fn keys_of(own: &KeysetFacts) -> Keys
    ensures { result ≡ keys_of own.now }
{
    Keys::new(own.kic.as_slice(), own.kid.as_slice()).unwrap()
}

fn verdict_unless(refusal: Option<u8>, keys: Keys, command: Command) -> Verdict
    ensures { result ≡ verdict_unless keys command refusal }
{
    match refusal {
        Some(status) => Verdict::Refused {
            keys,
            command,
            status,
        },
        None => Verdict::Takes { keys, command },
    }
}

/// Why the counter of an authentic command isn't used up.
fn refusal_of(own: &KeysetFacts, stored: Counter, command: &Command) -> Option<u8>
    ensures { result ≡ refusal_of own.now stored command.now }
{
    if is_below_level(own, command.spi) {
        return Some(0x0A);
    }
    if stored.0 == LAST_COUNTER {
        return Some(0x04);
    }
    if command.counter.0 <= stored.0 {
        return Some(0x02);
    }
    if is_next(command.spi.mode) && command.counter.0 > stored.0 + 1 {
        return Some(0x03);
    }
    None
}

/// Whether a packet is less secure than its keyset asks.
fn is_below_level(own: &KeysetFacts, spi: Spi) -> bool
    ensures { result ≡ is_below_level own.now spi }
{
    (own.ciphered && !spi.ciphered) || (is_next(own.mode) && !is_next(spi.mode))
}

fn is_next(mode: Mode) -> bool
    ensures { result ≡ is_next mode }
{
    match mode {
        Mode::Higher => false,
        Mode::Next => true,
    }
}

/// 06: unidentified security error.
fn unidentified(packet: &[u8]) -> Verdict
    ensures { result ≡ unidentified packet.now }
{
    Verdict::Unsecured {
        status: 0x06,
        tar: tar_in(packet),
        counter: Counter(0),
    }
}
