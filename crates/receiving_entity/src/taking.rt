//! What a card does with a packet that became whole.

ghost use Rattle.std.specs.Prelude.{◌≡◌, ◌≢◌, ◌≤◌, ◌<◌, [], true, length, is_some, false, Ok, IfOk, IfErr, OnOk};
ghost use Rattle.apdu_codec.specs.Compact.{compact_response_of};
ghost use Rattle.card_store.specs.Content.{Content};
ghost use Rattle.card_store.specs.Store.{HasRoom, StandsFor};
ghost use Rattle.disk_model.specs.Disk.{DiskRun, Tells};
ghost use Rattle.receiving_entity.specs.Answer.{octets_of};
ghost use Rattle.receiving_entity.specs.Receiving.{CardCause, HasCalled, IsNotOff, IsOnTheWay, Reacts, octets_in, reaction_to};
ghost use Rattle.receiving_entity.specs.Receiving.Reaction.{TakesCommand};
ghost use Rattle.receiving_entity.specs.Running.{HasFinished, HasHalted, HoldsSome, IsWantOrCut, last_status_of, response_to};
ghost use Rattle.receiving_entity.specs.Stops.{answer_of, is_off_after};
ghost use Rattle.receiving_entity.specs.Taking.{IfTakes, IsStorable, taken};
ghost use Rattle.receiving_entity.specs.Verdict.{verdict};
ghost use Rattle.receiving_entity.specs.declared.card_errors.CardErr.TheVariants as card_err;
ghost use Rattle.receiving_entity.specs.declared.stops.Stop.TheVariants.{Dropped};

use crate::answers::{Message, secured, unsecured};
use crate::card_errors::CardErr;
use crate::running::run_script;
use crate::stops::{Stop, stop_by};
use crate::verdicts::{Verdict, judge};
use aes_modes::Keys;
use apdu_codec::compact_response;
use arrayvec::ArrayVec;
use card_store::{CardLine, CardStore};
use command_packet::Command;
use disk_model::DiskCalls;
use ota_core::Memory;
use script_engine::Ran;
use std::alloc::Global;

/// Answers a packet, and takes its command where no rule refuses it.
pub fn react<D: DiskCalls>(
    alloc: Global,
    store: &mut CardStore<D>,
    packet: &[u8],
) -> Result<Vec<Message>, Stop>
    requires ready { store.old.ready ≡ true }
    requires short { length packet.now ≤ 34168 }
    ensures reacts { (content : Content) → StandsFor D.told store.old content → Reacts D.told store.old store.new content (reaction_to (verdict store.old.facts content packet.now)) (is_off_after result) (octets_in (answer_of result)) }
    ensures moments { Tells D.told store.old.disk → (content : Content) → StandsFor D.told store.old content → DiskRun D.told store.old.disk store.new.disk (IsOnTheWay store.old.facts content (reaction_to (verdict store.old.facts content packet.now))) }
    ensures begun { Tells D.told store.old.disk → (content : Content) → StandsFor D.told store.old content → is_off_after result ≡ true → HasCalled (D.told.clock store.old.disk) (D.told.clock store.new.disk) (D.counts store.old.disk) (D.counts store.new.disk) }
    ensures on { is_off_after result ≡ false → store.new.ready ≡ true }
    ensures facts { store.new.facts ≡ store.old.facts }
    ensures tells { D.told.tells store.new.disk ≡ D.told.tells store.old.disk }
    ensures cause { CardCause (D.counts store.old.disk) (D.counts store.new.disk) (answer_of result) }
    ensures not_off { IfErr (answer_of result) IsNotOff }
{
    match judge(alloc, store, packet) {
        Ok(found) => react_to(alloc, store, &found),
        Err(_) => Err(Stop::Dropped(CardErr::Memory)),
    }
}

/// Does what was found.
fn react_to<D: DiskCalls>(
    alloc: Global,
    store: &mut CardStore<D>,
    found: &Verdict,
) -> Result<Vec<Message>, Stop>
    requires ready { store.old.ready ≡ true }
    requires takes { IfTakes found.now (IsStorable store.old) }
    ensures reacts { (content : Content) → StandsFor D.told store.old content → Reacts D.told store.old store.new content (reaction_to found.now) (is_off_after result) (octets_in (answer_of result)) }
    ensures moments { Tells D.told store.old.disk → (content : Content) → StandsFor D.told store.old content → DiskRun D.told store.old.disk store.new.disk (IsOnTheWay store.old.facts content (reaction_to found.now)) }
    ensures begun { Tells D.told store.old.disk → (content : Content) → StandsFor D.told store.old content → is_off_after result ≡ true → HasCalled (D.told.clock store.old.disk) (D.told.clock store.new.disk) (D.counts store.old.disk) (D.counts store.new.disk) }
    ensures on { is_off_after result ≡ false → store.new.ready ≡ true }
    ensures facts { store.new.facts ≡ store.old.facts }
    ensures tells { D.told.tells store.new.disk ≡ D.told.tells store.old.disk }
    ensures cause { CardCause (D.counts store.old.disk) (D.counts store.new.disk) (answer_of result) }
    ensures not_off { IfErr (answer_of result) IsNotOff }
{
    match found {
        Verdict::Unsecured {
            status,
            tar,
            counter,
        } => unless_wanting(unsecured(alloc, *status, *tar, *counter)),
        Verdict::Refused {
            keys,
            command,
            status,
        } => unless_wanting(secured(alloc, keys, command, *status, &[])),
        Verdict::Takes { keys, command } => take(alloc, store, keys, command),
    }
}

/// An answer that changes nothing.
fn unless_wanting(answer: Result<Vec<Message>, Memory>) -> Result<Vec<Message>, Stop>
    ensures ok { IfOk result (λ messages. answer ≡ Ok messages) }
    ensures err { IfErr result (λ stop. stop ≡ Dropped card_err.Memory) }
    ensures on { is_off_after result ≡ false }
{
    match answer {
        Ok(messages) => Ok(messages),
        Err(_) => Err(Stop::Dropped(CardErr::Memory)),
    }
}

/// Uses the counter of a command up, runs its script, and answers.
fn take<D: DiskCalls>(
    alloc: Global,
    store: &mut CardStore<D>,
    keys: &Keys,
    command: &Command,
) -> Result<Vec<Message>, Stop>
    requires ready { store.old.ready ≡ true }
    requires storable { IsStorable store.old command.now }
    ensures reacts { (content : Content) → StandsFor D.told store.old content → Reacts D.told store.old store.new content (TakesCommand keys.now command.now) (is_off_after result) (octets_in (answer_of result)) }
    ensures moments { Tells D.told store.old.disk → (content : Content) → StandsFor D.told store.old content → DiskRun D.told store.old.disk store.new.disk (IsOnTheWay store.old.facts content (TakesCommand keys.now command.now)) }
    ensures begun { Tells D.told store.old.disk → (content : Content) → StandsFor D.told store.old content → is_off_after result ≡ true → HasCalled (D.told.clock store.old.disk) (D.told.clock store.new.disk) (D.counts store.old.disk) (D.counts store.new.disk) }
    ensures on { is_off_after result ≡ false → store.new.ready ≡ true }
    ensures facts { store.new.facts ≡ store.old.facts }
    ensures tells { D.told.tells store.new.disk ≡ D.told.tells store.old.disk }
    ensures cause { CardCause (D.counts store.old.disk) (D.counts store.new.disk) (answer_of result) }
    ensures not_off { IfErr (answer_of result) IsNotOff }
{
    match store.store_counter(
        command.kvn,
        command.counter,
        command.tar,
        command.body.as_slice(),
    ) {
        Ok(()) => {}
        Err(error) => return Err(stop_by(error)),
    }
    match finish(alloc, store, keys, command) {
        Ok(messages) => Ok(messages),
        Err(error) => Err(Stop::Cut(error)),
    }
}

/// Runs the script of a command whose counter is stored, and answers.
fn finish<D: DiskCalls>(
    alloc: Global,
    store: &mut CardStore<D>,
    keys: &Keys,
    command: &Command,
) -> Result<Vec<Message>, CardErr>
    requires ready { store.old.ready ≡ true }
    requires room { HasRoom store.old }
    ensures finished { (content : Content) → StandsFor D.told store.old (taken store.old.facts content command.now 0) → IfOk result (λ messages. HasFinished D.told store.old store.new content command.now keys.now (octets_of messages.items)) }
    ensures halted { (content : Content) → StandsFor D.told store.old (taken store.old.facts content command.now 0) → IfErr result (HasHalted D.told store.old store.new content command.now) }
    ensures moments { Tells D.told store.old.disk → (content : Content) → StandsFor D.told store.old (taken store.old.facts content command.now 0) → DiskRun D.told store.old.disk store.new.disk (HoldsSome store.old content command.now) }
    ensures ready { OnOk result (store.new.ready ≡ true) }
    ensures facts { store.new.facts ≡ store.old.facts }
    ensures tells { D.told.tells store.new.disk ≡ D.told.tells store.old.disk }
    ensures cause { CardCause (D.counts store.old.disk) (D.counts store.new.disk) result }
    ensures err { IfErr result IsWantOrCut }
{
    let ran = run_script(store)?;
    let status = last_status(store.lines());
    let octets = response_to(status, &ran);
    match secured(alloc, keys, command, status, octets.as_slice()) {
        Ok(messages) => Ok(messages),
        Err(_) => Err(CardErr::Memory),
    }
}

/// The status of the last line.
fn last_status(lines: &[CardLine]) -> u8
    ensures { result ≡ last_status_of lines.now }
{
    match lines.last() {
        Some(line) => line.status,
        None => 0x00,
    }
}

/// The compact response of a script that was run; nothing where it wasn't.
fn response_to(status: u8, ran: &Ran) -> ArrayVec<u8, 259>
    requires { length ran.now.reply.out.items ≤ 256 }
    ensures { result.items ≡ response_to status ran.now }
{
    if status == 0x00 {
        compact_response(ran.count, ran.reply.sw, ran.reply.out.as_slice())
    } else {
        ArrayVec::new()
    }
}
