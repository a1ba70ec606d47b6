//! What a card does with a packet.

ghost use Rattle.std.specs.Prelude.{◌≡◌, ◌==◌, IfOk, OnErr, IsTrue, None, find};
ghost use Rattle.std.specs.Option.{option_copied};
ghost use Rattle.std.specs.Str.{bytes_eq};
ghost use Rattle.world_core.specs.Card.{facts_under, line_status};
ghost use Rattle.world_core.specs.Receiving.{is_next, is_other_key, is_below_level, status_under, status_with, is_taken, is_line_outcome, may_make, put_facts, is_answer_unissued, may_make_with, may_step, line_of, is_secured, answer_of};
ghost use Rattle.world_core.specs.Condition.{step_wants_memory};

use crate::answers::Made;
use crate::card_steps::CardStep;
use crate::cards::{Card, stored_counter};
use crate::lines::Line;
use crate::packets::ReservedPacket;
use ota_core::{CardFacts, CardId, Counter, KeyBytes, KeysetFacts, Memory, Mode, Octets, Tar};
use std::alloc::Global;

/// The counter behind which a keyset takes no packet.
const SPENT: u64 = 0xFF_FFFF_FFFF;

/// Whether the card may make the step with the packet. A keyset that it wasn't issued with may have been put on it.
pub(crate) fn may_step(card: &Card, packet: &ReservedPacket<'_>, step: &CardStep) -> bool
    ensures { result ≡ may_step card.now packet.now step.now }
{
    match facts_under(card.facts().keysets.as_slice(), packet.keyset.kvn) {
        Some(own) => may_make(status_with(card, packet, &own), step),
        None => may_make_unissued(card, packet, step),
    }
}

fn may_make_unissued(card: &Card, packet: &ReservedPacket<'_>, step: &CardStep) -> bool
    ensures { result ≡ may_make_with card.now packet.now step.now None }
{
    is_answer_unissued(step)
        || may_make(status_with(card, packet, &put_facts(&packet.opened)), step)
}

fn is_answer_unissued(step: &CardStep) -> bool
    ensures { result ≡ is_answer_unissued step.now }
{
    match step {
        CardStep::Answered(status) => *status == 0x06 || *status == 0x01 || *status == 0x0A,
        _ => false,
    }
}

/// The facts of a keyset that was put, where it was opened with these.
fn put_facts(opened: &KeysetFacts) -> KeysetFacts
    ensures { result ≡ put_facts opened.now }
{
    KeysetFacts {
        base: Counter(0),
        mode: opened.mode,
        ciphered: opened.ciphered,
        kic: opened.kic,
        kid: opened.kid,
    }
}

/// The status that a card with these facts of the packet's keyset gives the packet.
fn status_with(card: &Card, packet: &ReservedPacket<'_>, own: &KeysetFacts) -> u8
    ensures { result ≡ status_with card.now packet.now own.now }
{
    let stored = stored_counter(card.log(), packet.keyset, own.base);
    status_under(card.facts(), own, stored, packet)
}

fn facts_under(keysets: &[(u8, KeysetFacts)], kvn: u8) -> Option<KeysetFacts>
    ensures { result ≡ facts_under kvn keysets.now }
{
    match find_keyset(keysets, kvn) {
        Some(keyset) => Some(keyset.1),
        None => None,
    }
}

fn find_keyset(keysets: &[(u8, KeysetFacts)], kvn: u8) -> Option<&(u8, KeysetFacts)>
    ensures { option_copied result ≡ find (λ keyset. keyset.0 == kvn) keysets.now }
{
    keysets.iter().find(|keyset| keyset.0 == kvn)
}

fn status_under(
    facts: &CardFacts,
    own: &KeysetFacts,
    stored: Counter,
    packet: &ReservedPacket<'_>,
) -> u8
    ensures { result ≡ status_under facts.now own.now stored packet.now }
{
    if is_other_key(own, &packet.opened) {
        return 0x01;
    }
    if is_below_level(own, &packet.opened) {
        return 0x0A;
    }
    if stored.0 == SPENT {
        return 0x04;
    }
    if packet.counter.0 <= stored.0 {
        return 0x02;
    }
    if is_next(packet.opened.mode) && stored.0 + 1 < packet.counter.0 {
        return 0x03;
    }
    line_status(facts, packet.tar, packet.body)
}

fn is_next(mode: Mode) -> bool
    ensures { result ≡ is_next mode }
{
    match mode {
        Mode::Higher => false,
        Mode::Next => true,
    }
}

fn is_same_key(a: &KeyBytes, b: &KeyBytes) -> bool
    ensures { result ≡ bytes_eq a.now b.now }
{
    a.as_slice() == b.as_slice()
}

fn is_same_tar(a: Tar, b: Tar) -> bool
    ensures { result ≡ bytes_eq a b }
{
    a.0 == b.0
}

fn is_other_key(own: &KeysetFacts, opened: &KeysetFacts) -> bool
    ensures { result ≡ is_other_key own.now opened.now }
{
    !is_same_key(&own.kid, &opened.kid) || (opened.ciphered && !is_same_key(&own.kic, &opened.kic))
}

fn is_below_level(own: &KeysetFacts, opened: &KeysetFacts) -> bool
    ensures { result ≡ is_below_level own.now opened.now }
{
    (own.ciphered && !opened.ciphered) || (is_next(own.mode) && !is_next(opened.mode))
}

fn line_status(facts: &CardFacts, tar: Tar, body: &Octets) -> u8
    ensures { result ≡ line_status facts.now tar body.now }
{
    if !(is_same_tar(tar, facts.rfm) || is_same_tar(tar, facts.ram)) {
        return 0x09;
    }
    if body.as_slice().len() <= facts.buffer as usize {
        return 0x00;
    }
    0x07
}

/// Whether the step is one that a card may make with a packet that it gives this status.
fn may_make(status: u8, step: &CardStep) -> bool
    ensures { result ≡ may_make status step.now }
{
    match step {
        CardStep::Drop => true,
        CardStep::Answered(answered) => *answered == status && !is_taken(status),
        CardStep::CutBeforeCounter => is_taken(status),
        CardStep::Took {
            executed,
            finished,
            status: took,
            answer,
            answered,
        } => {
            *took == status
                && is_taken(status)
                && is_line_outcome(status, *executed, *finished, answer, *answered)
        }
    }
}

fn is_taken(status: u8) -> bool
    ensures { result ≡ is_taken status }
{
    status == 0x00 || status == 0x07 || status == 0x09
}

fn is_line_outcome(
    status: u8,
    executed: u32,
    finished: bool,
    answer: &Octets,
    answered: bool,
) -> bool
    ensures { result ≡ is_line_outcome status executed finished answer.now answered }
{
    if status == 0x00 {
        finished || (!answered && answer.as_slice().is_empty())
    } else {
        executed == 0 && finished && answer.as_slice().is_empty()
    }
}

/// The line that the step adds to the card's log.
pub(crate) fn line_of(packet: &ReservedPacket<'_>, step: &CardStep) -> Result<Option<Line>, Memory>
    ensures line { IfOk result (λ line. line ≡ line_of packet.now step.now) }
    ensures wanted { OnErr result (IsTrue (step_wants_memory step.now)) }
{
    match step {
        CardStep::Took {
            executed,
            finished,
            status,
            answer,
            ..
        } => {
            let body = packet.body.copy()?;
            let answer = answer.copy()?;
            Ok(Some(Line {
                keyset: packet.keyset,
                counter: packet.counter,
                tar: packet.tar,
                body,
                executed: *executed,
                finished: *finished,
                status: *status,
                answer,
            }))
        }
        _ => Ok(None),
    }
}

/// The secured answer that the step makes.
pub(crate) fn answer_of(
    alloc: Global,
    card: CardId,
    packet: &ReservedPacket<'_>,
    step: &CardStep,
) -> Result<Option<Made>, Memory>
    ensures answer { IfOk result (λ answer. answer ≡ answer_of card packet.now step.now) }
    ensures wanted { OnErr result (IsTrue (step_wants_memory step.now)) }
{
    match step {
        CardStep::Answered(status) if is_secured(*status) => {
            let answer = Octets::from_slice(alloc, &[])?;
            Ok(Some(made(card, packet, *status, answer)))
        }
        CardStep::Took {
            status,
            answer,
            answered,
            ..
        } if *answered => {
            let answer = answer.copy()?;
            Ok(Some(made(card, packet, *status, answer)))
        }
        _ => Ok(None),
    }
}

fn is_secured(status: u8) -> bool
    ensures { result ≡ is_secured status }
{
    status != 0x01 && status != 0x06
}

fn made(card: CardId, packet: &ReservedPacket<'_>, status: u8, answer: Octets) -> Made
    ensures { result ≡ record { card = card; keyset = packet.now.keyset; counter = packet.now.counter; status = status; answer = answer } }
{
    Made {
        card,
        keyset: packet.keyset,
        counter: packet.counter,
        status,
        answer,
    }
}
