//! What a store keeps in memory of a card.

ghost use Rattle.std.specs.Prelude.{find, nat_lt, if◌then◌else◌, reverse, ◌≡◌, ◌≤◌, ◌<◌, ◌^◌, ◌-◌, true, false, is_some, is_none, IfOk, IfSome, OnOk, OnErr, Some, None, length, option_copied, option_map, List};
ghost use Rattle.apdu_codec.specs.Reply.{answered};
ghost use Rattle.apdu_codec.specs.Script.{IsBehind};
ghost use Rattle.script_engine.specs.Step.{script_step};
ghost use Rattle.card_store.specs.Content.{Content, issued, keyset_named, keyset_of, may_store, stored, took, left_of, with_last};
ghost use Rattle.card_store.specs.Kept.{IsLastWithin, IsRunning, IsTaken, IsStepTaken, HasAdvanced, begun_with, card_begun, one_more, keyset_if, is_line_of};
ghost use Rattle.card_store.specs.Parts.StorePart.{UsesCounter, RunsCommand};
ghost use Rattle.card_store.specs.PartsRead.{said_by};
ghost use Rattle.ota_core.specs.declared.cards.CardFacts.{CardFacts};
ghost use Rattle.card_store.specs.Store.{Shown, Shows};

use crate::card_lines::CardLine;
use crate::issued_facts::IssuedFacts;
use crate::parts::{CounterPart, ReadPart, part_in};
use crate::scripts::Script;
use ota_core::{CardId, Counter, KeysetFacts, KeysetId, Memory, Octets, Tar};
use script_engine::{CardState, Part, Step};
use std::alloc::Global;
use std::marker::Model;

/// What a store keeps in memory of a card: its lines, its files and registry, and the script of which a command is left.
#[derive(Drop)]
pub struct Kept {
    lines: Vec<CardLine>,
    card: CardState,
    script: Option<Script>,
}

impl Model for Kept {
    ghost use Rattle.card_store.specs.Kept.{IsRunning};
    ghost use Rattle.card_store.specs.Store.{Shown, shown_code};
    ghost use Rattle.card_store.specs.contracts.card_lines.CardLine as the_line;
    ghost use Rattle.card_store.specs.contracts.scripts.Script as the_script;
    ghost use Rattle.script_engine.specs.contracts.card.CardState as the_card;

    ghost Value = { Shown };

    ghost coded = { shown_code the_line.the_row.coded the_card.the_row.coded the_script.the_row.coded };

    ghost view = { λ k. record { lines = k.lines.items; card = k.card; script = k.script } };

    ghost invariant = { λ k. IsRunning k.lines.items k.script };
}

impl Kept {
    /// The card as it was issued.
    pub fn issued(alloc: Global, facts: &IssuedFacts) -> Result<Kept, Memory>
        ensures { IfOk result (Shows (issued facts.now)) }
    {
        let kvns = facts.kvns(alloc)?;
        let card = CardState::issued(alloc, &kvns)?;
        Ok(Kept {
            lines: Vec::new(alloc),
            card,
            script: None,
        })
    }

    pub fn lines(&self) -> &[CardLine]
        ensures { result.now ≡ self.now.lines }
    {
        self.lines.as_slice()
    }

    pub fn card(&self) -> &CardState
        ensures { result.now ≡ self.now.card }
    {
        &self.card
    }

    /// Whether a command of the script that was stored last is left.
    pub fn has_command(&self) -> bool
        ensures left { result ≡ is_some self.now.script }
        ensures begins { IfSome self.now.script (λ script. script.next < length script.body) }
    {
        self.script.is_some()
    }

    /// The facts of the keyset with this key version number: one with which the card was issued, or one that was put.
    pub fn keyset<'a>(&'a self, facts: &'a IssuedFacts, kvn: u8) -> Option<&'a KeysetFacts>
        ensures keyset { option_copied result ≡ keyset_of facts.now self.now.card kvn }
        ensures range { is_some (keyset_of facts.now self.now.card kvn) ≡ true → (1 ≤ kvn) × (kvn ≤ 15) }
    {
        match facts.keyset(kvn) {
            Some(keyset) => Some(keyset),
            None => self.card.put_keyset(kvn),
        }
    }

    /// The keyset with this key version number, where the card has it.
    pub fn named(&self, facts: &IssuedFacts, kvn: u8) -> Option<KeysetId>
        ensures { result ≡ keyset_if facts.now self.now.card kvn }
    {
        match self.keyset(facts, kvn) {
            Some(_) => Some(KeysetId {
                card: facts.card(),
                kvn,
            }),
            None => None,
        }
    }

    /// The counter that is stored for the keyset with this key version number.
    pub fn counter(&self, facts: &IssuedFacts, kvn: u8) -> Counter
        ensures { (content : Content) → Shows content self.now → result ≡ stored facts.now content kvn }
    {
        match last_line(&self.lines, facts.card(), kvn) {
            Some(line) => line.counter,
            None => facts.base(kvn),
        }
    }

    /// Takes a counter of a keyset of the card, with its TAR and its script.
    pub fn store_counter(
        &mut self,
        alloc: Global,
        facts: &IssuedFacts,
        keyset: KeysetId,
        counter: Counter,
        tar: Tar,
        body: &[u8],
    ) -> Result<(), Memory>
        requires { keyset.card ≡ facts.now.card }
        ensures stored { (content : Content) → Shows content self.old → OnOk result (Shows (took facts.now content keyset.kvn counter tar body.now 0) self.new) }
        ensures err { OnErr result (self.new ≡ self.old) }
    {
        let part = facts.script_part(tar, body);
        let script = begun(alloc, part, body)?;
        self.lines.push(CardLine {
            keyset,
            counter,
            executed: 0,
            finished: script.is_none(),
            status: facts.status(tar, body),
        })?;
        begin(&mut self.card, part);
        self.script = script;
        Ok(())
    }

    /// Runs the next command of the script.
    pub fn run_command(&mut self) -> Result<Step, Memory>
        requires { is_some self.old.script ≡ true }
        ensures ran { (content : Content) → Shows content self.old → IfOk result (λ _. HasAdvanced content self.new) }
        ensures step { (script : Script) → self.old.script ≡ Some script → IfOk result (λ step. (answered self.new.card step.reply, step.next) ≡ script_step self.old.card script.part script.body script.next) }
        ensures behind { (script : Script) → self.old.script ≡ Some script → IfOk result (λ step. (IfSome step.next (IsBehind script.body script.next)) × (self.new.script ≡ left_of script.part script.body step.next)) }
        ensures short { IfOk result (λ step. length step.reply.out.items ≤ 256) }
        ensures err { OnErr result (self.new ≡ self.old) }
    {
        let script = self.script.take().unwrap();
        match self
            .card
            .run_one(script.part, script.body.as_slice(), script.next)
        {
            Ok(step) => {
                add_command(&mut self.lines, step.next.is_none());
                self.script = gone_on(script, step.next);
                Ok(step)
            }
            Err(want) => {
                self.script = Some(script);
                Err(want)
            }
        }
    }

    /// Does what the next part of the store says. False where the part is bad, and then nothing is changed.
    pub fn take_part(
        &mut self,
        alloc: Global,
        facts: &IssuedFacts,
        part: &[u8],
    ) -> Result<bool, Memory>
        ensures { (content : Content) → Shows content self.old → IfOk result (λ taken. IsTaken facts.now content part.now taken self.new) }
    {
        match part_in(part) {
            None => Ok(false),
            Some(read) => self.take_read(alloc, facts, &read),
        }
    }

    /// Does what was read of a part. False where it can't follow, and then nothing is changed.
    fn take_read(
        &mut self,
        alloc: Global,
        facts: &IssuedFacts,
        read: &ReadPart,
    ) -> Result<bool, Memory>
        ensures { (content : Content) → Shows content self.old → IfOk result (λ taken. IsStepTaken facts.now content (said_by read.now) taken self.new) }
    {
        match read {
            ReadPart::Counter(part) => self.take_counter(alloc, facts, part),
            ReadPart::Command => self.take_command(),
        }
    }

    /// The keyset with this key version number, where the card has it and the counter is higher than the one that is stored.
    fn keyset_for(&self, facts: &IssuedFacts, kvn: u8, counter: Counter) -> Option<KeysetId>
        ensures keyset { (content : Content) → Shows content self.now → result ≡ (if may_store facts.now content kvn counter then Some (keyset_named facts.now kvn) else None) }
        ensures card { IfSome result (λ keyset. keyset.card ≡ facts.now.card) }
    {
        let stored = self.counter(facts, kvn);
        if !is_higher(counter, stored) {
            return None;
        }
        self.named(facts, kvn)
    }

    /// Takes a counter, where the card has its keyset and it is higher than the one that is stored.
    fn take_counter(
        &mut self,
        alloc: Global,
        facts: &IssuedFacts,
        part: &CounterPart,
    ) -> Result<bool, Memory>
        ensures { (content : Content) → Shows content self.old → IfOk result (λ taken. IsStepTaken facts.now content (UsesCounter part.now.kvn part.now.counter part.now.tar part.now.body.now) taken self.new) }
    {
        match self.keyset_for(facts, part.kvn, part.counter) {
            None => Ok(false),
            Some(keyset) => {
                self.store_counter(alloc, facts, keyset, part.counter, part.tar, part.body)?;
                Ok(true)
            }
        }
    }

    /// Runs the next command, where one is left.
    fn take_command(&mut self) -> Result<bool, Memory>
        ensures { (facts : CardFacts) (content : Content) → Shows content self.old → IfOk result (λ taken. IsStepTaken facts content RunsCommand taken self.new) }
    {
        if !self.has_command() {
            return Ok(false);
        }
        self.run_command()?;
        Ok(true)
    }
}

fn is_higher(counter: Counter, stored: Counter) -> bool
    ensures { result ≡ nat_lt stored counter }
{
    stored.0 < counter.0
}

/// The script at its begin; none, where it isn't run or has no octets.
fn begun(alloc: Global, part: Option<Part>, body: &[u8]) -> Result<Option<Script>, Memory>
    requires { is_some part ≡ true → length body.now < 2 ^ 32 }
    ensures script { IfOk result (λ script. script ≡ begun_with part body.now) }
    ensures begins { IfOk result (λ script. IfSome script (λ s. (s.next ≡ 0) × (0 < length s.body) × (length s.body < 2 ^ 32))) }
{
    match part {
        Some(part) => {
            if body.is_empty() {
                return Ok(None);
            }
            Ok(Some(Script {
                part,
                body: Octets::from_slice(alloc, body)?,
                next: 0,
            }))
        }
        None => Ok(None),
    }
}

/// Begins a script of this part, where it is run.
fn begin(card: &mut CardState, part: Option<Part>)
    ensures { card.new ≡ card_begun part card.old }
{
    if part.is_some() {
        card.begin_script();
    }
}

/// The script where it goes on at this place, if it does.
fn gone_on(script: Script, next: Option<u32>) -> Option<Script>
    ensures { result ≡ left_of script.part script.body next }
{
    match next {
        Some(next) => Some(Script {
            part: script.part,
            body: script.body,
            next,
        }),
        None => None,
    }
}

/// The last line has one command more.
fn add_command(lines: &mut Vec<CardLine>, ended: bool)
    requires { IsLastWithin (2 ^ 32 - 2) lines.old.items }
    ensures { lines.new.items ≡ with_last (one_more ended) lines.old.items }
{
    let at = lines.len() - 1;
    let line = &mut lines[at];
    line.executed += 1;
    line.finished = ended;
}

/// The last line of the keyset with this key version number.
fn last_line(lines: &[CardLine], card: CardId, kvn: u8) -> Option<&CardLine>
    ensures { option_copied result ≡ find (is_line_of (record { card = card; kvn = kvn })) (reverse lines.now) }
{
    lines.iter().rev().find(|line| line.keyset.card.0 == card.0 && line.keyset.kvn == kvn)
}
