//! What a card holds, and scripts on it.

ghost use Rattle.std.specs.Prelude.{◌≡◌, ℕ, true, List, ◌+◌, ◌^◌, ◌<◌, ◌≤◌, ◌==◌, if◌then◌else◌, Some, None, length, option_copied, IfOk, IfSome, OnErr};
ghost use Rattle.apdu_codec.specs.Apdu.{data_len_of};
ghost use Rattle.apdu_codec.specs.Reply.{answered};
ghost use Rattle.apdu_codec.specs.Script.{HasCommands, IsBehind};
ghost use Rattle.script_engine.specs.AppletCommand.{applet_command_of};
ghost use Rattle.script_engine.specs.FileCommand.{file_command_of};
ghost use Rattle.script_engine.specs.Run.{runs};
ghost use Rattle.script_engine.specs.Step.{applet_step, command_step, data_of, file_step, goes_on, refusal_before, script_step, LeavesTheOther};
ghost use Rattle.script_engine.specs.Wants.{applet_wants, command_wants, file_wants, step_wants};

use crate::applet_command::{APPLET_CLASS, AppletCommand};
use crate::file_command::FileCommand;
use crate::part::Part;
use crate::ran::Ran;
use crate::step::Step;
use apdu_codec::{Apdu, DONE, Next, Refusal, Reply, next_apdu};
use applet_registry::Registry;
use arrayvec::ArrayVec;
use card_files::Files;
use ota_core::{KeysetFacts, Memory};
use std::alloc::Global;

/// What a card holds: its files with what is selected, and its registry of load files and applications.
#[derive(Drop)]
pub struct CardState {
    files: Files,
    registry: Registry,
}

impl CardState {
    ghost use Rattle.applet_registry.specs.Sound.{IsSound};
    ghost use Rattle.applet_registry.specs.State.{is_issued, put_of};
    ghost use Rattle.script_engine.specs.Run.{issued_card, fresh_card, with_mf_selected, HasRun, HasBegun};

    /// A new card, with the MF selected and nothing registered, which was issued with no keyset.
    pub fn fresh(alloc: Global) -> Result<CardState, Memory>
        ensures { IfOk result (λ card. card ≡ fresh_card) }
    {
        CardState::issued(alloc, &[])
    }

    /// A new card, with the MF selected and nothing registered, which was issued with keysets of these numbers.
    pub fn issued(alloc: Global, kvns: &[u8]) -> Result<CardState, Memory>
        ensures { IfOk result (λ card. card ≡ issued_card kvns.now) }
    {
        let files = Files::fresh(alloc)?;
        let registry = Registry::issued(alloc, kvns)?;
        Ok(CardState { files, registry })
    }

    /// The files.
    pub fn files(&self) -> &Files
        ensures { result.now ≡ self.now.files }
    {
        &self.files
    }

    /// The registry of load files and applications.
    pub fn registry(&self) -> &Registry
        ensures { result.now ≡ self.now.registry }
    {
        &self.registry
    }

    /// Whether the card was issued with a keyset of this number.
    pub fn is_issued(&self, kvn: u8) -> bool
        ensures issued { result ≡ is_issued self.now.registry kvn }
        ensures sound { IsSound self.now.registry }
    {
        self.registry.is_issued(kvn)
    }

    /// The keyset that PUT KEY has put with this number.
    pub fn put_keyset(&self, kvn: u8) -> Option<&KeysetFacts>
        ensures keyset { option_copied result ≡ put_of self.now.registry kvn }
        ensures sound { IsSound self.now.registry }
    {
        self.registry.put_keyset(kvn)
    }

    /// Begins a script: selects the MF, and no EF. A load under way goes on.
    pub fn begin_script(&mut self)
        ensures { self.new ≡ with_mf_selected self.old }
    {
        self.files.select_mf();
    }

    /// Runs the command at the place `at` of a script. A rest that is no whole command is answered 6700. Only CREATE FILE,
    /// and on the registry INSTALL, LOAD and PUT KEY, may want memory.
    ///
    /// ETSI TS 102 226, 5.2.1; that a script ends at the first status word other than 9000 is this card's
    /// own.
    pub fn run_one(&mut self, part: Part, script: &[u8], at: u32) -> Result<Step, Memory>
        requires within { at < length script.now }
        requires fits { length script.now < 2 ^ 32 }
        ensures step { IfOk result (λ step. (answered self.new step.reply, step.next) ≡ script_step self.old part script.now at) }
        ensures forward { IfOk result (λ step. IfSome step.next (λ next. (at < next) × (next < length script.now))) }
        ensures next { IfOk result (λ step. IfSome step.next (IsBehind script.now at)) }
        ensures short { IfOk result (λ step. length step.reply.out.items ≤ 256) }
        ensures apart { LeavesTheOther part self.old self.new }
        ensures err { OnErr result (self.new ≡ self.old) }
        ensures memory { OnErr result (step_wants part script.now at ≡ true) }
    {
        match next_apdu(script, at) {
            Next::Command(apdu, next) => {
                let last = next as usize == script.len();
                let octets = data_in(script, &apdu);
                let reply = self.run_command(part, &apdu, last, octets)?;
                let next = next_place(script, reply.sw, next);
                Ok(Step { reply, next })
            }
            _ => Ok(Step {
                reply: Reply::refused(Refusal::WrongLength),
                next: None,
            }),
        }
    }

    /// Runs a whole script, with the MF selected at its start. Where memory is wanting, the commands before
    /// that stand.
    ///
    /// ETSI TS 102 226, 5.2.1.
    pub fn run_script(&mut self, part: Part, script: &[u8]) -> Result<Ran, Memory>
        requires { length script.now < 2 ^ 32 }
        ensures ran { IfOk result (λ ran. HasRun self.old part script.now ran.count (answered self.new ran.reply)) }
        ensures within { IfOk result (λ ran. (count : ℕ) → HasCommands script.now 0 count → ran.count ≤ count) }
        ensures short { IfOk result (λ ran. length ran.reply.out.items ≤ 256) }
        ensures memory { OnErr result (HasBegun self.old part script.now self.new) }
        ensures apart { LeavesTheOther part (with_mf_selected self.old) self.new }
    {
        self.begin_script();
        let mut ran = Ran {
            count: 0,
            reply: Reply::done(ArrayVec::new()),
        };
        let mut next = first(script);
        loop {
            let at = match next {
                Some(at) => at,
                None => return Ok(ran),
            };
            let step = self.run_one(part, script, at)?;
            ran = Ran {
                count: ran.count + 1,
                reply: step.reply,
            };
            next = step.next;
        }
    }

    /// Runs a command of a part, which is the last one of its script or not.
    fn run_command(
        &mut self,
        part: Part,
        apdu: &Apdu,
        last: bool,
        octets: &[u8],
    ) -> Result<Reply, Memory>
        requires { length octets.now ≡ data_len_of apdu.now.ins apdu.now.p3 }
        ensures answer { IfOk result (λ reply. answered self.new reply ≡ command_step self.old part apdu.now last octets.now) }
        ensures apart { LeavesTheOther part self.old self.new }
        ensures err { OnErr result (self.new ≡ self.old) }
        ensures memory { OnErr result (command_wants part apdu.now ≡ true) }
    {
        match part {
            Part::Files => self.run_file_command(apdu, last, octets),
            Part::Applets => self.run_applet_command(apdu, last, octets),
        }
    }

    /// Runs a command on the files.
    fn run_file_command(&mut self, apdu: &Apdu, last: bool, octets: &[u8]) -> Result<Reply, Memory>
        requires { length octets.now ≡ data_len_of apdu.now.ins apdu.now.p3 }
        ensures answer { IfOk result (λ reply. answered self.new reply ≡ file_step self.old apdu.now last octets.now (file_command_of apdu.now.ins)) }
        ensures apart { self.new.registry ≡ self.old.registry }
        ensures err { OnErr result (self.new ≡ self.old) }
        ensures memory { OnErr result (file_wants (file_command_of apdu.now.ins) ≡ true) }
    {
        let command = match FileCommand::of(apdu.ins) {
            Some(command) => command,
            None => return Ok(Reply::refused(Refusal::UnknownInstruction)),
        };
        match refusal_before(apdu, last, command.class(), command.is_output()) {
            Some(refusal) => Ok(Reply::refused(refusal)),
            None => command.run(&mut self.files, apdu.p1, apdu.p2, apdu.p3, octets),
        }
    }

    /// Runs a command on the registry.
    fn run_applet_command(
        &mut self,
        apdu: &Apdu,
        last: bool,
        octets: &[u8],
    ) -> Result<Reply, Memory>
        requires { length octets.now ≡ data_len_of apdu.now.ins apdu.now.p3 }
        ensures answer { IfOk result (λ reply. answered self.new reply ≡ applet_step self.old apdu.now last octets.now (applet_command_of apdu.now.ins)) }
        ensures apart { self.new.files ≡ self.old.files }
        ensures err { OnErr result (self.new ≡ self.old) }
        ensures memory { OnErr result (applet_wants (applet_command_of apdu.now.ins) ≡ true) }
    {
        let command = match AppletCommand::of(apdu.ins) {
            Some(command) => command,
            None => return Ok(Reply::refused(Refusal::UnknownInstruction)),
        };
        match refusal_before(apdu, last, APPLET_CLASS, command.is_output()) {
            Some(refusal) => Ok(Reply::refused(refusal)),
            None => command.run(&mut self.registry, apdu.p1, apdu.p2, apdu.p3, octets),
        }
    }
}

/// A run ends within the number of the script's commands, whatever the card holds.
pub fn runs_end()
    ensures ended { (card : CardState) (part : Part) (script : List ℕ) (count : ℕ) → HasCommands script 0 count → (runs card part script count).next ≡ None }
    ensures few { (card : CardState) (part : Part) (script : List ℕ) (count n : ℕ) → HasCommands script 0 count → (runs card part script n).count ≤ count }
{}

/// Why a command is refused before what it tests itself: for its class, or as one that may stand only last
/// and doesn't.
fn refusal_before(apdu: &Apdu, last: bool, class: u8, is_output: bool) -> Option<Refusal>
    ensures { result ≡ refusal_before apdu.now last class is_output }
{
    if apdu.cla != class {
        return Some(Refusal::UnknownClass);
    }
    if is_output && !last {
        return Some(Refusal::ConditionsNotMet);
    }
    None
}

/// The data of a command.
fn data_in<'a>(script: &'a [u8], apdu: &Apdu) -> &'a [u8]
    requires { apdu.now.from + apdu.now.len ≤ length script.now }
    ensures value { result.now ≡ data_of script.now apdu.now }
    ensures len { length result.now ≡ apdu.now.len }
{
    let from = apdu.from as usize;
    &script[from..from + apdu.len as usize]
}

/// Where a script begins; none, where it has no octets.
fn first(script: &[u8]) -> Option<u32>
    ensures { result ≡ (if length script.now == 0 then None else Some 0) }
{
    if script.is_empty() { None } else { Some(0) }
}

/// Where a script goes on whose next command would begin at `next`.
fn next_place(script: &[u8], sw: u16, next: u32) -> Option<u32>
    requires { next ≤ length script.now }
    ensures value { result ≡ goes_on script.now sw next }
    ensures within { IfSome result (λ at. (at ≡ next) × (at < length script.now)) }
{
    if sw == DONE && (next as usize) < script.len() {
        Some(next)
    } else {
        None
    }
}

#[cfg(test)]
mod tests;
