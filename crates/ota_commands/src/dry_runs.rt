//! The dry run of a script on a new card.

ghost use Rattle.std.specs.Prelude.{◌≡◌, true, false, Some, IfOk, IfErr, IsTrue, map, string_bytes};
ghost use Rattle.ota_commands.specs.DryRuns.{response_text, EndsBy, HasEachCause, IsRefusedScript, Responds, Writes};
ghost use Rattle.ota_commands.specs.Fault.{status_of_end};
ghost use Rattle.ota_commands.specs.Trials.{is_expanded, is_tried, trial_of};
ghost use Rattle.ota_commands.specs.Writing.{IsWritten, WriteCause};
ghost use Rattle.ota_commands.specs.declared.faults.Fault.TheVariants as faults;
ghost use Rattle.expanded_scripts.specs.declared.reading.TemplateErr.TheVariants as template_err;

use crate::faults::Fault;
use crate::plain::status_of_end;
use crate::trials::{Trial, is_expanded, read_trial};
use crate::writing::{Written, answer_of, write_text};
use apdu_codec::compact_response;
use expanded_scripts::{TemplateErr, read_template, run_expanded};
use ota_core::{Memory, Octets};
use ota_io::Sink;
use script_engine::CardState;
use std::alloc::Global;

/// How a command ended that has no sites.
#[derive(Debug, Drop)]
pub struct Drilled {
    /// The exit status: 0, or the fault's.
    pub status: u8,
    /// None exactly at status 0.
    pub fault: Option<Fault>,
}

/// Tries a script on a new card, and writes the response to it in hexadecimal digits, with the end of a line.
///
/// Its words are `try` with `--part rfm` or `ram` and `--script` with the script in hexadecimal digits. A script that begins
/// with AA is an expanded one (ETSI TS 102 226, 5.2.2), any other a compact one of 1 to 4,096 octets (5.2.1). Nothing of
/// the card is kept.
pub fn dry_run<K: Sink>(alloc: Global, words: &[String], out: &mut K) -> Drilled
    ensures status { result.status ≡ status_of_end result.fault }
    ensures text { IsTrue (K.tells out.old) → Writes (trial_of (map string_bytes words.now)) (K.written out.old) (K.written out.new) result.fault }
    ensures count { (result.fault ≡ Some faults.SinkFault → ⊥) → K.faults out.new ≡ K.faults out.old }
    ensures cause { EndsBy (trial_of (map string_bytes words.now)) (K.faults out.old) (K.faults out.new) result.fault }
    ensures complete { HasEachCause (trial_of (map string_bytes words.now)) (K.faults out.old) (K.faults out.new) result.fault }
{
    let fault = run_words(alloc, words, out);
    let status = status_of_end(&fault);
    Drilled { status, fault }
}

/// Tries the script that the words ask for, and writes the response.
fn run_words<K: Sink>(alloc: Global, words: &[String], out: &mut K) -> Option<Fault>
    ensures text { IsTrue (K.tells out.old) → Writes (trial_of (map string_bytes words.now)) (K.written out.old) (K.written out.new) result }
    ensures count { (result ≡ Some faults.SinkFault → ⊥) → K.faults out.new ≡ K.faults out.old }
    ensures cause { EndsBy (trial_of (map string_bytes words.now)) (K.faults out.old) (K.faults out.new) result }
{
    match read_trial(alloc, words) {
        Ok(Some(trial)) => run_trial(alloc, &trial, out),
        Ok(None) => Some(Fault::Usage),
        Err(_) => Some(Fault::Memory),
    }
}

/// Tries a script, and writes the response.
fn run_trial<K: Sink>(alloc: Global, trial: &Trial, out: &mut K) -> Option<Fault>
    requires { is_tried trial.now.script ≡ true }
    ensures text { IsTrue (K.tells out.old) → Writes (Some trial.now) (K.written out.old) (K.written out.new) result }
    ensures count { (result ≡ Some faults.SinkFault → ⊥) → K.faults out.new ≡ K.faults out.old }
    ensures cause { EndsBy (Some trial.now) (K.faults out.old) (K.faults out.new) result }
{
    match response_to(alloc, trial) {
        Ok(response) => {
            let written = write_response(alloc, out, response.as_slice());
            answer_of(written, None)
        }
        Err(TemplateErr::Memory) => Some(Fault::Memory),
        Err(error) => Some(Fault::ScriptRefused(error)),
    }
}

/// A new card's response to a script.
fn response_to(alloc: Global, trial: &Trial) -> Result<Octets, TemplateErr>
    requires { is_tried trial.now.script ≡ true }
    ensures response { IfOk result (Responds trial.now) }
    ensures refused { IfErr result (λ error. (error ≡ template_err.Memory → ⊥) → IsRefusedScript trial.now error) }
{
    if is_expanded(trial.script.as_slice()) {
        expanded_response(alloc, trial)
    } else {
        match compact_response_to(alloc, trial) {
            Ok(response) => Ok(response),
            Err(_) => Err(TemplateErr::Memory),
        }
    }
}

/// A new card's response to an expanded script.
fn expanded_response(alloc: Global, trial: &Trial) -> Result<Octets, TemplateErr>
    requires { is_expanded trial.now.script ≡ true }
    ensures response { IfOk result (Responds trial.now) }
    ensures refused { IfErr result (λ error. (error ≡ template_err.Memory → ⊥) → IsRefusedScript trial.now error) }
{
    let script = read_template(alloc, trial.script.as_slice())?;
    let mut card = CardState::fresh(alloc)?;
    let response = run_expanded(&mut card, trial.part, &script)?;
    Ok(response)
}

/// A new card's response to a compact script.
fn compact_response_to(alloc: Global, trial: &Trial) -> Result<Octets, Memory>
    requires tried { is_tried trial.now.script ≡ true }
    requires compact { is_expanded trial.now.script ≡ false }
    ensures { IfOk result (Responds trial.now) }
{
    let mut card = CardState::fresh(alloc)?;
    let ran = card.run_script(trial.part, trial.script.as_slice())?;
    let response = compact_response(ran.count, ran.reply.sw, ran.reply.out.as_slice());
    Octets::from_slice(alloc, response.as_slice())
}

/// Writes a response in hexadecimal digits, with the end of a line.
fn write_response<K: Sink>(alloc: Global, out: &mut K, response: &[u8]) -> Written
    ensures text { IsTrue (K.tells out.old) → IsWritten (response_text response.now) (K.written out.old) (K.written out.new) result }
    ensures cause { WriteCause (K.faults out.old) (K.faults out.new) result }
{
    match response_text(alloc, response) {
        Err(_) => Written::Nothing,
        Ok(text) => write_text(out, &text),
    }
}

#[tactic(auto, unfolding(crate::specs::DryRuns::response_text))]
fn response_text(alloc: Global, response: &[u8]) -> Result<String, Memory>
    ensures { IfOk result (λ text. string_bytes text ≡ response_text response.now) }
{
    let mut text = hex::encode(alloc, response)?;
    text.push('\n')?;
    Ok(text)
}

#[cfg(test)]
mod tests;
