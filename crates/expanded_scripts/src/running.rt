//! The run of expanded command scripts.

ghost use Rattle.std.specs.Prelude.{◌≡◌, ◌+◌, ◌*◌, ◌≤◌, min, [], ◌∷◌, ◌++◌, length, flat_map, IfOk, OnOk, OnErr};
ghost use Rattle.apdu_codec.specs.Reply.{answered};
ghost use Rattle.script_engine.specs.Run.{with_mf_selected};
ghost use Rattle.script_engine.specs.Step.{LeavesTheOther};
ghost use Rattle.expanded_scripts.specs.Answers.{answer_alone, answers, left_by, response_of, entry_of, HasBegun};
ghost use Rattle.expanded_scripts.specs.Template.{IsWhole};
ghost use Rattle.expanded_scripts.specs.Written.{element};
ghost use Rattle.script_engine.specs.declared.card.CardState.{CardState};

use crate::lengths::put_element;
use crate::scripts::Expanded;
use apdu_codec::{DONE, Reply};
use arrayvec::ArrayVec;
use ota_core::{Memory, Octets};
use script_engine::{CardState, Part};
use std::alloc::Global;

/// Runs an expanded command script on a part of a card, with the MF selected at its start, and gives the
/// response script: how many commands were executed, at most 255, and for each of them its data and its status
/// word. Each command runs as the only one of a compact script, on what the one before left. The run ends
/// behind the first status word other than 9000. Where memory is wanting, the commands before that stand.
///
/// ETSI TS 102 226, 5.2.2; that every executed command has an entry is this card's own.
pub fn run_expanded(state: &mut CardState, part: Part, script: &Expanded) -> Result<Octets, Memory>
    ensures response { IfOk result (λ response. response ≡ response_of (answers (with_mf_selected state.old) part script.now)) }
    ensures state { OnOk result (state.new ≡ left_by (with_mf_selected state.old) (answers (with_mf_selected state.old) part script.now)) }
    ensures memory { OnErr result (HasBegun (with_mf_selected state.old) part script.now state.new) }
    ensures apart { LeavesTheOther part (with_mf_selected state.old) state.new }
{
    state.begin_script();
    let mut entries = Vec::new(script.allocator());
    let executed = run_commands(state, part, script, &mut entries)?;
    response(script.allocator(), executed, entries.as_slice())
}

/// Runs the commands of a script, puts the entry of each at the end of `entries`, which is empty, and gives their
/// number.
fn run_commands(
    state: &mut CardState,
    part: Part,
    script: &Expanded,
    entries: &mut Vec<u8>,
) -> Result<u32, Memory>
    requires { entries.old.items ≡ [] }
    ensures count { IfOk result (λ executed. executed ≡ length (answers state.old part script.now)) }
    ensures entries { OnOk result (entries.new.items ≡ flat_map entry_of (answers state.old part script.now)) }
    ensures state { OnOk result (state.new ≡ left_by state.old (answers state.old part script.now)) }
    ensures few { OnOk result (length entries.new.items ≤ 262 * 4096) }
    ensures memory { OnErr result (HasBegun state.old part script.now state.new) }
    ensures apart { LeavesTheOther part state.old state.new }
{
    let mut executed = 0;
    for command in script.commands() {
        let reply = run_alone(state, part, command.as_slice())?;
        executed += 1;
        put_entry(entries, &reply)?;
        if reply.sw != DONE {
            return Ok(executed);
        }
    }
    Ok(executed)
}

/// Runs a whole command as the only one of a compact script, on what stands selected.
fn run_alone(state: &mut CardState, part: Part, command: &[u8]) -> Result<Reply, Memory>
    requires { IsWhole command.now }
    ensures answer { IfOk result (λ reply. answered state.new reply ≡ answer_alone state.old part command.now) }
    ensures short { IfOk result (λ reply. length reply.out.items ≤ 256) }
    ensures apart { LeavesTheOther part state.old state.new }
    ensures err { OnErr result (state.new ≡ state.old) }
{
    let step = state.run_one(part, command, 0)?;
    Ok(step.reply)
}

/// Puts the entry of an executed command at the end.
#[tactic(auto, unfolding(crate::specs::Written::least_length))]
fn put_entry(entries: &mut Vec<u8>, reply: &Reply) -> Result<(), Memory>
    requires { length reply.now.out.items ≤ 256 }
    ensures entry { OnOk result ((before : CardState) → entries.new.items ≡ entries.old.items ++ entry_of (answered before reply.now)) }
    ensures few { OnOk result (length entries.new.items ≤ length entries.old.items + 262) }
{
    let mut value: ArrayVec<u8, 258> = ArrayVec::new();
    let _ = value.try_extend_from_slice(reply.out.as_slice());
    let _ = value.try_extend_from_slice(&reply.sw.to_be_bytes());
    put_element(entries, 0x23, value.as_slice())
}

/// The response script with these entries.
fn response(alloc: Global, executed: u32, entries: &[u8]) -> Result<Octets, Memory>
    requires { length entries.now ≤ 262 * 4096 }
    ensures { IfOk result (λ response. response ≡ element 0xAB (0x80 ∷ 0x01 ∷ min executed 255 ∷ entries.now)) }
{
    let mut value = Vec::new(alloc);
    value.extend_from_slice(&[0x80, 0x01, executed.min(255) as u8])?;
    value.extend_from_slice(entries)?;
    let mut response = Vec::new(alloc);
    put_element(&mut response, 0xAB, value.as_slice())?;
    Octets::from_slice(alloc, response.as_slice())
}
