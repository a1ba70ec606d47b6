//! The reading of expanded command scripts.

ghost use Rattle.std.specs.Prelude.{◌≡◌, ℕ, List, ◌+◌, ◌<◌, ◌≤◌, [], length, IfOk, IfErr, IfSome, IfNone};
ghost use Rattle.expanded_scripts.specs.Template.{HasValue, IsTemplate, IsChild, IsOuter};
ghost use Rattle.expanded_scripts.specs.Refused.{IsRefused, IsRefusedChild, IsRefusedOuter};
ghost use Rattle.expanded_scripts.specs.Exact.{IsReadAs, IsRefusedAs};
ghost use Rattle.expanded_scripts.specs.declared.reading.TemplateErr.TheVariants as template_err;

use crate::commands::plain_form;
use crate::lengths::value_in;
use crate::scripts::Expanded;
use ota_core::{Memory, Octets};
use std::alloc::{AllocFailed, Global};

/// Why octets are no expanded command script. Places are counted from 0, from the first octet on.
#[derive(Clone, Copy, Debug, PartialEq, Eq)]
pub enum TemplateErr {
    /// The first octet isn't the tag AA, or is missing.
    Tag,
    /// The length at this place is cut off, has another first octet than one below 80, 81 or 82, or overruns
    /// what holds it. At the place 1 also: the template doesn't end where the octets end, or there are more
    /// than 4,096 octets.
    Length(u32),
    /// At this place stands another tag than 22.
    Child(u32),
    /// The value that begins at this place is no command.
    Command(u32),
    /// Memory is wanting.
    Memory,
}

impl From<Memory> for TemplateErr {
    ghost use Rattle.std.specs.Prelude.{◌≡◌};
    ghost use Rattle.expanded_scripts.specs.declared.reading.TemplateErr.TheVariants as template_err;

    ghost from_gives = { λ _ err. err ≡ template_err.Memory };

    fn from(_memory: Memory) -> TemplateErr {
        TemplateErr::Memory
    }
}

impl From<AllocFailed<Octets>> for TemplateErr {
    ghost use Rattle.std.specs.Prelude.{◌≡◌};
    ghost use Rattle.expanded_scripts.specs.declared.reading.TemplateErr.TheVariants as template_err;

    ghost from_gives = { λ _ err. err ≡ template_err.Memory };

    fn from(_failed: AllocFailed<Octets>) -> TemplateErr {
        TemplateErr::Memory
    }
}

/// Reads an expanded command script of at most 4,096 octets. It is refused exactly where the octets are none, for
/// what is wrong first.
///
/// ETSI TS 102 226, 5.2.2. The command has the tag 22, the template the tag AA (ETSI TS 101 220, 7.2).
pub fn read_template(alloc: Global, octets: &[u8]) -> Result<Expanded, TemplateErr>
    ensures script { IfOk result (IsTemplate octets.now) }
    ensures refused { IfErr result (IsRefused octets.now) }
    ensures each_script { (commands : List (List ℕ)) → IsTemplate octets.now commands → IsReadAs commands result }
    ensures each_refusal { (error : TemplateErr) → IsRefused octets.now error → (error ≡ template_err.Memory → ⊥) → IsRefusedAs error result }
{
    template_in(alloc, octets)
}

/// The script that the octets are.
fn template_in(alloc: Global, octets: &[u8]) -> Result<Expanded, TemplateErr>
    ensures script { IfOk result (IsTemplate octets.now) }
    ensures refused { IfErr result (IsRefused octets.now) }
{
    let mut left = children_in(octets)?;
    let mut commands = Vec::new(alloc);
    while !left.is_empty() {
        let place = octets.len() - left.len();
        let (plain, behind) = child_in(alloc, left, place)?;
        commands.push(plain)?;
        left = behind;
    }
    Ok(Expanded::from_commands(commands))
}

/// The children of a template that fills the octets.
fn children_in(octets: &[u8]) -> Result<&[u8], TemplateErr>
    ensures children { IfOk result (λ children. IsOuter octets.now children.now) }
    ensures within { IfOk result (λ children. length children.now < length octets.now) }
    ensures short { IfOk result (λ _. length octets.now ≤ 4096) }
    ensures refused { IfErr result (IsRefusedOuter octets.now) }
{
    let rest = match octets {
        [0xAA, rest @ ..] => rest,
        _ => return Err(TemplateErr::Tag),
    };
    if octets.len() > 4096 {
        return Err(TemplateErr::Length(1));
    }
    match filling_value(rest) {
        Some(children) => Ok(children),
        None => Err(TemplateErr::Length(1)),
    }
}

/// The value behind the length with which the octets begin, where it ends where they end.
fn filling_value(octets: &[u8]) -> Option<&[u8]>
    ensures found { IfSome result (λ value. HasValue octets.now value.now []) }
    ensures left { IfSome result (λ value. length value.now < length octets.now) }
    ensures none { IfNone result ((value : List ℕ) → HasValue octets.now value [] → ⊥) }
{
    match value_in(octets) {
        Some((value, behind)) => { if behind.is_empty() { Some(value) } else { None } }
        None => None,
    }
}

/// The plain form of the child that stands at a place, and what is left behind it. `left` begins with the child.
fn child_in(alloc: Global, left: &[u8], place: usize) -> Result<(Octets, &[u8]), TemplateErr>
    requires some { 0 < length left.now }
    requires within { place + length left.now ≤ 4096 }
    ensures child { IfOk result (λ found. IsChild left.now found.0 found.1.now) }
    ensures left { IfOk result (λ found. length found.1.now + 2 ≤ length left.now) }
    ensures refused { IfErr result (IsRefusedChild (place + length left.now) left.now) }
{
    let value = match left {
        [0x22, rest @ ..] => rest,
        _ => return Err(TemplateErr::Child(place as u32)),
    };
    let (value, behind) = match value_in(value) {
        Some(found) => found,
        None => return Err(TemplateErr::Length(place as u32 + 1)),
    };
    match plain_form(alloc, value)? {
        Some(plain) => Ok((plain, behind)),
        None => {
            let from = place + left.len() - behind.len() - value.len();
            Err(TemplateErr::Command(from as u32))
        }
    }
}
