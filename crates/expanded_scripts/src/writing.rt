//! The writing of expanded command scripts.

ghost use Rattle.std.specs.Prelude.{◌≡◌, ◌≤◌, length, IfOk};
ghost use Rattle.expanded_scripts.specs.Template.{IsTemplate, IsWhole};
ghost use Rattle.expanded_scripts.specs.Written.{element, written};

use crate::lengths::{element_len, put_element};
use crate::scripts::Expanded;
use ota_core::{Memory, Octets};

/// Writes an expanded command script, each length in its least form. It is read back as the script.
///
/// ETSI TS 102 226, 5.2.2.
pub fn write_template(script: &Expanded) -> Result<Octets, Memory>
    requires { length (written script.now) ≤ 4096 }
    ensures octets { IfOk result (λ octets. octets ≡ written script.now) }
    ensures read_back { IfOk result (λ octets. IsTemplate octets script.now) }
{
    let alloc = script.allocator();
    let mut children = Vec::new(alloc);
    for command in script.commands() {
        put_element(&mut children, 0x22, command.as_slice())?;
    }
    let mut template = Vec::new(alloc);
    put_element(&mut template, 0xAA, children.as_slice())?;
    Octets::from_slice(alloc, template.as_slice())
}

/// How many octets a script has as `write_template` would write it. A script that was read may come out longer,
/// since a command of four octets is written with its P3.
pub fn written_len(script: &Expanded) -> usize
    ensures { result ≡ length (written script.now) }
{
    let mut children = 0;
    for command in script.commands() {
        children += child_len(command.as_slice());
    }
    element_len(children)
}

/// How many octets the child with a whole command has.
fn child_len(command: &[u8]) -> usize
    requires { IsWhole command.now }
    ensures len { result ≡ length (element 0x22 command.now) }
    ensures few { result ≤ 265 }
{
    element_len(command.len())
}
