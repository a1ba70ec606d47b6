//! A whole script.

ghost use Rattle.std.specs.Prelude.{◌≡◌, ◌⊎◌, ℕ, ◌^◌, ◌<◌, ◌≤◌, List, length, IfOk};
ghost use Rattle.apdu_codec.specs.Script.{Splits, IsCutAt, HasCommands};
ghost use Rattle.apdu_codec.specs.declared.script.ScriptErr.TheVariants.{Memory};

use crate::apdu::{Apdu, Next, next_apdu};
use std::alloc::{AllocError, AllocFailed, Global};

/// Why a script has no list of commands.
#[derive(Clone, Copy, Debug, PartialEq, Eq)]
pub enum ScriptErr {
    /// The last command is cut off; the place where it begins, from 0.
    Short(u32),
    /// Memory is wanting.
    Memory,
}

impl From<AllocError> for ScriptErr {
    ghost from_gives = { λ _ error. error ≡ Memory };

    fn from(_error: AllocError) -> Self {
        ScriptErr::Memory
    }
}

impl<T: Drop> From<AllocFailed<T>> for ScriptErr {
    ghost from_gives = { λ _ error. error ≡ Memory };

    fn from(_error: AllocFailed<T>) -> Self {
        ScriptErr::Memory
    }
}

/// The commands of a script, in their order.
///
/// `Short` comes exactly where the last command is cut off.
pub fn split_script(alloc: Global, script: &[u8]) -> Result<Vec<Apdu>, ScriptErr>
    requires { length script.now < 2 ^ 32 }

    ensures commands { IfOk result (λ commands. Splits script.now 0 commands.items) }
    ensures cut { (at : ℕ) → result ≡ Err (ScriptErr.Short at) → IsCutAt script.now at 0 }
{
    let mut commands = Vec::new(alloc);
    let mut at = 0;
    loop {
        match next_apdu(script, at) {
            Next::End => return Ok(commands),
            Next::Short => return Err(ScriptErr::Short(at)),
            Next::Command(apdu, next) => {
                commands.push(apdu)?;
                at = next;
            }
        }
    }
}

/// How many commands a script has. A rest that is no whole command is one; an Le that is passed over is
/// none.
pub fn count_commands(script: &[u8]) -> u32
    requires { length script.now < 2 ^ 32 }

    ensures count { HasCommands script.now 0 result }
    ensures octets { result ≤ length script.now }
{
    let mut count = 0;
    let mut at = 0;
    loop {
        match next_apdu(script, at) {
            Next::End => return count,
            Next::Short => return count + 1,
            Next::Command(_, next) => {
                count += 1;
                at = next;
            }
        }
    }
}

/// Each script is read in one way: it has one list of commands or one place where it is cut off, and not
/// both; and one number of commands, which is that of its list, or has the rest among them.
pub fn one_reading()
    ensures some_reading { (script : List ℕ) → ((commands : List Apdu) × Splits script 0 commands) ⊎ ((cut : ℕ) × IsCutAt script cut 0) }
    ensures one_list { (script : List ℕ) (commands others : List Apdu) → Splits script 0 commands → Splits script 0 others → commands ≡ others }
    ensures one_cut { (script : List ℕ) (cut other : ℕ) → IsCutAt script cut 0 → IsCutAt script other 0 → cut ≡ other }
    ensures apart { (script : List ℕ) (commands : List Apdu) (cut : ℕ) → Splits script 0 commands → IsCutAt script cut 0 → ⊥ }
    ensures some_count { (script : List ℕ) → (count : ℕ) × HasCommands script 0 count }
    ensures one_count { (script : List ℕ) (count other : ℕ) → HasCommands script 0 count → HasCommands script 0 other → count ≡ other }
    ensures whole { (script : List ℕ) (commands : List Apdu) → Splits script 0 commands → HasCommands script 0 (length commands) }
    ensures rest { (script : List ℕ) (cut : ℕ) → IsCutAt script cut 0 → HasCommands script cut 1 }
{}

#[cfg(test)]
mod tests {
    use super::*;
    use std::test::Fail;

    /// The script of 146 commands SELECT and a rest of two octets: 1,024 octets.
    fn selects(alloc: Global) -> Result<Vec<u8>, Fail> {
        let mut script = Vec::new(alloc);
        for _ in 0..146 {
            script.extend_from_slice(&[0x00, 0xA4, 0x00, 0x00, 0x02, 0x3F, 0x00])?;
        }
        script.extend_from_slice(&[0, 0])?;
        Ok(script)
    }

    #[test]
    fn last_command_may_be_cut_off(rt: HostRuntime) -> Result<(), Fail> {
        let script = selects(rt.alloc())?;
        assert!(rt; script.len() == 1024);
        assert_eq!(rt; count_commands(&script), 147);
        match split_script(rt.alloc(), &script) {
            Ok(_) => assert!(rt; false, "the rest is no command"),
            Err(error) => assert_eq!(rt; error, ScriptErr::Short(1022)),
        }
        Ok(())
    }

    #[test]
    fn commands_and_the_octet_passed_over(rt: HostRuntime) -> Result<(), Fail> {
        // READ BINARY of 5 octets, SELECT of 6F3A, SEARCH RECORD with two octets of data and its Le.
        let script = [
            0x00, 0xB0, 0x00, 0x00, 0x05, 0x00, 0xA4, 0x00, 0x00, 0x02, 0x6F, 0x3A, 0x00, 0xA2,
            0x01, 0x04, 0x02, 0x4F, 0x74, 0x00,
        ];
        assert_eq!(rt; count_commands(&script), 3);
        let commands = split_script(rt.alloc(), &script)?;
        let want = [(0xB0, 5, 0), (0xA4, 10, 2), (0xA2, 17, 2)];
        assert_eq!(rt; commands.len(), want.len());
        for (command, (ins, from, len)) in commands.iter().zip(want.iter()) {
            assert_eq!(rt; command.ins, *ins);
            assert_eq!(rt; command.from, *from);
            assert_eq!(rt; command.len, *len);
        }
        // The same octet behind SELECT begins a command that is cut off.
        let script = [0x00, 0xA4, 0x00, 0x00, 0x02, 0x6F, 0x3A, 0x00];
        assert_eq!(rt; count_commands(&script), 2);
        assert_eq!(rt; count_commands(&[]), 0);
        match split_script(rt.alloc(), &script) {
            Ok(_) => assert!(rt; false, "one octet is no command"),
            Err(error) => assert_eq!(rt; error, ScriptErr::Short(7)),
        }
        Ok(())
    }
}
