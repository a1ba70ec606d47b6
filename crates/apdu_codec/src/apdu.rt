//! One command of a script.

ghost use Rattle.std.specs.Prelude.{◌≡◌, ◌+◌, ◌^◌, ◌<◌, ◌≤◌, length};
ghost use Rattle.apdu_codec.specs.Apdu.{data_len_of, le_len_of, next_of, GoesForward};

use crate::instruction::{GET_STATUS, READ_BINARY, READ_RECORD, SEARCH_RECORD};

/// A command as it stands in a script: its header, and where its data are.
///
/// ETSI TS 102 221, 10.1.
#[derive(Clone, Copy, Debug, PartialEq, Eq)]
pub struct Apdu {
    /// The class octet.
    pub cla: u8,
    /// The instruction octet.
    pub ins: u8,
    /// The first parameter.
    pub p1: u8,
    /// The second parameter.
    pub p2: u8,
    /// The number of octets of data; of READ BINARY and READ RECORD the number wanted.
    pub p3: u8,
    /// The place in the script, from 0, where the data begin.
    pub from: u32,
    /// How many octets of data there are.
    pub len: u32,
}

/// What stands at a place of a script.
#[derive(Clone, Copy, Debug, PartialEq, Eq)]
pub enum Next {
    /// The script ends here.
    End,
    /// A whole command, and the place where the next one begins.
    Command(Apdu, u32),
    /// A rest that is no whole command.
    Short,
}

/// How many octets of data a command has.
fn data_len(ins: u8, p3: u8) -> u8
    ensures { result ≡ data_len_of ins p3 }
{
    if ins == READ_BINARY || ins == READ_RECORD {
        0
    } else {
        p3
    }
}

/// How many of the `left` octets behind a command's data are its Le.
fn le_len(ins: u8, left: usize) -> u32
    ensures value { result ≡ le_len_of ins left }
    ensures within { result ≤ left }
{
    u32::from((ins == SEARCH_RECORD || ins == GET_STATUS) && left == 1)
}

/// Reads what stands at the place `at` of a script.
///
/// Behind SEARCH RECORD and GET STATUS, a last single octet is the command's Le: it is passed over, so
/// the next one begins at the script's end.
pub fn next_apdu(script: &[u8], at: u32) -> Next
    requires within { at ≤ length script.now }
    requires fits { length script.now < 2 ^ 32 }

    ensures reading { result ≡ next_of script.now at }
    ensures forward { GoesForward at (length script.now) result }
{
    match &script[at as usize..] {
        [] => Next::End,
        [cla, ins, p1, p2, p3, behind @ ..] => {
            let len = data_len(*ins, *p3);
            if behind.len() < usize::from(len) {
                return Next::Short;
            }
            let len = u32::from(len);
            let from = at + 5;
            let next = from + len + le_len(*ins, behind.len() - len as usize);
            let apdu = Apdu {
                cla: *cla,
                ins: *ins,
                p1: *p1,
                p2: *p2,
                p3: *p3,
                from,
                len,
            };
            Next::Command(apdu, next)
        }
        _ => Next::Short,
    }
}
