// Whole texts, read and written.
ghost use Rattle.std.specs.Prelude.{◌≡◌, ◌<◌, ◌≤◌, ◌+◌, ◌++◌, [], IsTrue, IfOk, OnOk, OnErr, IsErrOf, length, vec_len};
ghost use Rattle.ota_io.specs.Calls.{HasCause, HasRisen};
ghost use Rattle.ota_io.specs.Octets.{text_limit, TakesAtMost, AddsPart};
ghost use Rattle.ota_io.specs.ReadErr.{HasReadCause};
ghost use Rattle.ota_io.specs.declared.whole_text.ReadErr.TheVariants.{Fault, Memory as NoMemory};

use crate::{Failed, Sink, Source};
use std::alloc::{AllocError, Global};

const LIMIT: usize = 8_388_608;

const PIECE: usize = 8_192;

/// Why a source was not read to its end.
#[derive(Clone, Copy, Debug, PartialEq, Eq)]
pub enum ReadErr {
    /// The source failed.
    Fault,
    /// More than 8,388,608 octets came.
    TooLong,
    /// There was no memory for the text.
    Memory,
}

impl From<Failed> for ReadErr {
    ghost from_gives = { λ _ error. error ≡ Fault };

    fn from(_: Failed) -> Self {
        ReadErr::Fault
    }
}

impl From<AllocError> for ReadErr {
    ghost from_gives = { λ _ error. error ≡ NoMemory };

    fn from(_: AllocError) -> Self {
        ReadErr::Memory
    }
}

/// Reads a source to its end, at most 8,388,608 octets and one more.
pub fn read_all<S: Source>(alloc: Global, source: &mut S) -> Result<Vec<u8>, ReadErr>
    ensures limit { IfOk result (λ text. vec_len text ≤ text_limit) }

    // Where it tells.
    ensures whole { IsTrue (S.tells source.old) → IfOk result (λ text. text.items ≡ S.left source.old) }
    ensures end { IsTrue (S.tells source.old) → OnOk result (S.left source.new ≡ []) }
    ensures too_long { IsTrue (S.tells source.old) → IsErrOf result ReadErr.TooLong → text_limit < length (S.left source.old) }
    ensures reads { IsTrue (S.tells source.old) → TakesAtMost (text_limit + 1) (S.left source.old) (S.left source.new) }

    ensures tells { S.tells source.new ≡ S.tells source.old }
    ensures cause { HasReadCause (S.faults source.old) (S.faults source.new) result }
{
    let mut text = Vec::new(alloc);
    let mut piece = [0; PIECE];
    while text.len() <= LIMIT {
        let room = PIECE.min(LIMIT + 1 - text.len());
        let count = source.read(&mut piece[..room])?;
        if count == 0 {
            return Ok(text);
        }
        text.extend_from_slice(&piece[..count])?;
    }
    Err(ReadErr::TooLong)
}

/// Writes a whole text. Where the sink fails, it holds a part of the text, from its front.
pub fn write_all<K: Sink>(sink: &mut K, text: &[u8]) -> Result<(), Failed>
    // Where it tells.
    ensures whole { IsTrue (K.tells sink.old) → OnOk result (K.written sink.new ≡ K.written sink.old ++ text.now) }
    ensures part { IsTrue (K.tells sink.old) → OnErr result (AddsPart text.now (K.written sink.old) (K.written sink.new)) }

    ensures tells { K.tells sink.new ≡ K.tells sink.old }
    ensures cause { HasCause (K.faults sink.old) (K.faults sink.new) result }
{
    let mut at = 0;
    while at < text.len() {
        at += sink.write(&text[at..])?;
    }
    Ok(())
}
