// A writer and a reader that do at each call what they are told.
ghost use Rattle.std.specs.Prelude.{◌≤◌, length};

use std::io;
use std::io::{ErrorKind, Read, Write};

/// What becomes of a call.
#[derive(Clone, Copy, Debug, PartialEq, Eq)]
pub enum Turn {
    /// It takes or gives so many octets at most.
    Moves(usize),
    Fails,
    Interrupted,
}

/// A writer. Its calls go as listed, and each one later fails.
#[derive(Drop)]
pub struct ScriptedWriter {
    pub turns: Vec<Turn>,
    pub made: usize,
    /// What it took.
    pub octets: Vec<u8>,
}

/// A reader of these octets. Its calls go as listed, and each one later fails.
#[derive(Drop)]
pub struct ScriptedReader {
    pub turns: Vec<Turn>,
    pub made: usize,
    pub octets: Vec<u8>,
    /// How many of the octets it gave.
    pub at: usize,
}

// How many octets the next call moves at most.
fn next(turns: &[Turn], made: &mut usize) -> io::Result<usize> {
    let turn = turns.get(*made).copied();
    *made = made.saturating_add(1);
    match turn {
        Some(Turn::Moves(most)) => Ok(most),
        Some(Turn::Interrupted) => Err(io::Error::from(ErrorKind::Interrupted)),
        _ => Err(io::Error::from(ErrorKind::BrokenPipe)),
    }
}

impl Write for ScriptedWriter {
    fn write(&mut self, buf: &[u8]) -> io::Result<usize> {
        let count = next(&self.turns, &mut self.made)?.min(buf.len());
        match self.octets.extend_from_slice(&buf[..count]) {
            Ok(()) => Ok(count),
            Err(_) => Err(io::Error::from(ErrorKind::OutOfMemory)),
        }
    }

    fn flush(&mut self) -> io::Result<()> {
        Ok(())
    }
}

impl Read for ScriptedReader {
    fn read(&mut self, buf: &mut [u8]) -> io::Result<usize> {
        let most = next(&self.turns, &mut self.made)?;
        let count = copy(&self.octets, self.at, most, buf);
        self.at = self.at.saturating_add(count);
        Ok(count)
    }
}

// Copies as many octets from a place on as there are and there is room for, and so many at most.
fn copy(octets: &[u8], at: usize, most: usize, into: &mut [u8]) -> usize
    ensures { result ≤ length into.old }
{
    let place = at.min(octets.len());
    let count = most.min(octets.len() - place).min(into.len());
    into[..count].copy_from_slice(&octets[place..place + count]);
    count
}
