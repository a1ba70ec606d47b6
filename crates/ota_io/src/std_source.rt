// A reader of std as a source.
ghost use Rattle.std.specs.Prelude.{◌≡◌, [], false};

use crate::{Failed, Source};
use std::io::{ErrorKind, Read};

// how often a read that was interrupted is made
const TRIES: usize = 1000;

/// A reader as a source. It tells nothing of its octets, and counts its failures.
#[derive(Drop)]
pub struct StdSource<I> {
    reader: I,
    faults: u64,
}

impl<I: Read> StdSource<I> {
    /// None of its calls has failed yet.
    pub fn new(reader: I) -> StdSource<I>
        ensures { ⟦<StdSource<I> as Source>⟧.faults result ≡ 0 }
    {
        StdSource { reader, faults: 0 }
    }
}

impl<I: Read> Source for StdSource<I> {
    ghost tells = { λ _. false };

    ghost left = { λ _. [] };

    ghost faults = { λ s. s.faults };

    fn read(&mut self, into: &mut [u8]) -> Result<usize, Failed> {
        for _ in 0..TRIES {
            match self.reader.read(into) {
                Ok(count) => return Ok(count),
                Err(error) if error.kind() == ErrorKind::Interrupted => {}
                Err(_) => break,
            }
        }
        self.faults = self.faults.saturating_add(1);
        Err(Failed)
    }
}
