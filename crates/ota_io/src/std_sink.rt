// A writer of std as a sink.
ghost use Rattle.std.specs.Prelude.{◌≡◌, [], false};

use crate::{Failed, Sink};
use std::io::{ErrorKind, Write};

// how often a write that was interrupted is made
const TRIES: usize = 1000;

/// A writer as a sink. It tells nothing of its octets, and counts its failures.
/// A write that takes nothing of a piece is one.
#[derive(Drop)]
pub struct StdSink<O> {
    writer: O,
    faults: u64,
}

impl<O: Write> StdSink<O> {
    /// None of its calls has failed yet.
    pub fn new(writer: O) -> StdSink<O>
        ensures { ⟦<StdSink<O> as Sink>⟧.faults result ≡ 0 }
    {
        StdSink { writer, faults: 0 }
    }
}

impl<O: Write> Sink for StdSink<O> {
    ghost tells = { λ _. false };

    ghost written = { λ _. [] };

    ghost faults = { λ s. s.faults };

    fn write(&mut self, from: &[u8]) -> Result<usize, Failed> {
        if from.is_empty() {
            return Ok(0);
        }
        for _ in 0..TRIES {
            match self.writer.write(from) {
                Ok(0) => break,
                Ok(count) => return Ok(count),
                Err(error) if error.kind() == ErrorKind::Interrupted => {}
                Err(_) => break,
            }
        }
        self.faults = self.faults.saturating_add(1);
        Err(Failed)
    }
}
