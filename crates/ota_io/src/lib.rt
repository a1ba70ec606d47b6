//! Octets from and to the outside: sources, sinks, and whole texts read and written. Clocks.
#![tactic(auto)]

mod clocks;
mod faults;
mod mem_sink;
mod mem_source;
mod numbered_calls;
mod octet_sink;
mod octet_source;
mod std_sink;
mod std_source;
mod whole_text;

pub use clocks::{Clock, StillClock, SystemClock};
pub use faults::{Failed, Memory};
pub use mem_sink::MemSink;
pub use mem_source::MemSource;
pub use octet_sink::Sink;
pub use octet_source::Source;
pub use std_sink::StdSink;
pub use std_source::StdSource;
pub use whole_text::{ReadErr, read_all, write_all};

#[cfg(test)]
mod scripted;
#[cfg(test)]
mod std_tests;
#[cfg(test)]
mod tests;
