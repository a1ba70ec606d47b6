//! What a command writes.

ghost use Rattle.std.specs.Prelude.{◌≡◌, ◌<◌, ◌++◌, ℕ, List, IsTrue, IfOk, OnOk, length, string_bytes};
ghost use Rattle.reports.specs.Packets.{packets_of};
ghost use Rattle.reports.specs.Report.{report_of};
ghost use Rattle.lane_session.specs.Differences.{histories_of};
ghost use Rattle.ota_commands.specs.Writing.{formatted_text, IsWritten, WriteCause, answer_of};

use crate::faults::Fault;
use lane_session::{Lane, into_histories};
use ota_core::{Job, Memory};
use ota_io::{Sink, write_all};
use reports::{packet_text, report_text};
use std::alloc::Global;

/// How far a text was written.
#[derive(Clone, Copy, Debug, PartialEq, Eq)]
pub enum Written {
    Whole,
    /// A part of it, from its front, as the sink failed.
    Part,
    /// None of it, as memory was wanting for the text.
    Nothing,
}

/// Writes the report of the jobs by the histories of the lanes.
pub fn write_report<K: Sink>(alloc: Global, sink: &mut K, jobs: &[Job], lanes: Vec<Lane>) -> Written
    requires some { 0 < length lanes.items }
    ensures text { IsTrue (K.tells sink.old) → IsWritten (report_of jobs.now (histories_of lanes.items)) (K.written sink.old) (K.written sink.new) result }
    ensures cause { WriteCause (K.faults sink.old) (K.faults sink.new) result }
{
    match report_on(alloc, jobs, lanes) {
        Err(_) => Written::Nothing,
        Ok(text) => write_text(sink, &text),
    }
}

fn report_on(alloc: Global, jobs: &[Job], lanes: Vec<Lane>) -> Result<String, Memory>
    requires some { 0 < length lanes.items }
    ensures { IfOk result (λ text. string_bytes text ≡ report_of jobs.now (histories_of lanes.items)) }
{
    let histories = into_histories(alloc, lanes)?;
    report_text(alloc, jobs, &histories)
}

/// Writes the messages of the jobs that are reserved and not settled, by the histories of the lanes.
pub fn write_packets<K: Sink>(
    alloc: Global,
    sink: &mut K,
    jobs: &[Job],
    lanes: Vec<Lane>,
) -> Written
    requires some { 0 < length lanes.items }
    ensures text { IsTrue (K.tells sink.old) → IsWritten (packets_of jobs.now (histories_of lanes.items)) (K.written sink.old) (K.written sink.new) result }
    ensures cause { WriteCause (K.faults sink.old) (K.faults sink.new) result }
{
    match packets_on(alloc, jobs, lanes) {
        Err(_) => Written::Nothing,
        Ok(text) => write_text(sink, &text),
    }
}

fn packets_on(alloc: Global, jobs: &[Job], lanes: Vec<Lane>) -> Result<String, Memory>
    requires some { 0 < length lanes.items }
    ensures { IfOk result (λ text. string_bytes text ≡ packets_of jobs.now (histories_of lanes.items)) }
{
    let histories = into_histories(alloc, lanes)?;
    packet_text(alloc, jobs, &histories)
}

/// Writes that the journals of so many lanes are made.
pub fn write_formatted<K: Sink>(alloc: Global, sink: &mut K, lanes: usize) -> Written
    ensures text { IsTrue (K.tells sink.old) → IsWritten (formatted_text lanes) (K.written sink.old) (K.written sink.new) result }
    ensures cause { WriteCause (K.faults sink.old) (K.faults sink.new) result }
{
    match formatted_text(alloc, lanes) {
        Err(_) => Written::Nothing,
        Ok(text) => write_text(sink, &text),
    }
}

#[tactic(auto, unfolding(crate::specs::Writing::formatted_text))]
fn formatted_text(alloc: Global, lanes: usize) -> Result<String, Memory>
    ensures { IfOk result (λ text. string_bytes text ≡ formatted_text lanes) }
{
    let mut text = String::new(alloc);
    write!(text, "formatted {lanes}\n")?;
    Ok(text)
}

/// Writes a text that there is.
pub fn write_text<K: Sink>(sink: &mut K, text: &String) -> Written
    ensures text { IsTrue (K.tells sink.old) → IsWritten (string_bytes text.now) (K.written sink.old) (K.written sink.new) result }
    ensures cause { WriteCause (K.faults sink.old) (K.faults sink.new) result }
{
    match write_all(sink, text.as_bytes()) {
        Ok(()) => Written::Whole,
        Err(_) => Written::Part,
    }
}

/// The answer of a command whose first lane that stopped has this end: want of memory for the text, else that end, else
/// the fault of the sink.
pub fn answer_of(written: Written, end: Option<Fault>) -> Option<Fault>
    ensures { result ≡ answer_of written end }
{
    match written {
        Written::Nothing => Some(Fault::Memory),
        Written::Whole => end,
        Written::Part => match end {
            None => Some(Fault::SinkFault),
            Some(fault) => Some(fault),
        },
    }
}
