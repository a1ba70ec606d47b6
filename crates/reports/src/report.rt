ghost use Rattle.std.specs.Prelude.{◌≡◌, ◌<◌, ◌∷◌, [], ◌++◌, length, map, reverse, string_bytes, IfOk, OnOk, codes};
ghost use Rattle.std.specs.Option.{option_copied};
ghost use Rattle.hex.specs.Hex.{encode_lower};
ghost use Rattle.ota_core.specs.Outcome.{settled_by, outcome_of};
ghost use Rattle.reports.specs.Note.{note_text};
ghost use Rattle.reports.specs.Report.{report_of, header, unreserved, row_of, note_of, job_text, outcome_text, counter_text, answer_text, entries_in};

use crate::lane_indexes::{LaneIndex, index_of, lane_indexes};
use crate::notes::{Note, unreserved_note};
use ota_core::{Counter, Entry, History, Job, Memory, Reservation};
use std::alloc::Global;

/// The report of the jobs, by the histories of the lanes in their order.
///
/// It has a line for its columns, `job,card,kvn,outcome,counter,note`, and then a line for each job, in order of
/// the jobs. A job stands by the history of its keyset's lane, and by its last reservation there: `done` with the card's
/// answer, `refused` with the status, or `unsettled`, each with the counter in ten hexadecimal digits. A job without a
/// reservation is `unsettled` with a dash, and the note says why: `new`, `closed`, `exhausted`, or a dash where a counter
/// may be reserved.
pub fn report_text(alloc: Global, jobs: &[Job], histories: &[History]) -> Result<String, Memory>
    requires { 0 < length histories.now }
    ensures { IfOk result (λ text. string_bytes text ≡ report_of jobs.now (map entries_in histories.now)) }
{
    let lanes = lane_indexes(alloc, histories)?;
    let mut text = String::from_str(alloc, header())?;
    for job in jobs {
        put_row(&mut text, index_of(&lanes, job.keyset), job)?;
    }
    Ok(text)
}

#[tactic(auto, unfolding(crate::specs::Report::header))]
fn header() -> &'static str
    ensures { result.now ≡ header }
{
    "job,card,kvn,outcome,counter,note\n"
}

fn put_row(text: &mut String, lane: &LaneIndex<'_>, job: &Job) -> Result<(), Memory>
    ensures { OnOk result (string_bytes text.new ≡ string_bytes text.old ++ row_of lane.now job.now) }
{
    put_job(text, job)?;
    put_outcome(text, lane, job)?;
    text.push_str("\n")?;
    Ok(())
}

#[tactic(auto, using(crate::proofs::OutcomeText::outcome_text_reserved, crate::proofs::OutcomeText::outcome_text_new))]
fn put_outcome(text: &mut String, lane: &LaneIndex<'_>, job: &Job) -> Result<(), Memory>
    ensures { OnOk result (string_bytes text.new ≡ string_bytes text.old ++ outcome_text (note_of job.now.keyset (reverse lane.now)) (outcome_of lane.now job.now.id)) }
{
    match lane.book().last_reservation(job.id) {
        None => put_unreserved(text, unreserved_note(lane.book(), job.keyset)),
        Some(place) => put_reserved(text, place, lane.settlement(place)),
    }
}

fn put_job(text: &mut String, job: &Job) -> Result<(), Memory>
    ensures { OnOk result (string_bytes text.new ≡ string_bytes text.old ++ job_text job.now) }
{
    let number = job.id.job;
    let card = job.keyset.card.0;
    let kvn = job.keyset.kvn;
    write!(text, "{number},{card},{kvn},")?;
    Ok(())
}

/// The text of a job without a reservation.
fn put_unreserved(text: &mut String, note: Note) -> Result<(), Memory>
    ensures { OnOk result (string_bytes text.new ≡ string_bytes text.old ++ (unreserved ++ note_text note)) }
{
    text.push_str(unreserved_columns())?;
    text.push_str(note_word(note))?;
    Ok(())
}

#[tactic(auto, unfolding(crate::specs::Report::unreserved))]
fn unreserved_columns() -> &'static str
    ensures { result.now ≡ unreserved }
{
    "unsettled,-,"
}

fn note_word(note: Note) -> &'static str
    ensures { result.now ≡ note_text note }
{
    match note {
        Note::New => "new",
        Note::Closed => "closed",
        Note::Exhausted => "exhausted",
        Note::Open => "-",
    }
}

/// The text of a reservation, by the entry that settles it.
fn put_reserved(
    text: &mut String,
    place: Reservation,
    settled: Option<&Entry>,
) -> Result<(), Memory>
    ensures { OnOk result (string_bytes text.new ≡ string_bytes text.old ++ outcome_text [] (settled_by place (option_copied settled.entry))) }
{
    match settled {
        Some(Entry::Done { answer, .. }) => put_done(text, place.counter, answer.as_slice()),
        Some(Entry::Refused { status, .. }) => put_refused(text, place.counter, *status),
        _ => put_unsettled(text, place.counter),
    }
}

fn put_unsettled(text: &mut String, counter: Counter) -> Result<(), Memory>
    ensures { OnOk result (string_bytes text.new ≡ string_bytes text.old ++ (codes "unsettled," ++ counter_text counter ++ codes ",-")) }
{
    text.push_str("unsettled,")?;
    put_counter(text, counter)?;
    text.push_str(",-")?;
    Ok(())
}

fn put_done(text: &mut String, counter: Counter, answer: &[u8]) -> Result<(), Memory>
    ensures { OnOk result (string_bytes text.new ≡ string_bytes text.old ++ (codes "done," ++ counter_text counter ++ codes "," ++ answer_text answer.now)) }
{
    text.push_str("done,")?;
    put_counter(text, counter)?;
    text.push_str(",")?;
    put_answer(text, answer)
}

fn put_refused(text: &mut String, counter: Counter, status: u8) -> Result<(), Memory>
    ensures { OnOk result (string_bytes text.new ≡ string_bytes text.old ++ (codes "refused," ++ counter_text counter ++ codes "," ++ encode_lower (status ∷ []))) }
{
    text.push_str("refused,")?;
    put_counter(text, counter)?;
    text.push_str(",")?;
    put_hex(text, &[status])
}

#[tactic(auto, unfolding(crate::specs::Report::counter_text))]
pub(crate) fn put_counter(text: &mut String, counter: Counter) -> Result<(), Memory>
    ensures { OnOk result (string_bytes text.new ≡ string_bytes text.old ++ counter_text counter) }
{
    put_hex(text, &counter.0.to_be_bytes()[3..])
}

fn put_answer(text: &mut String, answer: &[u8]) -> Result<(), Memory>
    ensures { OnOk result (string_bytes text.new ≡ string_bytes text.old ++ answer_text answer.now) }
{
    if answer.is_empty() {
        text.push_str("-")?;
        return Ok(());
    }
    put_hex(text, answer)
}

pub(crate) fn put_hex(text: &mut String, octets: &[u8]) -> Result<(), Memory>
    ensures { OnOk result (string_bytes text.new ≡ string_bytes text.old ++ encode_lower octets.now) }
{
    let digits = hex::encode(*text.allocator(), octets)?;
    text.push_str(digits.as_str())?;
    Ok(())
}
