ghost use Rattle.std.specs.Prelude.{◌≡◌, ◌<◌, ◌++◌, length, map, string_bytes, IfOk, OnOk};
ghost use Rattle.reports.specs.Report.{entries_in};
ghost use Rattle.reports.specs.Summary.{is_done, is_refused, is_unsettled, jobs_that, summary_with, summary_of};

use crate::lane_books::{LaneBook, book_of, lane_books};
use keyset_book::Looked;
use ota_core::{History, Job, Memory};
use std::alloc::Global;

/// The summary of the jobs, by the histories of the lanes in their order: one line, `jobs <n> done <d> refused <r>
/// unsettled <u>`, with how many jobs there are, how many the cards ran, how many they refused, and how many wait for an
/// answer or for a counter. A job stands by the history of its keyset's lane.
pub fn summary_text(alloc: Global, jobs: &[Job], histories: &[History]) -> Result<String, Memory>
    requires { 0 < length histories.now }
    ensures { IfOk result (λ text. string_bytes text ≡ summary_of jobs.now (map entries_in histories.now)) }
{
    let lanes = lane_books(alloc, histories)?;
    let counts = count_jobs(jobs, &lanes);
    let mut text = String::new(alloc);
    put_counts(&mut text, jobs.len(), &counts)?;
    Ok(text)
}

fn put_counts(text: &mut String, all: usize, counts: &JobCounts) -> Result<(), Memory>
    ensures { OnOk result (string_bytes text.new ≡ string_bytes text.old ++ summary_with all counts.now.done counts.now.refused counts.now.unsettled) }
{
    let done = counts.done;
    let refused = counts.refused;
    let unsettled = counts.unsettled;
    write!(text, "jobs {all} done {done}")?;
    write!(text, " refused {refused} unsettled {unsettled}\n")?;
    Ok(())
}

/// How many jobs stand in each way.
#[derive(Drop)]
struct JobCounts {
    done: usize,
    refused: usize,
    unsettled: usize,
}

fn count_jobs(jobs: &[Job], lanes: &[LaneBook<'_>]) -> JobCounts
    requires { 0 < length lanes.now }
    ensures done { result.done ≡ jobs_that is_done lanes.now jobs.now }
    ensures refused { result.refused ≡ jobs_that is_refused lanes.now jobs.now }
    ensures unsettled { result.unsettled ≡ jobs_that is_unsettled lanes.now jobs.now }
{
    let mut done = 0;
    let mut refused = 0;
    let mut unsettled = 0;
    for job in jobs {
        let looked = book_of(lanes, job.keyset).look(job.id);
        done += usize::from(is_done(&looked));
        refused += usize::from(is_refused(&looked));
        unsettled += usize::from(is_unsettled(&looked));
    }
    JobCounts {
        done,
        refused,
        unsettled,
    }
}

fn is_done(looked: &Looked) -> bool
    ensures { result ≡ is_done looked.now }
{
    matches!(looked, Looked::Done(..))
}

fn is_refused(looked: &Looked) -> bool
    ensures { result ≡ is_refused looked.now }
{
    matches!(looked, Looked::Refused(..))
}

fn is_unsettled(looked: &Looked) -> bool
    ensures { result ≡ is_unsettled looked.now }
{
    matches!(looked, Looked::New | Looked::Unsettled(..))
}
