ghost use Rattle.std.specs.Prelude.{◌≡◌, ◌<◌, ◌≤◌, ◌^◌, List, All, length, IsTrue, IfOk};
ghost use Rattle.ota_core.specs.declared.entries.Entry.{Entry};
ghost use Rattle.plan_reader.specs.Jobs.{are_distinct};
ghost use Rattle.campaigns.specs.WorkList.{AreBooksOf, remaining_jobs, work_of};
ghost use Rattle.campaigns.specs.Workable.{HasScript, IsWorkable};

use crate::batches::in_pieces;
use crate::remaining::remaining_jobs;
use keyset_book::Book;
use ota_core::{Job, Memory};
use senders::Work;
use std::alloc::Global;

/// The work list of a campaign's jobs, by the books of the lanes in their order.
///
/// It leaves out the jobs that are done or unsettled, refused ones unless `retry`, those on keysets that aren't open,
/// and those for which no counter of their keyset is left. A job is looked up in the book of its card's lane alone. The
/// others stand in order: each joins the last piece of its lane that has fewer than `batch` jobs, or else begins a new
/// piece, and the pieces stand in order of their first jobs. Where no two jobs have one number and each script has 1 to
/// 4,096 octets, senders may be given the pieces.
pub fn work_list(
    alloc: Global,
    jobs: &[Job],
    books: &[Book],
    retry: bool,
    batch: u32,
) -> Result<Vec<Work>, Memory>
    requires some { 0 < length books.now }
    requires few { length books.now ≤ 2 ^ 32 }
    ensures works { (histories : List (List Entry)) → AreBooksOf histories books.now → IfOk result (λ works. works.items ≡ work_of retry batch histories jobs.now) }
    ensures workable { (histories : List (List Entry)) → AreBooksOf histories books.now → 1 ≤ batch → IsTrue (are_distinct jobs.now) → All HasScript jobs.now
        → IfOk result (λ works. IsWorkable batch histories (remaining_jobs retry histories jobs.now) works.items) }
{
    let remaining = remaining_jobs(alloc, jobs, books, retry)?;
    in_pieces(alloc, remaining, books.len(), batch.max(1) as usize)
}
