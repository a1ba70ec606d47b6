//! Jobs in pieces.

ghost use Rattle.std.specs.Prelude.{◌≡◌, ◌<◌, ◌≤◌, ◌^◌, ◌%◌, length, get_or, set, [], ◌∷◌, ◌++◌, IfOk, OnOk};
ghost use Rattle.campaigns.specs.WorkList.{lane_of, pieces_of};
ghost use Rattle.campaigns.specs.Batching.{no_piece, piece_at, joined, works_with, end_behind};

use ota_core::{CardId, Job, Memory};
use senders::{JobList, Work};
use std::alloc::Global;

/// Where a lane's next job goes.
#[derive(Clone, Copy)]
pub(crate) struct LaneEnd {
    /// How many more jobs the lane's last piece takes.
    room: usize,
    /// The place of that piece, where it takes any.
    piece: usize,
}

/// The jobs in pieces of at most `size`, each of one lane, in order of their first jobs.
pub(crate) fn in_pieces(
    alloc: Global,
    jobs: JobList,
    lanes: usize,
    size: usize,
) -> Result<Vec<Work>, Memory>
    requires lanes { 0 < lanes }
    requires few { lanes ≤ 2 ^ 32 }
    requires size { 0 < size }
    ensures { IfOk result (λ works. works.items ≡ pieces_of lanes size [] jobs) }
{
    let no_piece = LaneEnd { room: 0, piece: 0 };
    let mut ends = vec![in alloc; no_piece; lanes]?;
    let mut works = Vec::new(alloc);
    for job in jobs.into_vec() {
        put(alloc, &mut works, &mut ends, size, job)?;
    }
    Ok(works)
}

/// Puts a job into the last piece of its lane, or begins a new one with it.
fn put(
    alloc: Global,
    works: &mut Vec<Work>,
    ends: &mut Vec<LaneEnd>,
    size: usize,
    job: Job,
) -> Result<(), Memory>
    requires lanes { 0 < length ends.old.items }
    requires few { length ends.old.items ≤ 2 ^ 32 }
    requires size { 0 < size }
    requires there { 0 < (get_or ends.old.items (lane_of (length ends.old.items) job) no_piece).room → (get_or ends.old.items (lane_of (length ends.old.items) job) no_piece).piece < length works.old.items }
    ensures works { OnOk result (works.new.items ≡ works_with (lane_of (length ends.old.items) job) job (get_or ends.old.items (lane_of (length ends.old.items) job) no_piece) works.old.items) }
    ensures ends { ends.new.items ≡ set ends.old.items (lane_of (length ends.old.items) job) (end_behind size (length works.old.items) (get_or ends.old.items (lane_of (length ends.old.items) job) no_piece)) }
{
    let lane = lane_of(job.keyset.card, ends.len());
    let end = ends[lane];
    ends[lane] = end_behind(size, works.len(), end);
    if end.room == 0 {
        begin(alloc, works, lane, job)?;
    } else {
        join(works, end.piece, job)?;
    }
    Ok(())
}

/// The lane of a card, from 0.
fn lane_of(card: CardId, lanes: usize) -> usize
    requires { 0 < lanes }
    ensures lane { result ≡ card.0 % lanes }
    ensures within { result < lanes }
{
    (card.0 % lanes as u64) as usize
}

/// Where the lane's next job goes behind one that went there, where there were so many pieces.
fn end_behind(size: usize, pieces: usize, end: LaneEnd) -> LaneEnd
    requires { 0 < size }
    ensures { result ≡ end_behind size pieces end }
{
    if end.room == 0 {
        return LaneEnd {
            room: size - 1,
            piece: pieces,
        };
    }
    LaneEnd {
        room: end.room - 1,
        piece: end.piece,
    }
}

/// Begins a piece with the job.
fn begin(alloc: Global, works: &mut Vec<Work>, lane: usize, job: Job) -> Result<(), Memory>
    requires { lane < 2 ^ 32 }
    ensures { OnOk result (works.new.items ≡ works.old.items ++ record { lane = lane; jobs = job ∷ [] } ∷ []) }
{
    let mut jobs = JobList::new(alloc);
    jobs.push(job)?;
    works.push(Work {
        lane: lane as u32,
        jobs,
    })?;
    Ok(())
}

/// Puts the job into a piece.
fn join(works: &mut [Work], piece: usize, job: Job) -> Result<(), Memory>
    requires { piece < length works.old }
    ensures { OnOk result (works.new ≡ set works.old piece (joined (piece_at works.old piece) job)) }
{
    works[piece].jobs.push(job)
}
