//! The memory of a session's work, taken before anything is done.

ghost use Rattle.std.specs.Prelude.{◌≡◌, ◌≤◌, [], All, IfOk, vec_len, vec_capacity};
ghost use Rattle.crossbeam_queue.specs.Passes.{view, IsPassOf, ruled_capacity};
ghost use Rattle.senders.specs.Bench.{hand};

use crate::benches::{Bench, Pass, Terms};
use crate::desks::{Desk, Row};
use crate::passes::make_bench;
use lane_engine::{Lane, LaneErr};
use lane_lock::{Kept, LaneLock};
use ota_core::Memory;
use site_model::Site;
use std::alloc::Global;

/// Where lanes lie while they are shared: a lock for each, and a row of seats for each sender.
#[derive(Drop)]
pub(crate) struct Hall<T: Site>
where
    Lane<T>: Kept,
{
    pub(crate) locks: Vec<LaneLock<Lane<T>>>,
    pub(crate) rows: Vec<Row<T>>,
    /// Room for the lanes when they come out.
    pub(crate) back: Vec<Lane<T>>,
}

/// All memory but that of the locks: the queue with its whole pass, the hall, and room for the senders' desks and for the ends
/// of the lanes.
#[derive(Drop)]
pub(crate) struct Room<P: Terms, T: Site>
where
    Lane<T>: Kept,
{
    pub(crate) bench: Bench<P>,
    pub(crate) pass: Pass,
    pub(crate) hall: Hall<T>,
    pub(crate) desks: Vec<Desk<T>>,
    pub(crate) ends: Vec<Option<LaneErr>>,
}

/// Room for so many lanes, pieces of work and senders.
pub(crate) fn make_room<P: Terms, T: Site>(
    alloc: Global,
    lanes: usize,
    pieces: usize,
    senders: u32,
) -> Result<Room<P, T>, Memory>
    ensures queue { IfOk result (λ room. (pieces ≤ ruled_capacity room.bench) × IsPassOf room.bench room.pass × (view room.pass ≡ hand 1024 [] [])) }
    ensures hall { IfOk result (λ room. (room.hall.locks.items ≡ []) × (lanes ≤ vec_capacity room.hall.locks) × (vec_len room.hall.rows ≡ senders) × All (λ row. (row.items ≡ []) × (lanes ≤ vec_capacity row)) room.hall.rows.items × (room.hall.back.items ≡ []) × (lanes ≤ vec_capacity room.hall.back)) }
    ensures desks { IfOk result (λ room. (room.desks.items ≡ []) × (senders ≤ vec_capacity room.desks)) }
    ensures ends { IfOk result (λ room. (room.ends.items ≡ []) × (lanes ≤ vec_capacity room.ends)) }
{
    let (bench, pass) = make_bench(alloc, pieces)?;
    Ok(Room {
        bench,
        pass,
        hall: make_hall(alloc, lanes, senders)?,
        desks: Vec::with_capacity(alloc, senders as usize)?,
        ends: Vec::with_capacity(alloc, lanes)?,
    })
}

/// Room for the locks of so many lanes, for a seat at each in a row for each sender, and for the lanes.
fn make_hall<T: Site>(alloc: Global, lanes: usize, senders: u32) -> Result<Hall<T>, Memory>
    ensures { IfOk result (λ hall. (hall.locks.items ≡ []) × (lanes ≤ vec_capacity hall.locks) × (vec_len hall.rows ≡ senders) × All (λ row. (row.items ≡ []) × (lanes ≤ vec_capacity row)) hall.rows.items × (hall.back.items ≡ []) × (lanes ≤ vec_capacity hall.back)) }
{
    let mut rows = Vec::with_capacity(alloc, senders as usize)?;
    for _ in 0..senders {
        rows.push_reserved(Vec::with_capacity(alloc, lanes)?);
    }
    Ok(Hall {
        locks: Vec::with_capacity(alloc, lanes)?,
        rows,
        back: Vec::with_capacity(alloc, lanes)?,
    })
}
