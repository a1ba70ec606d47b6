//! The work of a session: lanes that senders share, then lanes of one sender each.

ghost use Rattle.std.specs.Prelude.{◌≡◌, ℕ, ◌+◌, ◌-◌, ◌<◌, ◌≤◌, [], length, map, slice_index_or, All, None, IfOk, IfErr, vec_capacity, vec_len};
ghost use Rattle.crossbeam_queue.specs.Passes.{view, IsPassOf, ruled_capacity};
ghost use Rattle.lane_lock.specs.Locks.{key_of};
ghost use Rattle.lane_lock.specs.Numbers.{same, Each};
ghost use Rattle.lane_engine.specs.Reserving.{JobsDiffer};
ghost use Rattle.senders.specs.Alone.{IsWorkedAlone, MayBeAlone};
ghost use Rattle.senders.specs.Bench.{hand};
ghost use Rattle.senders.specs.Desks.{IsRow, put_in};
ghost use Rattle.senders.specs.Pieces.{EachAt, EachBeside, IsPiece, IsWatch, MayBeWorked, all_jobs};
ghost use Rattle.senders.specs.Worked.{IsShared, IsWorked, IsUntouched};

use crate::alone::{ends_of, work_alone};
use crate::benches::{Bench, Pass, Terms};
use crate::desks::{Desk, Row};
use crate::gates::Gate;
use crate::locking::{close_all, lock_all};
use crate::passes::put_all;
use crate::pieces::Work;
use crate::rooms::{Hall, Room, make_room};
use crate::settings::Settings;
use crate::sharing::{seat_all, share};
use lane_engine::{Lane, LaneErr};
use ota_core::JobId;
use ota_io::Clock;
use site_model::Site;
use std::alloc::Global;
use std::marker::Brand;
use std::sync::Wait;
use std::thread::Threads;

/// What a session's work leaves: the lanes, in order, and their ends.
#[derive(Drop)]
pub struct Worked<T: Site> {
    pub lanes: Vec<Lane<T>>,
    pub ends: Vec<Option<LaneErr>>,
}

/// Runs the work on the lanes by so many senders, and hands the lanes back, in order.
///
/// First the senders share the lanes. Each takes a piece of work from the queue, passes the gate, and takes the piece's lane
/// for one hold: it reserves and sends the jobs and polls once, or does nothing where the lane has an end. So it goes on
/// until the queue is empty. Want of memory, a fault of the site or want of room becomes the lane's end.
///
/// Then lane i belongs to sender i modulo the count of senders plus 1, which makes rounds 0 to `resends` on it, unless it
/// has an end: it sends each watched job of the lane that is reserved and unsettled on an open keyset once more, but none
/// in round 0, and polls `polls` times for each. A refusal becomes the lane's end; the other lanes go on.
///
/// Sender i makes entries under the number i, from 1. `Err` is want of memory before anything was done.
pub fn work<T: Site, G: Gate, C: Clock, R: Threads + Wait + Sync>(
    rt: &R,
    alloc: Global,
    lanes: Vec<Lane<T>>,
    work: Vec<Work>,
    watch: &[(u32, JobId)],
    settings: &Settings,
    gate: &G,
    clock: &C,
) -> Result<Worked<T>, Vec<Lane<T>>>
    requires senders { (1 ≤ settings.now.senders) × (settings.now.senders ≤ 64) }
    requires batch { (1 ≤ settings.now.batch) × (settings.now.batch ≤ 16) }
    requires lanes { EachAt (MayBeWorked T.told T.counts T.port T.lines settings.now.batch (vec_len lanes) work.items) 0 lanes.items }
    requires pieces { All (IsPiece settings.now.batch (vec_len lanes)) work.items }
    requires differ { JobsDiffer (all_jobs work.items) }
    requires watch { IsWatch (vec_len lanes) watch.now }
    ensures worked { IfOk result (λ worked. EachBeside (IsWorked T.told T.counts T.port T.lines settings.now work.items watch.now) 0 lanes.items worked.lanes.items) }
    ensures ends { IfOk result (λ worked. worked.ends.items ≡ map (λ lane. lane.end) worked.lanes.items) }
    ensures untouched { IfErr result (λ back. EachBeside (IsUntouched T.told T.counts T.port T.lines settings.now.batch) 0 lanes.items back.items) }
{
    work_under::<Brand, T, G, C, R>(rt, alloc, lanes, work, watch, settings, gate, clock)
}

/// The same, on terms that contracts name.
fn work_under<P: Terms + Send + Sync, T: Site, G: Gate, C: Clock, R: Threads + Wait + Sync>(
    rt: &R,
    alloc: Global,
    lanes: Vec<Lane<T>>,
    work: Vec<Work>,
    watch: &[(u32, JobId)],
    settings: &Settings,
    gate: &G,
    clock: &C,
) -> Result<Worked<T>, Vec<Lane<T>>>
    requires terms { (P.works ≡ work.items) × (P.batch ≡ settings.now.batch) }
    requires senders { (1 ≤ settings.now.senders) × (settings.now.senders ≤ 64) }
    requires batch { (1 ≤ settings.now.batch) × (settings.now.batch ≤ 16) }
    requires lanes { EachAt (MayBeWorked T.told T.counts T.port T.lines settings.now.batch (vec_len lanes) work.items) 0 lanes.items }
    requires pieces { All (IsPiece settings.now.batch (vec_len lanes)) work.items }
    requires differ { JobsDiffer (all_jobs work.items) }
    ensures worked { IfOk result (λ worked. EachBeside (IsWorked T.told T.counts T.port T.lines settings.now work.items watch.now) 0 lanes.items worked.lanes.items) }
    ensures ends { IfOk result (λ worked. worked.ends.items ≡ map (λ lane. lane.end) worked.lanes.items) }
    ensures untouched { IfErr result (λ back. EachBeside (IsUntouched T.told T.counts T.port T.lines settings.now.batch) 0 lanes.items back.items) }
{
    match make_room::<P, T>(alloc, lanes.len(), work.len(), settings.senders) {
        Ok(room) => work_in(rt, alloc, room, lanes, work, watch, settings, gate, clock),
        Err(_) => Err(lanes),
    }
}

/// The same, in the room that was made for it.
fn work_in<P: Terms + Send + Sync, T: Site, G: Gate, C: Clock, R: Threads + Wait + Sync>(
    rt: &R,
    alloc: Global,
    room: Room<P, T>,
    lanes: Vec<Lane<T>>,
    work: Vec<Work>,
    watch: &[(u32, JobId)],
    settings: &Settings,
    gate: &G,
    clock: &C,
) -> Result<Worked<T>, Vec<Lane<T>>>
    requires queue { (vec_len work ≤ ruled_capacity room.bench) × IsPassOf room.bench room.pass × (view room.pass ≡ hand 1024 [] []) }
    requires hall { (room.hall.locks.items ≡ []) × (vec_len lanes ≤ vec_capacity room.hall.locks) × (vec_len room.hall.rows ≡ settings.now.senders) × All (λ row. (row.items ≡ []) × (vec_len lanes ≤ vec_capacity row)) room.hall.rows.items × (room.hall.back.items ≡ []) × (vec_len lanes ≤ vec_capacity room.hall.back) }
    requires desks { (room.desks.items ≡ []) × (settings.now.senders ≤ vec_capacity room.desks) }
    requires ends { (room.ends.items ≡ []) × (vec_len lanes ≤ vec_capacity room.ends) }
    requires terms { (P.works ≡ work.items) × (P.batch ≡ settings.now.batch) }
    requires senders { (1 ≤ settings.now.senders) × (settings.now.senders ≤ 64) }
    requires batch { (1 ≤ settings.now.batch) × (settings.now.batch ≤ 16) }
    requires lanes { EachAt (MayBeWorked T.told T.counts T.port T.lines settings.now.batch (vec_len lanes) work.items) 0 lanes.items }
    requires pieces { All (IsPiece settings.now.batch (vec_len lanes)) work.items }
    requires differ { JobsDiffer (all_jobs work.items) }
    ensures worked { IfOk result (λ worked. EachBeside (IsWorked T.told T.counts T.port T.lines settings.now work.items watch.now) 0 lanes.items worked.lanes.items) }
    ensures ends { IfOk result (λ worked. worked.ends.items ≡ map (λ lane. lane.end) worked.lanes.items) }
    ensures untouched { IfErr result (λ back. EachBeside (IsUntouched T.told T.counts T.port T.lines settings.now.batch) 0 lanes.items back.items) }
{
    let Room {
        bench,
        pass,
        hall,
        desks,
        ends,
    } = room;
    match lock_all(alloc, lanes, hall, settings.batch) {
        Ok(hall) => {
            let lanes = work_shared(rt, bench, pass, hall, desks, work, gate, clock);
            Ok(work_apart(rt, lanes, ends, watch, settings, clock))
        }
        Err(lanes) => Err(lanes),
    }
}

/// The senders share the lanes, which then come out of their locks.
fn work_shared<P: Terms + Send + Sync, T: Site, G: Gate, C: Clock, R: Threads + Wait + Sync>(
    rt: &R,
    bench: Bench<P>,
    pass: Pass,
    hall: Hall<T>,
    desks: Vec<Desk<T>>,
    work: Vec<Work>,
    gate: &G,
    clock: &C,
) -> Vec<Lane<T>>
    requires terms { (P.works ≡ work.items) × (P.batch ≤ 16) }
    requires queue { (vec_len work ≤ ruled_capacity bench) × IsPassOf bench pass × (view pass ≡ hand 1024 [] []) }
    requires rows { (1 ≤ vec_len hall.rows) × (vec_len hall.rows ≤ 64) × EachAt (λ place row. IsRow (λ n. same n (place + 1)) [] [] hall.locks.items row.items) 0 hall.rows.items }
    requires locks { Each (λ lock. ((key_of lock).pace ≡ P.batch) × ((key_of lock).seats ≡ vec_len hall.rows)) hall.locks.items }
    requires back { (hall.back.items ≡ []) × (vec_len hall.locks ≤ vec_capacity hall.back) }
    requires desks { (desks.items ≡ []) × (vec_len hall.rows ≤ vec_capacity desks) }
    requires lanes { EachAt (MayBeWorked T.told T.counts T.port T.lines P.batch (vec_len hall.locks) work.items) 0 (map put_in hall.locks.items) }
    requires pieces { All (IsPiece P.batch (vec_len hall.locks)) work.items }
    requires differ { JobsDiffer (all_jobs work.items) }
    ensures { EachBeside (IsShared T.told T.counts T.port T.lines P.batch (vec_len hall.rows) work.items) 0 (map put_in hall.locks.items) result.items }
{
    let Hall { locks, rows, back } = hall;
    let mut pass = pass;
    let desks = seat_senders(rt, &bench, &mut pass, work, rows, desks);
    let Desk {
        number: _,
        pass: _pass,
        row,
        refused,
    } = share(rt, &bench, pass, locks.as_slice(), desks, gate, clock);
    let lanes = close_all(locks, row, back);
    // by what is known of the lanes that came out, no hold was refused
    if refused.is_some() {
        unreachable!()
    }
    lanes
}

/// Puts all pieces into the queue, and makes a desk for each row of seats.
fn seat_senders<P: Terms, T: Site, R: Wait>(
    rt: &R,
    bench: &Bench<P>,
    pass: &mut Pass,
    work: Vec<Work>,
    rows: Vec<Row<T>>,
    desks: Vec<Desk<T>>,
) -> Vec<Desk<T>>
    requires terms { P.works ≡ work.items }
    requires queue { (vec_len work ≤ ruled_capacity bench.now) × IsPassOf bench.now pass.old × (view pass.old ≡ hand 1024 [] []) }
    requires few { vec_len rows ≤ 64 }
    requires room { (desks.items ≡ []) × (vec_len rows ≤ vec_capacity desks) }
    ensures pass { IsPassOf bench.now pass.new × (view pass.new ≡ hand (1024 - vec_len rows) P.works []) }
    ensures desks { EachBeside (λ place row desk. (desk.number ≡ place + 1) × (desk.row ≡ row) × (desk.refused ≡ None) × IsPassOf bench.now desk.pass × (view desk.pass ≡ hand 1 [] [])) 0 rows.items result.items }
{
    put_all(rt, bench, pass, work);
    seat_all(bench, pass, rows, desks)
}

/// Makes the rounds on each lane, which one sender has by itself.
fn work_apart<T: Site, C: Clock, R: Threads + Sync>(
    rt: &R,
    lanes: Vec<Lane<T>>,
    ends: Vec<Option<LaneErr>>,
    watch: &[(u32, JobId)],
    settings: &Settings,
    clock: &C,
) -> Worked<T>
    requires senders { 1 ≤ settings.now.senders }
    requires may { All (MayBeAlone T.counts) lanes.items }
    requires room { (ends.items ≡ []) × (vec_len lanes ≤ vec_capacity ends) }
    ensures same { length result.lanes.items ≡ length lanes.items }
    ensures alone { (place : ℕ) (lane : _) → place < length lanes.items → IsWorkedAlone T.told T.counts T.port T.lines settings.now place watch.now (slice_index_or lanes.items place lane) (slice_index_or result.lanes.items place lane) }
    ensures ends { result.ends.items ≡ map (λ lane. lane.end) result.lanes.items }
{
    let mut lanes = lanes;
    work_alone(rt, lanes.as_mut_slice(), watch, settings, clock);
    let ends = ends_of(lanes.as_slice(), ends);
    Worked { lanes, ends }
}
