//! How lanes are put into locks, and taken out.

ghost use Rattle.std.specs.Prelude.{◌≡◌, ℕ, ◌+◌, ◌<◌, ◌≤◌, [], ◌∷◌, ◌++◌, length, map, All, Some, IsSomeAnd, IfOk, IfErr, OnOk, slice_index_or, vec_len, vec_capacity};
ghost use Rattle.std.specs.Vec.Iter.{into_iter_items, into_iter_len};
ghost use Rattle.lane_lock.specs.Grown.{HasAll};
ghost use Rattle.lane_lock.specs.Locks.{IsOf, key_of, view_of};
ghost use Rattle.lane_lock.specs.Numbers.{same, Each};
ghost use Rattle.lane_engine.specs.Keeping.{IsAtHome};
ghost use Rattle.senders.specs.Desks.{AreClosed, AreLocksOf, HasLock, IsClosed, IsRow, MayClose, put_in};
ghost use Rattle.senders.specs.Pieces.{EachAt, EachBeside};
ghost use Rattle.senders.specs.Worked.{IsUntouched};

use crate::desks::Row;
use crate::rooms::Hall;
use crate::sharing::join_rows;
use lane_engine::Lane;
use lane_lock::{LaneLock, Seat};
use site_model::Site;
use std::alloc::Global;
use std::vec::IntoIter;

/// Puts each lane into a lock, and gives each row a seat at it. Where memory is wanting, the lanes come back, in order.
pub(crate) fn lock_all<T: Site>(
    alloc: Global,
    lanes: Vec<Lane<T>>,
    hall: Hall<T>,
    pace: u32,
) -> Result<Hall<T>, Vec<Lane<T>>>
    requires room { (hall.locks.items ≡ []) × (vec_len lanes ≤ vec_capacity hall.locks) × (hall.back.items ≡ []) × (vec_len lanes ≤ vec_capacity hall.back) }
    requires rows { (1 ≤ vec_len hall.rows) × (vec_len hall.rows ≤ 64) × All (λ row. (row.items ≡ []) × (vec_len lanes ≤ vec_capacity row)) hall.rows.items }
    requires lanes { All (IsAtHome T.told T.counts T.port T.lines pace) lanes.items }
    ensures locks { IfOk result (λ made. AreLocksOf lanes.items pace (vec_len hall.rows) made.locks.items) }
    ensures rows { IfOk result (λ made. (vec_len made.rows ≡ vec_len hall.rows) × EachAt (λ place row. IsRow (λ n. same n (place + 1)) [] [] made.locks.items row.items) 0 made.rows.items) }
    ensures back { IfOk result (λ made. (made.back.items ≡ []) × (vec_len lanes ≤ vec_capacity made.back)) }
    ensures untouched { IfErr result (λ back. EachBeside (IsUntouched T.told T.counts T.port T.lines pace) 0 lanes.items back.items) }
{
    let mut hall = hall;
    let mut lanes = lanes.into_iter();
    while let Some(lane) = lanes.next() {
        if let Err(lane) = lock_one(alloc, lane, &mut hall.locks, hall.rows.as_mut_slice(), pace) {
            return Err(put_back(unlock(hall), lane, lanes));
        }
    }
    Ok(hall)
}

/// These lanes, and behind them those that were put into no lock. There is room for them.
fn put_back<T: Site>(lanes: Vec<Lane<T>>, first: Lane<T>, rest: IntoIter<Lane<T>>) -> Vec<Lane<T>>
    requires room { vec_len lanes + 1 + into_iter_len rest ≤ vec_capacity lanes }
    ensures { result.items ≡ lanes.items ++ first ∷ into_iter_items rest }
{
    let mut lanes = lanes;
    lanes.push_reserved(first);
    let mut rest = rest;
    while let Some(lane) = rest.next() {
        lanes.push_reserved(lane);
    }
    lanes
}

/// Puts a lane into a lock, and gives each row a seat at it. Where memory is wanting, it comes back.
fn lock_one<T: Site>(
    alloc: Global,
    lane: Lane<T>,
    locks: &mut Vec<LaneLock<Lane<T>>>,
    rows: &mut [Row<T>],
    pace: u32,
) -> Result<(), Lane<T>>
    requires at_home { IsAtHome T.told T.counts T.port T.lines pace lane }
    requires senders { (1 ≤ length rows.old) × (length rows.old ≤ 64) }
    requires room { (vec_len locks.old < vec_capacity locks.old) × All (λ row. vec_len row < vec_capacity row) rows.old }
    ensures locks { OnOk result (HasLock lane pace (length rows.old) locks.old.items locks.new.items) }
    ensures room { (vec_capacity locks.new ≡ vec_capacity locks.old) × (length rows.new ≡ length rows.old) }
    ensures rows { OnOk result ((place : ℕ) (row : _) → place < length rows.old → (vec_capacity (slice_index_or rows.new place row) ≡ vec_capacity (slice_index_or rows.old place row)) × (IsRow (λ n. same n (place + 1)) [] [] locks.old.items (slice_index_or rows.old place row).items → IsRow (λ n. same n (place + 1)) [] [] locks.new.items (slice_index_or rows.new place row).items)) }
    ensures err { IfErr result (λ back. (back ≡ lane) × (locks.new ≡ locks.old) × (rows.new ≡ rows.old)) }
{
    match LaneLock::new(alloc, lane, pace, rows.len() as u32) {
        Ok((lock, seats)) => {
            locks.push_reserved(lock);
            deal(rows, seats);
            Ok(())
        }
        Err((lane, _)) => Err(lane),
    }
}

/// Gives each row the seat with the number of its sender.
fn deal<T: Site>(rows: &mut [Row<T>], mut seats: Vec<Seat<Lane<T>>>)
    requires seats { vec_len seats ≡ length rows.old }
    requires room { All (λ row. vec_len row < vec_capacity row) rows.old }
    ensures rows { length rows.new ≡ length rows.old }
    ensures dealt { (place : ℕ) (row : _) (seat : _) → place < length rows.old → (vec_capacity (slice_index_or rows.new place row) ≡ vec_capacity (slice_index_or rows.old place row)) × ((slice_index_or rows.new place row).items ≡ (slice_index_or rows.old place row).items ++ Some (slice_index_or seats.items place seat) ∷ []) }
{
    while let Some(seat) = seats.pop() {
        rows[seats.len()].push_reserved(Some(seat));
    }
}

/// Takes out the lanes that were put in, in order.
fn unlock<T: Site>(hall: Hall<T>) -> Vec<Lane<T>>
    requires some { 1 ≤ vec_len hall.rows }
    requires rows { (place : ℕ) (row : _) → place < vec_len hall.rows → IsRow (λ n. same n (place + 1)) [] [] hall.locks.items (slice_index_or hall.rows.items place row).items }
    requires seats { Each (λ lock. (key_of lock).seats ≡ vec_len hall.rows) hall.locks.items }
    requires room { (hall.back.items ≡ []) × (vec_len hall.locks ≤ vec_capacity hall.back) }
    ensures room { vec_capacity result ≡ vec_capacity hall.back }
    ensures count { vec_len result ≡ vec_len hall.locks }
    ensures untouched { (pace : ℕ) → Each (λ lock. (key_of lock).pace ≡ pace) hall.locks.items → EachBeside (IsUntouched T.told T.counts T.port T.lines pace) 0 (map put_in hall.locks.items) result.items }
{
    let Hall {
        locks,
        mut rows,
        back,
    } = hall;
    match rows.pop() {
        Some(last) => {
            let mut all = last;
            while let Some(row) = rows.pop() {
                join_rows(locks.as_slice(), &mut all, row);
            }
            close_all(locks, all, back)
        }
        None => unreachable!(),
    }
}

/// Takes each lane out of its lock, in order. The row has all seats of each lock.
pub(crate) fn close_all<T: Site>(
    locks: Vec<LaneLock<Lane<T>>>,
    row: Row<T>,
    lanes: Vec<Lane<T>>,
) -> Vec<Lane<T>>
    requires room { (lanes.items ≡ []) × (vec_len locks ≤ vec_capacity lanes) }
    requires all { MayClose locks.items row.items }
    ensures closed { AreClosed T.told T.counts T.port T.lines locks.items row.items result.items }
    ensures room { vec_capacity result ≡ vec_capacity lanes }
{
    let mut row = row;
    let mut lanes = lanes;
    let mut place = 0;
    let mut left = locks.into_iter();
    while let Some(lock) = left.next() {
        lanes.push_reserved(close_one(lock, row[place].take()));
        place += 1;
    }
    lanes
}

/// Takes the lane out of its lock by the seat that has all its numbers.
fn close_one<T: Site>(lock: LaneLock<Lane<T>>, seat: Option<Seat<Lane<T>>>) -> Lane<T>
    requires all { IsSomeAnd seat (λ s. IsOf lock s × HasAll (key_of lock) (view_of s)) }
    ensures { IsClosed T.told T.counts T.port T.lines lock seat result }
{
    match seat {
        Some(seat) => lock.close(seat),
        None => unreachable!(),
    }
}
