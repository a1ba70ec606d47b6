//! Senders that share lanes.
ghost use Rattle.std.specs.Prelude.{◌≡◌, ℕ, ◌+◌, ◌-◌, ◌≤◌, ◌<◌, [], ◌++◌, length, map, List, All, None, Some, IsSomeAnd, slice_index_or, vec_len, vec_capacity};
ghost use Rattle.crossbeam_queue.specs.Passes.{view, IsPassOf};
ghost use Rattle.lane_lock.specs.Numbers.{Each, same, total, within};
ghost use Rattle.senders.specs.Bench.{hand, KnowsAll};
ghost use Rattle.lane_lock.specs.Locks.{IsOf, first_numbers};
ghost use Rattle.senders.specs.Desks.{AreLocks, AreJoined, IsDesk, IsJoined, IsReady, IsSeated};
ghost use Rattle.senders.specs.Pieces.{EachBeside, IsPiece};
ghost use Rattle.senders.specs.declared.pieces.Work.{Work as Piece};

use crate::benches::{Bench, Pass, Terms};
use crate::desks::{Desk, Row};
use crate::gates::Gate;
use crate::passes::{split, take, unite};
use crate::rows::serve_piece;
use lane_engine::Lane;
use lane_lock::{LaneLock, Seat};
use ota_io::Clock;
use site_model::Site;
use std::sync::Wait;
use std::thread;
use std::thread::Threads;

/// A desk for each row, in order of the senders' numbers, each with a pass of the queue. There is room for them.
pub(crate) fn seat_all<P: Terms, T: Site>(
    bench: &Bench<P>,
    pass: &mut Pass,
    rows: Vec<Row<T>>,
    desks: Vec<Desk<T>>,
) -> Vec<Desk<T>>
    requires pass { IsPassOf bench.now pass.old × (view pass.old ≡ hand 1024 P.works []) }
    requires few { vec_len rows ≤ 64 }
    requires room { (desks.items ≡ []) × (vec_len rows ≤ vec_capacity desks) }
    ensures pass { IsPassOf bench.now pass.new × (view pass.new ≡ hand (1024 - vec_len rows) P.works []) }
    ensures desks { EachBeside (λ place row desk. (desk.number ≡ place + 1) × (desk.row ≡ row) × (desk.refused ≡ None) × IsPassOf bench.now desk.pass × (view desk.pass ≡ hand 1 [] [])) 0 rows.items result.items }
{
    let mut desks = desks;
    let mut number = 0;
    let mut left = rows.into_iter();
    while let Some(row) = left.next() {
        number += 1;
        desks.push_reserved(Desk {
            number,
            pass: split(bench, pass),
            row,
            refused: None,
        });
    }
    desks
}

/// Each sender serves pieces in a thread of its own, until the queue is empty. Afterwards one desk has what all had.
pub(crate) fn share<P: Terms + Send + Sync, T: Site, G: Gate, C: Clock, R: Threads + Wait + Sync>(
    rt: &R,
    bench: &Bench<P>,
    pass: Pass,
    locks: &[LaneLock<Lane<T>>],
    desks: Vec<Desk<T>>,
    gate: &G,
    clock: &C,
) -> Desk<T>
    requires pieces { (P.batch ≤ 16) × Each (IsPiece P.batch (length locks.now)) P.works }
    requires locks { AreLocks P.batch locks.now }
    requires pass { IsPassOf bench.now pass × (view pass ≡ hand (1024 - vec_len desks) P.works []) }
    requires senders { (1 ≤ vec_len desks) × (vec_len desks ≤ 64) }
    requires numbers { map (λ desk. desk.number) desks.items ≡ first_numbers (vec_len desks) }
    requires desks { All (λ desk. IsPassOf bench.now desk.pass × IsReady P.works locks.now desk.number (view desk.pass) desk.row.items desk.refused) desks.items }
    ensures desk { IsDesk P.works (within 1 (vec_len desks + 1)) (view result.pass).taken locks.now result.row.items result.refused }
    ensures whole { (h : Piece → ℕ) → total h P.works ≡ total h (view result.pass).taken }
{
    let mut desks = desks;
    run(rt, bench, locks, desks.as_mut_slice(), gate, clock);
    let mut all = join_all(bench, pass, locks, desks);
    serve_all(rt, bench, locks, &mut all, gate, clock);
    all
}

/// Each sender takes pieces in a thread of its own.
fn run<P: Terms + Send + Sync, T: Site, G: Gate, C: Clock, R: Threads + Wait + Sync>(
    rt: &R,
    bench: &Bench<P>,
    locks: &[LaneLock<Lane<T>>],
    desks: &mut [Desk<T>],
    gate: &G,
    clock: &C,
)
    requires some { 1 ≤ length desks.old }
    requires pieces { (P.batch ≤ 16) × Each (IsPiece P.batch (length locks.now)) P.works }
    requires locks { AreLocks P.batch locks.now }
    requires desks { All (λ desk. IsPassOf bench.now desk.pass × IsReady P.works locks.now desk.number (view desk.pass) desk.row.items desk.refused) desks.old }
    ensures numbers { (place : ℕ) (desk : _) → place < length desks.old → (slice_index_or desks.new place desk).number ≡ (slice_index_or desks.old place desk).number }
    ensures desks { All (λ desk. IsPassOf bench.now desk.pass × IsReady P.works locks.now desk.number (view desk.pass) desk.row.items desk.refused) desks.new }
{
    let part = move |_: usize, desk: &mut Desk<T>|
        requires { (P.batch ≤ 16) × Each (IsPiece P.batch (length locks.now)) P.works × AreLocks P.batch locks.now × IsPassOf bench.now desk.now.pass × IsReady P.works locks.now desk.now.number (view desk.now.pass) desk.now.row.items desk.now.refused }
        ensures { IsPassOf bench.entry.now desk.exit.now.pass × IsReady P.works locks.entry.now desk.exit.now.number (view desk.exit.now.pass) desk.exit.now.row.items desk.exit.now.refused × (desk.exit.now.number ≡ desk.entry.now.number) }
    { serve_all(rt, bench, locks, desk, gate, clock) };
    let threads = desks.len();
    thread::for_each_mut(rt, desks, threads, &part);
}

/// Takes pieces from the queue, and serves each, until the queue is empty.
fn serve_all<P: Terms, T: Site, G: Gate, C: Clock, R: Wait>(
    rt: &R,
    bench: &Bench<P>,
    locks: &[LaneLock<Lane<T>>],
    desk: &mut Desk<T>,
    gate: &G,
    clock: &C,
)
    requires pieces { (P.batch ≤ 16) × Each (IsPiece P.batch (length locks.now)) P.works }
    requires locks { AreLocks P.batch locks.now }
    requires pass { IsPassOf bench.now desk.old.pass × (0 < (view desk.old.pass).parts) }
    requires seated { IsSeated locks.now desk.old.row.items }
    ensures pass { IsPassOf bench.now desk.new.pass × ((view desk.new.pass).parts ≡ (view desk.old.pass).parts) × ((view desk.new.pass).put ≡ (view desk.old.pass).put) }
    ensures number { desk.new.number ≡ desk.old.number }
    ensures desk { (numbers : ℕ → ℕ) → IsDesk P.works numbers (view desk.old.pass).taken locks.now desk.old.row.items desk.old.refused → IsDesk P.works numbers (view desk.new.pass).taken locks.now desk.new.row.items desk.new.refused }
    ensures empty { KnowsAll (view desk.new.pass) }
{
    for _ in rt.forever() {
        match take(rt, bench, &mut desk.pass) {
            Some(piece) => serve_piece::<P, T, G, C, R>(rt, locks, desk, &piece, gate, clock),
            None => return,
        }
    }
    unreachable!()
}

/// Joins all desks, and the pass of the session, into one.
fn join_all<P: Terms, T: Site>(
    bench: &Bench<P>,
    pass: Pass,
    locks: &[LaneLock<Lane<T>>],
    desks: Vec<Desk<T>>,
) -> Desk<T>
    requires pass { IsPassOf bench.now pass × ((view pass).taken ≡ []) }
    requires some { 1 ≤ vec_len desks }
    requires desks { All (λ desk. IsPassOf bench.now desk.pass × IsReady P.works locks.now desk.number (view desk.pass) desk.row.items desk.refused) desks.items }
    ensures pass { IsPassOf bench.now result.pass × ((view result.pass).parts ≡ (view pass).parts + length desks.items) }
    ensures seated { IsSeated locks.now result.row.items }
    ensures put { (h : Piece → ℕ) → total h (view result.pass).put ≡ total h (view pass).put }
    ensures desk { (numbers : ℕ → ℕ) → ((n : ℕ) → total (same n) (map (λ desk. desk.number) desks.items) ≡ numbers n) → IsDesk P.works numbers (view result.pass).taken locks.now result.row.items result.refused }
{
    let mut rest = desks;
    match rest.pop() {
        Some(first) => {
            let mut all = first;
            unite(bench, &mut all.pass, pass);
            join_rest(bench, locks, all, rest)
        }
        None => unreachable!(),
    }
}

/// Joins all these desks into one.
fn join_rest<P: Terms, T: Site>(
    bench: &Bench<P>,
    locks: &[LaneLock<Lane<T>>],
    all: Desk<T>,
    rest: Vec<Desk<T>>,
) -> Desk<T>
    requires pass { IsPassOf bench.now all.pass × (0 < (view all.pass).parts) }
    requires seated { IsSeated locks.now all.row.items }
    requires desks { All (λ desk. IsPassOf bench.now desk.pass × IsReady P.works locks.now desk.number (view desk.pass) desk.row.items desk.refused) rest.items }
    ensures pass { IsPassOf bench.now result.pass × ((view result.pass).parts ≡ (view all.pass).parts + length rest.items) }
    ensures put { (h : Piece → ℕ) → total h (view result.pass).put ≡ total h (view all.pass).put }
    ensures seated { IsSeated locks.now result.row.items }
    ensures desk { (numbers others : ℕ → ℕ) → IsDesk P.works numbers (view all.pass).taken locks.now all.row.items all.refused → ((n : ℕ) → numbers n + total (same n) (map (λ desk. desk.number) rest.items) ≡ others n) → IsDesk P.works others (view result.pass).taken locks.now result.row.items result.refused }
{
    let mut all = all;
    let mut rest = rest;
    while let Some(desk) = rest.pop() {
        join(bench, locks, &mut all, desk);
    }
    all
}

/// Joins a desk into another.
fn join<P: Terms, T: Site>(
    bench: &Bench<P>,
    locks: &[LaneLock<Lane<T>>],
    all: &mut Desk<T>,
    desk: Desk<T>,
)
    requires passes { IsPassOf bench.now all.old.pass × IsPassOf bench.now desk.pass × (0 < (view all.old.pass).parts) }
    requires seated { IsSeated locks.now all.old.row.items × IsSeated locks.now desk.row.items }
    ensures pass { IsPassOf bench.now all.new.pass × (view all.new.pass ≡ hand ((view all.old.pass).parts + (view desk.pass).parts) ((view all.old.pass).put ++ (view desk.pass).put) ((view all.old.pass).taken ++ (view desk.pass).taken)) }
    ensures seated { IsSeated locks.now all.new.row.items }
    ensures joined { (numbers others : ℕ → ℕ) → IsDesk P.works numbers (view all.old.pass).taken locks.now all.old.row.items all.old.refused → IsDesk P.works others (view desk.pass).taken locks.now desk.row.items desk.refused → IsDesk P.works (λ n. numbers n + others n) (view all.new.pass).taken locks.now all.new.row.items all.new.refused }
{
    let Desk {
        number: _,
        pass,
        row,
        refused,
    } = desk;
    unite(bench, &mut all.pass, pass);
    join_rows(locks, &mut all.row, row);
    all.refused = all.refused.take().or(refused);
}

/// Joins each seat of a row into the one at its place.
pub(crate) fn join_rows<T: Site>(locks: &[LaneLock<Lane<T>>], all: &mut Row<T>, mut row: Row<T>)
    requires seated { IsSeated locks.now all.old.items × IsSeated locks.now row.items }
    ensures joined { AreJoined locks.now all.old.items row.items all.new.items }
{
    for place in 0..locks.len() {
        match row[place].take() {
            Some(other) => join_seat(&locks[place], &mut all[place], other),
            None => unreachable!(),
        }
    }
}

/// Joins a seat into another of the same lock.
fn join_seat<T: Site>(
    lock: &LaneLock<Lane<T>>,
    seat: &mut Option<Seat<Lane<T>>>,
    other: Seat<Lane<T>>,
)
    requires of { IsSomeAnd seat.old (IsOf lock.now) × IsOf lock.now other }
    ensures { IsJoined lock.now seat.old (Some other) seat.new }
{
    match seat {
        Some(seat) => lock.join(seat, other),
        None => unreachable!(),
    }
}
