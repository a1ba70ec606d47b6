//! Threads that hold a `LaneLock` in turn.
ghost use Rattle.std.specs.Prelude.{◌≡◌, ℕ, ◌+◌, ◌<◌, ◌≤◌, All, IfOk, slice_index_or, vec_len};
ghost use Rattle.lane_lock.specs.Numbers.{total};
ghost use Rattle.lane_lock.specs.Views.{numbered};
ghost use Rattle.lane_lock.specs.Locks.{view_of, number_of, IsOf};

use crate::rows::Row;
use lane_lock::{LaneLock, Seat};
use std::alloc::{AllocError, Global};
use std::sync::Wait;
use std::thread;
use std::thread::Threads;

// Holds the lane once, and adds the seat's own number.
fn add_one<R: Wait>(rt: &R, lock: &LaneLock<Row>, seat: Seat<Row>) -> Seat<Row>
    requires { IsOf lock.now seat }
    ensures of { IsOf lock.now result }
    ensures numbers { (n : ℕ) → numbered n (view_of result).parts ≡ numbered n (view_of seat).parts }
{
    let number = seat.number();
    let (held, mut lane) = lock.hold(rt, seat);
    lane.add(number);
    lock.leave(held, lane)
}

fn add_many<R: Wait>(rt: &R, lock: &LaneLock<Row>, mut seat: Seat<Row>, holds: u32) -> Seat<Row>
    requires { IsOf lock.now seat }
    ensures of { IsOf lock.now result }
    ensures numbers { (n : ℕ) → numbered n (view_of result).parts ≡ numbered n (view_of seat).parts }
{
    for _ in 0..holds {
        seat = add_one(rt, lock, seat);
    }
    seat
}

// Each seat in a thread of its own.
fn all_add<R: Threads + Wait + Sync>(
    rt: &R,
    lock: &LaneLock<Row>,
    seats: Vec<Seat<Row>>,
    holds: u32,
) -> Result<Vec<Seat<Row>>, AllocError>
    requires { All (λ s. IsOf lock.now s) seats.items }
    ensures of { IfOk result (λ v. All (λ s. IsOf lock.now s) v.items) }
    ensures len { IfOk result (λ v. vec_len v ≡ vec_len seats) }
    ensures numbers { IfOk result (λ v. (n i : ℕ) (d : _) → i < vec_len seats → numbered n (view_of (slice_index_or v.items i d)).parts ≡ numbered n (view_of (slice_index_or seats.items i d)).parts) }
{
    let part = move |seat: Seat<Row>| -> Seat<Row>
        requires { IsOf lock.now seat }
        ensures of { IsOf lock.entry.now result }
        ensures numbers { (n : ℕ) → numbered n (view_of result).parts ≡ numbered n (view_of seat).parts }
    { add_many(rt, lock, seat, holds) };
    thread::map_vec(rt, seats, &part)
}

// Joins the seats into the first.
fn gather(lock: &LaneLock<Row>, mut all: Seat<Row>, mut rest: Vec<Seat<Row>>) -> Seat<Row>
    requires of { IsOf lock.now all }
    requires rest { All (λ s. IsOf lock.now s) rest.items }
    ensures of { IsOf lock.now result }
    ensures numbers { (n : ℕ) → numbered n (view_of result).parts ≡ numbered n (view_of all).parts + total (λ s. numbered n (view_of s).parts) rest.items }
{
    while let Some(seat) = rest.pop() {
        lock.join(&mut all, seat);
    }
    all
}

/// What the lane is after each of so many threads, 1 to 64, has held it so often.
pub fn held<R: Threads + Wait + Sync>(
    rt: &R,
    alloc: Global,
    threads: u32,
    holds: u32,
) -> Result<Row, AllocError>
    requires threads { (1 ≤ threads) × (threads ≤ 64) }
{
    let row = Row::new(alloc, threads as usize * holds as usize)?;
    let made = match LaneLock::new(alloc, row, 1, threads) {
        Ok(made) => made,
        Err(_) => return Err(AllocError),
    };
    let (lock, seats) = made;
    let mut seats = all_add(rt, &lock, seats, holds)?;
    let Some(first) = seats.pop() else {
        return Err(AllocError);
    };
    let seat = gather(&lock, first, seats);
    Ok(lock.close(seat))
}
