//! Threads that hold `std`'s mutex in turn.
ghost use Rattle.std.specs.Prelude.{◌≤◌};

use crate::rows::Row;
use std::alloc::{AllocError, Global};
use std::sync::{Mutex, Wait};
use std::thread;
use std::thread::Threads;

fn add_many<R: Wait>(rt: &R, lock: &Mutex<Row>, number: u32, holds: u32) {
    for _ in 0..holds {
        lock.lock(rt).add(number);
    }
}

/// What the lane is after each of so many threads, 1 to 64, has held it so often.
pub fn held<R: Threads + Wait + Sync>(
    rt: &R,
    alloc: Global,
    threads: u32,
    holds: u32,
) -> Result<Row, AllocError>
    requires threads { (1 ≤ threads) × (threads ≤ 64) }
{
    let lock = Mutex::new(Row::new(alloc, threads as usize * holds as usize)?);
    let mut numbers = Vec::with_capacity(alloc, threads as usize)?;
    for number in 1..=threads {
        numbers.push(number)?;
    }
    let shared = &lock;
    let part = move |number: u32| add_many(rt, shared, number, holds);
    thread::map_vec(rt, numbers, &part)?;
    Ok(lock.into_inner())
}
