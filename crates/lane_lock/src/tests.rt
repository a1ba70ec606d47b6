// A lane in memory under the lock, with threads that take it in turn.
ghost use Rattle.std.specs.Prelude.{◌≡◌, ℕ, ◌+◌, ◌<◌, ◌≤◌, ◌⊎◌, refl, [], ◌∷◌, ◌++◌, All, IfOk, None, slice_index_or, vec_len};
ghost use Rattle.ota_core.specs.Entry.{by_of};
ghost use mathlib.Core.Path.{◌∙◌};
ghost use Rattle.lane_lock.specs.Numbers.{total};
ghost use Rattle.lane_lock.specs.Views.{numbered};
ghost use Rattle.lane_lock.specs.Locks.{view_of, number_of, IsOf};

use crate::{Kept, LaneLock, Seat};
use ota_core::{CardId, Entry, KeysetId};
use std::alloc::{AllocError, Global};
use std::sync::Wait;
use std::test::Fail;
use std::thread;
use std::thread::Threads;

/// A lane of the tests' own: its entries in memory.
#[derive(Drop)]
struct Row {
    number: u32,
    entries: Vec<Entry>,
}

impl Kept for Row {
    type Opening = u32;

    type Entry = Entry;

    type End = u32;

    ghost meaning = { record {
      opening = λ row. row.number;
      entries = λ row. row.entries.items;
      number_of = by_of;
      ending = λ row. None;
      at_home = λ pace row. Unit {0};
      later = λ a b. b.number ≡ a.number;
    } };

    ghost later_itself = { λ a. refl };

    ghost later_chain = { λ a b c h k. k ∙ h };

    ghost later_opening = { λ a b h. h };
}

impl Row {
    // Adds an entry, if there is room.
    fn add(&mut self, entry: Entry)
        ensures same { self.new.number ≡ self.old.number }
        ensures entries { (self.new.entries.items ≡ self.old.entries.items) ⊎ (self.new.entries.items ≡ self.old.entries.items ++ entry ∷ []) }
    {
        if self.entries.len() >= self.entries.capacity() {
            return;
        }
        self.entries.push_reserved(entry);
    }

    // How many entries were made under the number.
    fn made_by(&self, number: u32) -> usize {
        self.entries
            .iter()
            .filter(|entry| entry.by() == number)
            .count()
    }
}

// The close of a keyset, made under the number.
fn close(number: u32) -> Entry
    ensures { by_of result ≡ number }
{
    Entry::Close {
        by: number,
        moment: 0,
        keyset: KeysetId {
            card: CardId(8901),
            kvn: 1,
        },
    }
}

// Holds the lane once, and adds an entry under the seat's own number.
fn add_one<R: Wait>(rt: &R, lock: &LaneLock<Row>, seat: Seat<Row>) -> Seat<Row>
    requires { IsOf lock.now seat }
    ensures of { IsOf lock.now result }
    ensures numbers { (n : ℕ) → numbered n (view_of result).parts ≡ numbered n (view_of seat).parts }
{
    let number = seat.number();
    let (held, mut lane) = lock.hold(rt, seat);
    lane.add(close(number));
    lock.leave(held, lane)
}

fn add_many<R: Wait>(rt: &R, lock: &LaneLock<Row>, mut seat: Seat<Row>, holds: u32) -> Seat<Row>
    requires { IsOf lock.now seat }
    ensures of { IsOf lock.now result }
    ensures numbers { (n : ℕ) → numbered n (view_of result).parts ≡ numbered n (view_of seat).parts }
{
    for _ in 0..holds {
        seat = add_one(rt, lock, seat);
    }
    seat
}

// Each seat in a thread of its own.
fn all_add<R: Threads + Wait + Sync>(
    rt: &R,
    lock: &LaneLock<Row>,
    seats: Vec<Seat<Row>>,
    holds: u32,
) -> Result<Vec<Seat<Row>>, AllocError>
    requires { All (λ s. IsOf lock.now s) seats.items }
    ensures of { IfOk result (λ v. All (λ s. IsOf lock.now s) v.items) }
    ensures len { IfOk result (λ v. vec_len v ≡ vec_len seats) }
    ensures numbers { IfOk result (λ v. (n i : ℕ) (d : _) → i < vec_len seats → numbered n (view_of (slice_index_or v.items i d)).parts ≡ numbered n (view_of (slice_index_or seats.items i d)).parts) }
{
    let part = move |seat: Seat<Row>| -> Seat<Row>
        requires { IsOf lock.now seat }
        ensures of { IsOf lock.entry.now result }
        ensures numbers { (n : ℕ) → numbered n (view_of result).parts ≡ numbered n (view_of seat).parts }
    { add_many(rt, lock, seat, holds) };
    thread::map_vec(rt, seats, &part)
}

// Joins the seats into the first.
fn gather(lock: &LaneLock<Row>, mut all: Seat<Row>, mut rest: Vec<Seat<Row>>) -> Seat<Row>
    requires of { IsOf lock.now all }
    requires rest { All (λ s. IsOf lock.now s) rest.items }
    ensures of { IsOf lock.now result }
    ensures numbers { (n : ℕ) → numbered n (view_of result).parts ≡ numbered n (view_of all).parts + total (λ s. numbered n (view_of s).parts) rest.items }
{
    while let Some(seat) = rest.pop() {
        lock.join(&mut all, seat);
    }
    all
}

// What the lane is after each seat has held it so often in a thread of its own.
fn closed<R: Threads + Wait + Sync>(
    rt: &R,
    alloc: Global,
    seats: u32,
    holds: u32,
) -> Result<Row, AllocError>
    requires seats { (1 ≤ seats) × (seats ≤ 64) }
{
    let row = Row {
        number: 3,
        entries: Vec::with_capacity(alloc, seats as usize * holds as usize)?,
    };
    let made = match LaneLock::new(alloc, row, 1, seats) {
        Ok(made) => made,
        Err(_) => return Err(AllocError),
    };
    let (lock, seats) = made;
    let mut seats = all_add(rt, &lock, seats, holds)?;
    let Some(first) = seats.pop() else {
        return Err(AllocError);
    };
    let seat = gather(&lock, first, seats);
    Ok(lock.close(seat))
}

#[test]
fn two_seats_add_their_own_entries(rt: HostRuntime) -> Result<(), Fail> {
    let lane = closed(&rt, rt.alloc(), 2, 1)?;
    assert_eq!(rt; lane.entries.len(), 2);
    let first = lane.entries[0].by();
    let second = lane.entries[1].by();
    assert!(rt; (first == 1 && second == 2) || (first == 2 && second == 1));
    Ok(())
}

#[test]
fn eight_seats_hold_ten_thousand_times_each(rt: HostRuntime) -> Result<(), Fail> {
    let lane = closed(&rt, rt.alloc(), 8, 10_000)?;
    assert_eq!(rt; lane.entries.len(), 80_000);
    for number in 1..=8 {
        assert_eq!(rt; lane.made_by(number), 10_000);
    }
    Ok(())
}

#[test]
fn seats_come_in_the_order_of_their_numbers(rt: HostRuntime) -> Result<(), Fail> {
    let row = Row {
        number: 3,
        entries: Vec::new(rt.alloc()),
    };
    let Ok((_lock, seats)) = LaneLock::new(rt.alloc(), row, 1, 3) else {
        return Err(AllocError.into());
    };
    assert_eq!(rt; seats.len(), 3);
    for (place, seat) in seats.iter().enumerate() {
        assert_eq!(rt; seat.number() as usize, place + 1);
    }
    Ok(())
}
