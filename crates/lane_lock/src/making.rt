// How a lock is made.
ghost use Rattle.std.specs.Prelude.{◌≡◌, ◌≤◌, [], ◌∷◌, map, IfOk, IfErr, Some, vec_capacity};
ghost use Rattle.lane_lock.specs.Numbers.{Each};
ghost use Rattle.lane_lock.specs.Locks.{key_of, number_of, IsAt, IsFresh, IsKeyFor, first_numbers, dealt};

use crate::keeping::Kept;
use crate::locks::{Inner, LaneLock};
use crate::plays::Give;
use crate::seats::Seat;
use crate::views::Key;
use atomic_table::{Refused, Table};
use ota_core::Memory;
use std::alloc::Global;
use std::snapshot::Snapshot;

// The lane that lies in the only place.
fn only<L: Drop>(mut slots: Vec<Option<L>>) -> L
    requires { (lane : L) × (slots.items ≡ Some lane ∷ []) }
    ensures { slots.items ≡ Some result ∷ [] }
{
    match slots.pop() {
        Some(Some(lane)) => lane,
        _ => unreachable!(),
    }
}

impl<L: Kept> LaneLock<L> {
    /// A lock over the lane, and its seats in order of their numbers, 1 to `seats`. The lane is at home for the pace,
    /// and there are 1 to 64 seats. Where memory is wanting the lane comes back.
    pub fn new(
        alloc: Global,
        lane: L,
        pace: u32,
        seats: u32,
    ) -> Result<(LaneLock<L>, Vec<Seat<L>>), (L, Memory)>
        requires at_home { L.meaning.at_home pace lane }
        requires seats { (1 ≤ seats) × (seats ≤ 64) }
        ensures key { IfOk result (λ made. IsKeyFor lane pace seats (key_of made.0)) }
        ensures numbers { IfOk result (λ made. map number_of made.1.items ≡ first_numbers seats) }
        ensures fresh { IfOk result (λ made. Each (IsFresh L.meaning made.0) made.1.items) }
        ensures err { IfErr result (λ refused. refused.0 ≡ lane) }
    {
        let Ok(row) = Vec::with_capacity(alloc, seats as usize) else {
            return Err((lane, Memory));
        };
        let Ok(mut slots) = Vec::with_capacity(alloc, 1) else {
            return Err((lane, Memory));
        };
        let key = Key {
            put: Snapshot::of(&lane),
            pace,
            seats,
        };
        slots.push_reserved(Some(lane));
        match Table::new(alloc, &[0, 0], slots, &key) {
            Ok((table, dealer)) => {
                let lock = LaneLock { table };
                let row = lock.deal(dealer, row, seats);
                Ok((lock, row))
            }
            Err(Refused { slots }) => Err((only(slots), Memory)),
        }
    }

    // Gives the numbers away, each to a new seat.
    fn deal(&self, mut dealer: Inner<L>, mut row: Vec<Seat<L>>, seats: u32) -> Vec<Seat<L>>
        requires of { IsAt self.now dealer }
        requires seats { self.now.table.shared.key.seats ≡ seats }
        requires view { dealer.me ≡ (dealt L.meaning (key_of self.now) 0, []) }
        requires room { (row.items ≡ []) × (seats ≤ vec_capacity row) }
        ensures numbers { map number_of result.items ≡ first_numbers seats }
        ensures fresh { Each (IsFresh L.meaning self.now) result.items }
    {
        for given in 0..seats {
            let inner = self.table.shared.split_seat::<Give>(&mut dealer);
            row.push_reserved(Seat {
                number: given + 1,
                inner,
            });
        }
        row
    }
}
