// How seats become one, and the lane comes out of the lock.
ghost use Rattle.std.specs.Prelude.{◌≡◌};
ghost use Rattle.lane_lock.specs.Meaning.{IsNoEarlier};
ghost use Rattle.lane_lock.specs.Views.{joined};
ghost use Rattle.lane_lock.specs.Grown.{HasAll, IsGrown, IsAsHeavy};
ghost use Rattle.lane_lock.specs.Locks.{key_of, view_of, number_of, IsOf};

use crate::keeping::Kept;
use crate::locks::LaneLock;
use crate::plays::{Learn, Unite};
use crate::seats::Seat;

impl<L: Kept> LaneLock<L> {
    /// Joins `other` into the seat, which then has the numbers, the lists and the ends of both, and has seen what either
    /// has.
    pub fn join(&self, seat: &mut Seat<L>, other: Seat<L>)
        requires of { IsOf self.now seat.old × IsOf self.now other }
        ensures of { IsOf self.now seat.new }
        ensures number { number_of seat.new ≡ number_of seat.old }
        ensures joined { view_of seat.new ≡ joined (view_of seat.old) (view_of other) }
        ensures seen { IsNoEarlier (view_of seat.old).seen (view_of seat.new).seen × IsNoEarlier (view_of other).seen (view_of seat.new).seen }
    {
        let Seat { number: _, inner } = other;
        self.table.shared.join_seat::<Unite>(&mut seat.inner, inner);
        self.table.shared.load::<Learn>(&mut seat.inner, 0);
    }

    /// Takes the lane out for good. The seat has all numbers of the lock.
    pub fn close(self, seat: Seat<L>) -> L
        requires of { IsOf self seat }
        requires all { HasAll (key_of self) (view_of seat) }
        ensures grown { IsGrown L.meaning (key_of self) (view_of seat) result }
        ensures weighs { IsAsHeavy L.meaning (key_of self) (view_of seat) result }
    {
        let Seat { number: _, inner } = seat;
        let LaneLock { table } = self;
        let mut closed = table.close_with(inner);
        let lane = closed.take(0);
        closed.free();
        match lane {
            Some(lane) => lane,
            None => unreachable!(),
        }
    }
}
