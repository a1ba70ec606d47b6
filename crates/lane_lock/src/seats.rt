// A seat at the lock, and a seat that has the lane.
ghost use Rattle.std.specs.Prelude.{◌≡◌, ◌≤◌, true, [], ◌∷◌, Some, None};
ghost use Rattle.lane_lock.specs.Views.{leader, is_holding};
ghost use Rattle.lane_lock.specs.declared.views.Stage.TheVariants.{Resting};

use crate::keeping::Kept;
use crate::views::Known;

/// A sender's seat at the lock of a lane. Contracts see what it knows: its lock, what it has seen of the lane, the ends
/// that it has set, and a list of entries for each number that it has, its own first.
#[derive(Drop)]
pub struct Seat<L: Kept> {
    pub(crate) number: u32,
    pub(crate) inner: atomic_table::Seat<Option<L>, Known<L>>,
    pub ghost resting: { inner.me.0.stage ≡ Resting },
    pub ghost empty: { inner.me.1 ≡ [] },
    pub ghost led: { leader inner.me.0.parts ≡ Some number },
    pub ghost settled: { inner.me.0.past ≤ inner.me.0.next },
}

/// A seat that has the lane. It can't be dropped: it ends in `LaneLock::leave`.
pub struct Held<L: Kept> {
    pub(crate) number: u32,
    pub(crate) inner: atomic_table::Seat<Option<L>, Known<L>>,
    pub ghost holding: { is_holding inner.me.0.stage ≡ true },
    pub ghost out: { inner.me.1 ≡ (0, None) ∷ [] },
    pub ghost led: { leader inner.me.0.parts ≡ Some number },
    pub ghost settled: { inner.me.0.past ≤ inner.me.0.next },
}

impl<L: Kept> Seat<L> {
    /// The seat's own number, from 1 to the count of the lock's seats.
    pub fn number(&self) -> u32
        ensures { result ≡ self.now.number }
    {
        self.number
    }
}
