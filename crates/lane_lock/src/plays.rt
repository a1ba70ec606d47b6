// The rule of the table under the lock, and what each kind of step tells. These types are for the proofs alone.
ghost use Rattle.lane_lock.specs.Views.{dealer, giving, given, joined, spent};
ghost use Rattle.lane_lock.specs.Rule.{IsRuled};
ghost use Rattle.lane_lock.specs.Plays.{drawn, learned, looked, passed};

use crate::keeping::Kept;
use crate::views::{Key, Known};
use atomic_table::{Join, Play, Split, TableRule};
use std::marker::PhantomData;

/// The rule of the lock of a lane.
pub struct LaneRule<L> {
    lane: PhantomData<L>,
}

impl<L: Kept> TableRule<Option<L>, Known<L>, Key<L>> for LaneRule<L> {
    ghost holds = { IsRuled L.meaning };

    ghost first = { dealer L.meaning };
}

// Draws a ticket.
pub(crate) struct Draw;

impl<L: Kept> Play<Option<L>, Known<L>> for Draw {
    ghost then = { drawn };
}

// Looks whose turn it is.
pub(crate) struct Look;

impl<L: Kept> Play<Option<L>, Known<L>> for Look {
    ghost then = { looked L.meaning };
}

// Passes the turn.
pub(crate) struct Pass;

impl<L: Kept> Play<Option<L>, Known<L>> for Pass {
    ghost then = { passed L.meaning };
}

// Gives one number away.
pub(crate) struct Give;

impl<L: Kept> Split<Known<L>> for Give {
    ghost left = { giving };

    ghost right = { given };
}

// Makes one seat of two.
pub(crate) struct Unite;

impl<L: Kept> Join<Known<L>> for Unite {
    ghost both = { joined };

    ghost spent = { spent };
}

// Learns that what seats joined into this one had seen is in what it has seen.
pub(crate) struct Learn;

impl<L: Kept> Play<Option<L>, Known<L>> for Learn {
    ghost then = { learned };
}
