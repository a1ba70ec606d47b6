//! A sender's own: its number, its pass of the queue, and a seat at each lane's lock.

use crate::benches::Pass;
use lane_engine::{Lane, LaneErr};
use lane_lock::{Kept, Seat};
use site_model::Site;

/// The seats of a sender, one at each lane's lock, in the order of the lanes. A place is empty while its lane is held.
pub(crate) type Row<T> = Vec<Option<Seat<Lane<T>>>>;

/// What a sender has while lanes are shared.
#[derive(Drop)]
pub(crate) struct Desk<T: Site>
where
    Lane<T>: Kept,
{
    /// Its number, from 1.
    pub(crate) number: u32,
    pub(crate) pass: Pass,
    pub(crate) row: Row<T>,
    /// The first refusal of a hold that ended no lane.
    pub(crate) refused: Option<LaneErr>,
}
