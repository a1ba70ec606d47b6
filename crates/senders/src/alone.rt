//! Lanes that each belong to one sender.

ghost use Rattle.std.specs.Prelude.{◌≡◌, ◌<◌, ◌≤◌, ℕ, All, length, map, vec_capacity, [], slice_index_or};
ghost use Rattle.senders.specs.Alone.{IsWorkedAlone, MayBeAlone, sender_of};

use crate::rounds::make_rounds;
use crate::settings::Settings;
use lane_engine::{Lane, LaneErr};
use ota_core::JobId;
use ota_io::Clock;
use site_model::Site;
use std::thread;
use std::thread::Threads;

/// Makes the rounds on each lane, under the number of its sender: that of lane i is i modulo the count of senders, plus 1.
/// A lane is with one thread alone, and there are as many threads as senders.
pub(crate) fn work_alone<T: Site, C: Clock, R: Threads + Sync>(
    rt: &R,
    lanes: &mut [Lane<T>],
    watch: &[(u32, JobId)],
    settings: &Settings,
    clock: &C,
)
    requires senders { 1 ≤ settings.now.senders }
    requires may { All (MayBeAlone T.counts) lanes.old }
    ensures { (place : ℕ) (lane : _) → place < length lanes.old → IsWorkedAlone T.told T.counts T.port T.lines settings.now place watch.now (slice_index_or lanes.old place lane) (slice_index_or lanes.new place lane) }
{
    let part = move |place: usize, lane: &mut Lane<T>|
        requires { (1 ≤ settings.now.senders) × MayBeAlone T.counts lane.now }
        ensures { IsWorkedAlone T.told T.counts T.port T.lines settings.entry.now place watch.entry.now lane.entry.now lane.exit.now }
    {
        make_rounds(
            lane,
            number_of(settings.senders, place),
            place,
            watch,
            settings,
            clock,
        )
    };
    thread::for_each_mut(rt, lanes, settings.senders as usize, &part);
}

/// The number of the sender of the lane at a place.
fn number_of(senders: u32, place: usize) -> u32
    requires { 1 ≤ senders }
    ensures { result ≡ sender_of senders place }
{
    (place % senders as usize) as u32 + 1
}

/// The end of each lane, in order. There is room for them.
pub(crate) fn ends_of<T: Site>(
    lanes: &[Lane<T>],
    ends: Vec<Option<LaneErr>>,
) -> Vec<Option<LaneErr>>
    requires room { (ends.items ≡ []) × (length lanes.now ≤ vec_capacity ends) }
    ensures { result.items ≡ map (λ lane. lane.end) lanes.now }
{
    let mut ends = ends;
    for lane in lanes {
        ends.push_reserved(lane.end());
    }
    ends
}
