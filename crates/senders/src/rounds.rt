//! What one sender does with a lane that it has by itself: rounds of sending again and of polls.

ghost use Rattle.std.specs.Prelude.{◌≡◌, ◌<◌, ◌≤◌, ◌*◌, ◌^◌, ℕ, false, None, [], ◌∷◌, length, slice_index_or, if◌then◌else◌, IsSome, IfErr, OnOk};
ghost use Rattle.disk_model.specs.Disk.{Tells};
ghost use Rattle.senders.specs.Alone.{HasPolled, HasSent, IsAlone, IsWorkedAlone, MayBeAlone, StopsAlone, sender_of};
ghost use Rattle.senders.specs.Rounds.{AllRounds, IsRound, departures_due, due_in, due_of};

use crate::settings::Settings;
use lane_engine::{Lane, LaneErr};
use ota_core::{JobId, Reservation};
use ota_io::Clock;
use site_model::Site;

/// Makes rounds 0 to `resends` on the lane, unless it has an end. A refusal becomes the lane's end, and ends the rounds.
pub(crate) fn make_rounds<T: Site, C: Clock>(
    lane: &mut Lane<T>,
    by: u32,
    place: usize,
    watch: &[(u32, JobId)],
    settings: &Settings,
    clock: &C,
)
    requires by { by ≡ sender_of settings.now.senders place }
    requires may { MayBeAlone T.counts lane.old }
    ensures { IsWorkedAlone T.told T.counts T.port T.lines settings.now place watch.now lane.old lane.new }
{
    match lane.end() {
        Some(_) => {}
        None => {
            if let Err(error) = try_rounds(lane, by, place, watch, settings, clock) {
                lane.set_end(error);
            }
        }
    }
}

fn try_rounds<T: Site, C: Clock>(
    lane: &mut Lane<T>,
    by: u32,
    place: usize,
    watch: &[(u32, JobId)],
    settings: &Settings,
    clock: &C,
) -> Result<(), LaneErr>
    requires may { MayBeAlone T.counts lane.old × (lane.old.end ≡ None) × (lane.old.lost ≡ []) }
    ensures alone { IsAlone T.told T.counts T.port T.lines by place watch.now lane.old lane.new }
    ensures rounds { OnOk result ((lane.new.is_stale ≡ false) × (lane.new.lost ≡ []) × (Tells T.told lane.old.site → AllRounds T.told T.port T.lines place by watch.now settings.now.polls settings.now.resends lane.old lane.new)) }
    ensures stops { IfErr result (StopsAlone T.told T.counts T.port T.lines lane.new) }
{
    make_round(lane, by, place, watch, false, settings.polls, clock)?;
    for _ in 0..settings.resends {
        make_round(lane, by, place, watch, true, settings.polls, clock)?;
    }
    Ok(())
}

/// One round: each watched job of the lane that is unsettled is sent once more, where this is asked, and the lane is
/// polled so many times for each.
fn make_round<T: Site, C: Clock>(
    lane: &mut Lane<T>,
    by: u32,
    place: usize,
    watch: &[(u32, JobId)],
    resends: bool,
    polls: u32,
    clock: &C,
) -> Result<(), LaneErr>
    requires may { MayBeAlone T.counts lane.old × (lane.old.end ≡ None) × (lane.old.lost ≡ []) }
    ensures alone { IsAlone T.told T.counts T.port T.lines by place watch.now lane.old lane.new }
    ensures round { OnOk result ((lane.new.is_stale ≡ false) × (lane.new.lost ≡ []) × (Tells T.told lane.old.site → IsRound T.told T.port T.lines place by watch.now polls resends lane.old lane.new)) }
    ensures stops { IfErr result (StopsAlone T.told T.counts T.port T.lines lane.new) }
{
    let unsettled = count_due(lane, place, watch);
    resend_if(lane, by, place, watch, resends)?;
    poll_each(
        lane,
        by,
        place,
        watch,
        polls as u128 * unsettled as u128,
        clock,
    )
}

/// Sends each watched job of the lane that is unsettled once more, where this is asked.
fn resend_if<T: Site>(
    lane: &mut Lane<T>,
    by: u32,
    place: usize,
    watch: &[(u32, JobId)],
    resends: bool,
) -> Result<(), LaneErr>
    requires may { MayBeAlone T.counts lane.old × (lane.old.end ≡ None) × (lane.old.lost ≡ []) }
    ensures alone { IsAlone T.told T.counts T.port T.lines by place watch.now lane.old lane.new }
    ensures sent { OnOk result ((lane.new.is_stale ≡ false) × (lane.new.lost ≡ []) × (Tells T.told lane.old.site → HasSent T.told T.counts T.port T.lines (if resends then departures_due lane.old.journal.entries (due_in place watch.now lane.old.journal.entries) else []) lane.old lane.new)) }
    ensures stops { IfErr result (StopsAlone T.told T.counts T.port T.lines lane.new) }
{
    match resends {
        true => resend_all(lane, by, place, watch),
        false => Ok(()),
    }
}

/// Sends each watched job of the lane that is unsettled once more, in the order of the list.
fn resend_all<T: Site>(
    lane: &mut Lane<T>,
    by: u32,
    place: usize,
    watch: &[(u32, JobId)],
) -> Result<(), LaneErr>
    requires may { MayBeAlone T.counts lane.old × (lane.old.end ≡ None) × (lane.old.lost ≡ []) }
    ensures alone { IsAlone T.told T.counts T.port T.lines by place watch.now lane.old lane.new }
    ensures entries { lane.new.journal.entries ≡ lane.old.journal.entries }
    ensures sent { OnOk result ((lane.new.is_stale ≡ false) × (lane.new.lost ≡ []) × (Tells T.told lane.old.site → HasSent T.told T.counts T.port T.lines (departures_due lane.old.journal.entries (due_in place watch.now lane.old.journal.entries)) lane.old lane.new)) }
    ensures stops { IfErr result (StopsAlone T.told T.counts T.port T.lines lane.new) }
{
    for watched in watch {
        resend_one(lane, by, place, watched)?;
    }
    Ok(())
}

/// Sends a watched job of the lane once more, where it is unsettled.
fn resend_one<T: Site>(
    lane: &mut Lane<T>,
    by: u32,
    place: usize,
    watched: &(u32, JobId),
) -> Result<(), LaneErr>
    requires may { MayBeAlone T.counts lane.old × (lane.old.end ≡ None) × (lane.old.lost ≡ []) }
    ensures alone { IsAlone T.told T.counts T.port T.lines by place (watched.now ∷ []) lane.old lane.new }
    ensures entries { lane.new.journal.entries ≡ lane.old.journal.entries }
    ensures sent { OnOk result ((lane.new.is_stale ≡ false) × (lane.new.lost ≡ []) × (Tells T.told lane.old.site → HasSent T.told T.counts T.port T.lines (departures_due lane.old.journal.entries (due_in place (watched.now ∷ []) lane.old.journal.entries)) lane.old lane.new)) }
    ensures stops { IfErr result (StopsAlone T.told T.counts T.port T.lines lane.new) }
{
    match due_of(lane, place, watched) {
        Some(due) => lane.resend(by, due.keyset, due.counter),
        None => Ok(()),
    }
}

/// Polls the lane so many times, and stops early where none of its watched jobs is unsettled.
fn poll_each<T: Site, C: Clock>(
    lane: &mut Lane<T>,
    by: u32,
    place: usize,
    watch: &[(u32, JobId)],
    polls: u128,
    clock: &C,
) -> Result<(), LaneErr>
    requires may { MayBeAlone T.counts lane.old × (lane.old.end ≡ None) × (lane.old.lost ≡ []) }
    ensures alone { IsAlone T.told T.counts T.port T.lines by place watch.now lane.old lane.new }
    ensures polled { OnOk result ((lane.new.is_stale ≡ false) × (lane.new.lost ≡ []) × (Tells T.told lane.old.site → HasPolled T.told T.counts T.port T.lines place watch.now polls lane.old lane.new)) }
    ensures stops { IfErr result (StopsAlone T.told T.counts T.port T.lines lane.new) }
{
    let mut next = 0;
    for _ in 0..polls {
        next = next_due(lane, place, watch, next);
        if next == watch.len() {
            return Ok(());
        }
        lane.at(clock.now());
        lane.poll_settle(by)?;
    }
    Ok(())
}

/// How many of the watched jobs of the lane are unsettled.
fn count_due<T: Site>(lane: &Lane<T>, place: usize, watch: &[(u32, JobId)]) -> u64
    ensures { result ≡ length (due_in place watch.now lane.now.journal.entries) }
{
    let mut count = 0;
    for watched in watch {
        count += one_due(lane, place, watched);
    }
    count
}

/// 1 where the watched job is unsettled on this lane, else 0.
fn one_due<T: Site>(lane: &Lane<T>, place: usize, watched: &(u32, JobId)) -> u64
    ensures due { result ≡ length (due_in place (watched.now ∷ []) lane.now.journal.entries) }
    ensures few { result ≤ 1 }
{
    match due_of(lane, place, watched) {
        Some(_) => 1,
        None => 0,
    }
}

/// The first place, from this one on, of a watched job of the lane that is unsettled, or the length of the list.
fn next_due<T: Site>(lane: &Lane<T>, place: usize, watch: &[(u32, JobId)], from: usize) -> usize
    requires { from ≤ length watch.now }
    ensures within { (from ≤ result) × (result ≤ length watch.now) }
    ensures none { (k : ℕ) (d : _) → from ≤ k → k < result → due_of place lane.now.journal.entries (slice_index_or watch.now k d) ≡ None }
    ensures due { (d : _) → result < length watch.now → IsSome (due_of place lane.now.journal.entries (slice_index_or watch.now result d)) }
{
    let mut next = from;
    while next < watch.len() && due_of(lane, place, &watch[next]).is_none() {
        next += 1;
    }
    next
}

/// The reservation of a watched job, where it is of this lane and unsettled, on a keyset that is open.
fn due_of<T: Site>(lane: &Lane<T>, place: usize, watched: &(u32, JobId)) -> Option<Reservation>
    ensures { result ≡ due_of place lane.now.journal.entries watched.now }
{
    if watched.0 as usize != place {
        return None;
    }
    lane.unsettled(watched.1)
}
