//! One hold of a lane for a piece of work.
ghost use Rattle.std.specs.Prelude.{◌≡◌, ℕ, ◌≤◌, [], ◌∷◌, ◌++◌, length, List, IsSomeAnd};
ghost use Rattle.lane_lock.specs.Locks.{IsOf, number_of};
ghost use Rattle.lane_lock.specs.Numbers.{Each, IsIn};
ghost use Rattle.senders.specs.Desks.{IsSeatAt, IsRow, IsDesk, AreLocks, IsSeated, IsFit, IsHeld, IsRowHeld};
ghost use Rattle.senders.specs.Pieces.{IsPiece};
ghost use Rattle.senders.specs.declared.pieces.Work.{Work as Piece};

use crate::benches::Terms;
use crate::desks::{Desk, Row};
use crate::gates::Gate;
use crate::pieces::Work;
use crate::serving::serve_open;
use lane_engine::{Lane, LaneErr};
use lane_lock::{LaneLock, Seat};
use ota_io::Clock;
use site_model::Site;
use std::sync::Wait;

/// Takes the lane, serves the piece where the lane has no end, and puts it back.
fn hold<T: Site, C: Clock, R: Wait>(
    rt: &R,
    lock: &LaneLock<Lane<T>>,
    seat: Seat<Lane<T>>,
    piece: &Work,
    clock: &C,
) -> (Seat<Lane<T>>, Option<LaneErr>)
    requires of { IsOf lock.now seat }
    requires piece { IsFit lock.now piece.now }
    ensures of { IsOf lock.now result.0 }
    ensures number { number_of result.0 ≡ number_of seat }
    ensures held { (numbers : ℕ → ℕ) (taken undone : List Piece) → IsSeatAt numbers taken undone piece.now.lane lock.now seat → IsHeld numbers taken undone lock.now piece.now seat result.0 result.1 }
{
    let by = seat.number();
    let (held, mut lane) = lock.hold(rt, seat);
    let refused = serve_open(&mut lane, by, piece.jobs.as_slice(), clock);
    (lock.leave(held, lane), refused)
}

/// Serves a piece from the sender's seat at its lane.
pub(crate) fn serve_piece<P: Terms, T: Site, G: Gate, C: Clock, R: Wait>(
    rt: &R,
    locks: &[LaneLock<Lane<T>>],
    desk: &mut Desk<T>,
    piece: &Work,
    gate: &G,
    clock: &C,
)
    requires locks { AreLocks P.batch locks.now }
    requires piece { IsIn piece.now P.works }
    requires pieces { (P.batch ≤ 16) × Each (IsPiece P.batch (length locks.now)) P.works }
    requires seated { IsSeated locks.now desk.old.row.items }
    ensures seated { IsSeated locks.now desk.new.row.items }
    ensures same { (desk.new.number ≡ desk.old.number) × (desk.new.pass ≡ desk.old.pass) }
    ensures desk { (numbers : ℕ → ℕ) (taken : List Piece) → IsDesk P.works numbers taken locks.now desk.old.row.items desk.old.refused → IsDesk P.works numbers (taken ++ piece.now ∷ []) locks.now desk.new.row.items desk.new.refused }
{
    gate.pass(desk.number, piece.lane);
    let refused = hold_at::<P, T, C, R>(rt, locks, &mut desk.row, piece, clock);
    desk.refused = desk.refused.take().or(refused);
}

/// Holds the piece's lane, from the seat at it.
fn hold_at<P: Terms, T: Site, C: Clock, R: Wait>(
    rt: &R,
    locks: &[LaneLock<Lane<T>>],
    row: &mut Row<T>,
    piece: &Work,
    clock: &C,
) -> Option<LaneErr>
    requires locks { AreLocks P.batch locks.now }
    requires piece { IsIn piece.now P.works }
    requires pieces { (P.batch ≤ 16) × Each (IsPiece P.batch (length locks.now)) P.works }
    requires seated { IsSeated locks.now row.old.items }
    ensures seated { IsSeated locks.now row.new.items }
    ensures held { (numbers : ℕ → ℕ) (taken undone : List Piece) → IsRow numbers taken undone locks.now row.old.items → IsRowHeld numbers taken undone locks.now piece.now row.old.items row.new.items result }
{
    let place = piece.lane as usize;
    hold_seat(rt, &locks[place], &mut row[place], piece, clock)
}

/// Holds the lane of a lock, from the seat at it.
fn hold_seat<T: Site, C: Clock, R: Wait>(
    rt: &R,
    lock: &LaneLock<Lane<T>>,
    seat: &mut Option<Seat<Lane<T>>>,
    piece: &Work,
    clock: &C,
) -> Option<LaneErr>
    requires of { IsSomeAnd seat.old (IsOf lock.now) }
    requires piece { IsFit lock.now piece.now }
    ensures of { IsSomeAnd seat.new (IsOf lock.now) }
    ensures held { (numbers : ℕ → ℕ) (taken undone : List Piece) → IsSomeAnd seat.old (IsSeatAt numbers taken undone piece.now.lane lock.now) → IsSomeAnd seat.old (λ before. IsSomeAnd seat.new (λ after. IsHeld numbers taken undone lock.now piece.now before after result)) }
{
    match seat.take() {
        Some(mine) => {
            let (mine, refused) = hold(rt, lock, mine, piece, clock);
            *seat = Some(mine);
            refused
        }
        None => unreachable!(),
    }
}
