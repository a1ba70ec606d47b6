// How a seat takes the lane in its turn, and puts it back.
ghost use Rattle.std.specs.Prelude.{◌≡◌, ℕ, [], ◌∷◌, None, Some};
ghost use Rattle.lane_lock.specs.declared.views.Stage.TheVariants.{Resting, Waiting};
ghost use Rattle.lane_lock.specs.Meaning.{shown};
ghost use Rattle.lane_lock.specs.Views.{leader, taken, left, staged, held_ticket};
ghost use Rattle.lane_lock.specs.Plays.{Took};
ghost use Rattle.lane_lock.specs.Grown.{IsFound, MayLeave};
ghost use Rattle.lane_lock.specs.Locks.{key_of, view_of, view_held, number_of, number_held, IsOf, IsHeldOf, IsAt};

use crate::keeping::Kept;
use crate::locks::{Inner, LaneLock};
use crate::plays::{Draw, Look, Pass};
use crate::seats::{Held, Seat};
use std::hint::spin_loop;
use std::sync::Wait;
use std::thread;

impl<L: Kept> LaneLock<L> {
    /// Takes the lane when the seat's turn comes. It may wait, and no clause says that it returns: not where another
    /// seat keeps the lane, and not once 2^64 - 1 tickets were drawn.
    pub fn hold<R: Wait>(&self, rt: &R, seat: Seat<L>) -> (Held<L>, L)
        requires { IsOf self.now seat }
        ensures of { IsHeldOf self.now result.0 }
        ensures number { number_held result.0 ≡ number_of seat }
        ensures taken { view_held result.0 ≡ taken (held_ticket (view_held result.0).stage) (shown L.meaning result.1) (view_of seat) }
        ensures found { IsFound L.meaning (key_of self.now) (view_of seat) result.1 }
    {
        let Seat { number, mut inner } = seat;
        let ticket = self.draw(rt, &mut inner);
        let lane = self.take(rt, &mut inner, ticket);
        (Held { number, inner }, lane)
    }

    // Draws the next ticket. At the greatest value of the word none is drawn.
    fn draw<R: Wait>(&self, rt: &R, inner: &mut Inner<L>) -> u64
        requires of { IsAt self.now inner.old }
        requires resting { inner.old.me.0.stage ≡ Resting }
        requires led { (n : ℕ) × (leader inner.old.me.0.parts ≡ Some n) }
        ensures of { IsAt self.now inner.new }
        ensures drawn { inner.new.me ≡ (staged (Waiting result) inner.old.me.0, inner.old.me.1) }
    {
        for _ in rt.forever() {
            let next = self.table.shared.peek(0);
            if next < u64::MAX {
                let found = self
                    .table
                    .shared
                    .compare_exchange::<Draw>(inner, 0, next, next + 1);
                if found == next {
                    return next;
                }
            }
            thread::yield_now();
        }
        unreachable!()
    }

    // Waits until it is the ticket's turn. It yields after each 16 looks: the turn is often near, but where
    // there are more threads than processors it may be a thread's that has none.
    fn wait_turn<R: Wait>(&self, rt: &R, inner: &mut Inner<L>, ticket: u64)
        requires of { IsAt self.now inner.old }
        requires waiting { inner.old.me.0.stage ≡ Waiting ticket }
        requires empty { inner.old.me.1 ≡ [] }
        ensures of { IsAt self.now inner.new }
        ensures took { Took L.meaning ticket inner.old.me.0 inner.new.me }
    {
        let mut looks = 0u8;
        for _ in rt.forever() {
            if self.table.shared.load::<Look>(inner, 1) == ticket {
                return;
            }
            looks = looks.wrapping_add(1);
            if looks % 16 == 0 {
                thread::yield_now();
            } else {
                spin_loop();
            }
        }
        unreachable!()
    }

    // Waits for the ticket's turn, and takes the lane out of the slot.
    fn take<R: Wait>(&self, rt: &R, inner: &mut Inner<L>, ticket: u64) -> L
        requires of { IsAt self.now inner.old }
        requires waiting { inner.old.me.0.stage ≡ Waiting ticket }
        requires empty { inner.old.me.1 ≡ [] }
        ensures of { IsAt self.now inner.new }
        ensures taken { inner.new.me ≡ (taken ticket (shown L.meaning result) inner.old.me.0, (0, None) ∷ []) }
        ensures found { (k : _) → inner.old.me.0.key ≡ Some k → IsFound L.meaning k inner.old.me.0 result }
    {
        self.wait_turn(rt, inner, ticket);
        match self.table.shared.exchange(inner, 0, None) {
            Some(lane) => lane,
            None => unreachable!(),
        }
    }

    /// Puts the lane back and passes the turn. The lane is later than the one that was put into the lock and at home for
    /// its pace; its entries are those found, followed by entries of this seat's own number; its end is the one found,
    /// or any where none was found.
    pub fn leave(&self, held: Held<L>, lane: L) -> Seat<L>
        requires of { IsHeldOf self.now held }
        requires lane { MayLeave L.meaning (key_of self.now) (view_held held) (number_held held) lane }
        ensures of { IsOf self.now result }
        ensures number { number_of result ≡ number_held held }
        ensures left { view_of result ≡ left (shown L.meaning lane) (view_held held) }
    {
        let Held { number, mut inner } = held;
        match self.table.shared.exchange(&mut inner, 0, Some(lane)) {
            None => {}
            Some(_) => unreachable!(),
        }
        self.table.shared.fetch_add::<Pass>(&mut inner, 1, 1);
        Seat { number, inner }
    }
}
