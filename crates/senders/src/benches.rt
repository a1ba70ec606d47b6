//! The queue from which senders take work, and the rule under which each piece is taken once.
ghost use Rattle.std.specs.Prelude.{◌≡◌, ℕ, ◌+◌, ◌-◌, List, [], ◌∷◌, ◌++◌};
ghost use Rattle.senders.specs.Bench.{IsFair, hand, Whole};
ghost use Rattle.lane_lock.specs.Numbers.{IsIn};
ghost use Rattle.senders.specs.declared.pieces.Work.{Work as Piece};

use crate::pieces::Work;
use crossbeam_queue::RuledArrayQueue;
use crossbeam_queue::protocol::{Join, Lesson, Outcome, Protocol, Split};
use std::alloc::Global;
use std::collections::LinkedList;
use std::marker::{Brand, PhantomData};

/// All pieces of a session, and how many jobs one has at most. Contracts alone see them.
pub trait Terms {
    ghost works: { List Piece };

    ghost batch: { ℕ };
}

impl Terms for Brand {
    ghost works = { [] };

    ghost batch = { 0 };
}

/// What who has a pass of the queue has put into it and taken out, and how many of 1,024 parts of the right to know the
/// whole. No value of it is made.
pub struct Hand {
    pub parts: u64,
    pub put: LinkedList<Work>,
    pub taken: LinkedList<Work>,
}

/// The rule of the queue: what was put in is what was taken out and what it holds, and each piece is one of the session.
pub struct Fair<P> {
    terms: PhantomData<P>,
}

impl<P: Terms> Protocol<Work, Hand> for Fair<P> {
    ghost holds = { IsFair P.works };

    ghost first = { hand 1024 [] [] };
}

// One pass is made of another, and becomes a part of it again.
pub(crate) struct Cut;

impl Split<Hand> for Cut {
    ghost left = { λ v. hand (v.parts - 1) v.put v.taken };

    ghost right = { λ v. hand 1 [] [] };
}

impl Join<Hand> for Cut {
    ghost both = { λ v w. hand (v.parts + w.parts) (v.put ++ w.put) (v.taken ++ w.taken) };

    ghost spent = { hand 0 [] [] };
}

// A piece is put in.
pub(crate) struct Puts;

impl Outcome<Work, Hand> for Puts {
    ghost then = { λ v x w. w ≡ hand v.parts (v.put ++ x ∷ []) v.taken };
}

impl Lesson<Work, Hand> for Puts {
    ghost fact = { Whole };
}

// A piece of the session is taken out.
pub(crate) struct Takes<P> {
    terms: PhantomData<P>,
}

impl<P: Terms> Outcome<Work, Hand> for Takes<P> {
    ghost then = { λ v x w. (w ≡ hand v.parts v.put (v.taken ++ x ∷ [])) × IsIn x P.works };
}

impl<P: Terms> Lesson<Work, Hand> for Takes<P> {
    ghost fact = { Whole };
}

pub(crate) type Bench<P> = RuledArrayQueue<Work, Hand, Fair<P>, Global>;

pub(crate) type Pass = crossbeam_queue::Pass<Work, Hand>;
