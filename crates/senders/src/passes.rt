//! What is done with the queue of work and its passes.
ghost use Rattle.std.specs.Prelude.{◌≡◌, ℕ, ◌+◌, ◌<◌, ◌≤◌, [], ◌∷◌, ◌++◌, length, List, All, IfOk, IfSome, IfNone, vec_len, slice_index_or};
ghost use Rattle.crossbeam_queue.specs.Passes.{view, IsPassOf, IsSamePass, ruled_capacity};
ghost use Rattle.lane_lock.specs.Numbers.{total, Each, IsIn};
ghost use Rattle.senders.specs.Bench.{hand, KnowsAll};

use crate::benches::{Bench, Cut, Pass, Puts, Takes, Terms};
use crate::pieces::Work;
use std::alloc::{AllocError, Global};
use std::sync::Wait;

/// A queue with room for so many pieces, and its whole pass.
pub(crate) fn make_bench<P: Terms>(
    alloc: Global,
    pieces: usize,
) -> Result<(Bench<P>, Pass), AllocError>
    ensures { IfOk result (λ made. (pieces ≤ ruled_capacity made.0) × IsPassOf made.0 made.1 × (view made.1 ≡ hand 1024 [] [])) }
{
    Bench::<P>::ruled(alloc, pieces.max(1))
}

/// Puts all pieces into the queue, which has room for them.
pub(crate) fn put_all<P: Terms, R: Wait>(
    rt: &R,
    bench: &Bench<P>,
    pass: &mut Pass,
    works: Vec<Work>,
)
    requires pass { IsPassOf bench.now pass.old × (view pass.old ≡ hand 1024 [] []) }
    requires room { vec_len works ≤ ruled_capacity bench.now }
    requires pieces { Each (λ piece. IsIn piece P.works) works.items }
    ensures pass { IsPassOf bench.now pass.new × (view pass.new ≡ hand 1024 works.items []) }
{
    let mut rest = works.into_iter();
    while let Some(piece) = rest.next() {
        put(rt, bench, pass, piece);
    }
}

/// Puts a piece into the queue, which has room for it.
fn put<P: Terms, R: Wait>(rt: &R, bench: &Bench<P>, pass: &mut Pass, piece: Work)
    requires pass { IsPassOf bench.now pass.old × ((view pass.old).parts ≡ 1024) × ((view pass.old).taken ≡ []) }
    requires room { length (view pass.old).put < ruled_capacity bench.now }
    requires piece { IsIn piece P.works }
    ensures pass { IsPassOf bench.now pass.new × (view pass.new ≡ hand 1024 ((view pass.old).put ++ piece ∷ []) []) }
{
    match bench.push_as::<Puts, R>(rt, pass, piece) {
        Ok(()) => {}
        Err(_) => unreachable!(),
    }
}

/// Takes a piece from the queue. There is none only where the queue was empty at one moment of the call.
pub(crate) fn take<P: Terms, R: Wait>(rt: &R, bench: &Bench<P>, pass: &mut Pass) -> Option<Work>
    requires pass { IsPassOf bench.now pass.old × (0 < (view pass.old).parts) }
    ensures pass { IsPassOf bench.now pass.new }
    ensures taken { IfSome result (λ piece. (view pass.new ≡ hand (view pass.old).parts (view pass.old).put ((view pass.old).taken ++ piece ∷ [])) × IsIn piece P.works) }
    ensures none { IfNone result ((view pass.new ≡ view pass.old) × KnowsAll (view pass.old)) }
{
    bench.pop_as::<Takes<P>, R>(rt, pass)
}

/// One pass more, cut from the pass of the session.
pub(crate) fn split<P: Terms>(bench: &Bench<P>, pass: &mut Pass) -> Pass
    requires pass { IsPassOf bench.now pass.old × (1 < (view pass.old).parts) }
    ensures pass { IsPassOf bench.now pass.new × ((view pass.new).put ≡ (view pass.old).put) × ((view pass.new).taken ≡ (view pass.old).taken) × ((view pass.new).parts + 1 ≡ (view pass.old).parts) }
    ensures other { IsPassOf bench.now result × (view result ≡ hand 1 [] []) }
{
    bench.another::<Cut>(pass)
}

/// Joins a pass into another.
pub(crate) fn unite<P: Terms>(bench: &Bench<P>, pass: &mut Pass, other: Pass)
    requires pass { IsPassOf bench.now pass.old × IsPassOf bench.now other × (0 < (view pass.old).parts) }
    ensures { IsPassOf bench.now pass.new × (view pass.new ≡ hand ((view pass.old).parts + (view other).parts) ((view pass.old).put ++ (view other).put) ((view pass.old).taken ++ (view other).taken)) }
{
    bench.absorb::<Cut>(pass, other);
}
