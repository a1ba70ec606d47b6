//! A record that only proofs read. It takes no memory, and its methods do nothing at run time.

ghost use Rattle.std.specs.Prelude.{◌≡◌, List, [], ◌∷◌, ◌++◌};
ghost use Rattle.std.specs.Borrow.{ftrue};

use std::marker::{Model, PhantomData};

/// A clause reads the pairs as `items`.
#[derive(Drop)]
pub struct Trace<A, B> {
    of: PhantomData<(A, B)>,
    pub ghost items: { List (A × B) },
}

impl<A, B> Model for Trace<A, B> {
    ghost also_owns = { λ _. ftrue };
}

// It owns nothing.
unsafe impl<A: Send, B: Send> Send for Trace<A, B> {}

unsafe impl<A: Sync, B: Sync> Sync for Trace<A, B> {}

impl<A, B> Trace<A, B> {
    /// An empty record.
    pub fn new() -> Trace<A, B>
        ensures { result.items ≡ [] }
    {
        Trace { of: PhantomData }
    }

    /// The record with one more pair.
    pub fn and(&self, first: &A, second: &B) -> Trace<A, B>
        ensures { result.items ≡ self.now.items ++ (first.now, second.now) ∷ [] }
    {
        Trace { of: PhantomData }
    }
}
