//! A history that only proofs read, its latest entry first. It takes no memory, and its methods do nothing at run time.
ghost use Rattle.std.specs.Prelude.{◌≡◌, List, [], ◌∷◌};
ghost use Rattle.std.specs.Borrow.{ftrue};

use std::marker::{Model, PhantomData};

/// A history that only proofs read. A clause reads the entries as `items`, the latest first.
#[derive(Drop)]
pub struct History<A, B> {
    of: PhantomData<(A, B)>,
    pub ghost items: { List (A × B) },
}

impl<A, B> Model for History<A, B> {
    ghost also_owns = { λ _. ftrue };
}

// It owns nothing.
unsafe impl<A: Send, B: Send> Send for History<A, B> {}

impl<A, B> History<A, B> {
    /// No entry.
    pub fn new() -> History<A, B>
        ensures { result.items ≡ [] }
    {
        History { of: PhantomData }
    }

    /// The history with one more entry in front.
    pub fn and(&self, first: &A, second: &B) -> History<A, B>
        ensures { result.items ≡ (first.now, second.now) ∷ self.now.items }
    {
        History { of: PhantomData }
    }
}
