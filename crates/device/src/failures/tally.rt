// A number that only proofs read. It takes no memory, and its functions do nothing at run time.
ghost use Rattle.std.specs.Prelude.{◌≡◌, ◌+◌, ℕ};
ghost use Rattle.std.specs.Borrow.{ftrue};

use std::marker::Model;

/// A number that only proofs read.
#[derive(Drop)]
pub struct FailureTally {
    pub ghost count: { ℕ },
}

impl Model for FailureTally {
    ghost also_owns = { λ _. ftrue };
}

// It owns nothing.
unsafe impl Send for FailureTally {}

impl FailureTally {
    /// Nothing is counted.
    pub fn zero() -> FailureTally
        ensures { result.count ≡ 0 }
    {
        FailureTally {}
    }

    /// One more.
    pub fn next(_before: &FailureTally) -> FailureTally
        ensures { result.count ≡ _before.now.count + 1 }
    {
        FailureTally {}
    }
}
