//! What a caller says of its claims: their law, and each change.
use std::marker::Brand;

/// A law over what all claims weigh together. C is a claim, and K what the law is told once, when the book is opened.
pub trait Law<C, K> {
    ghost use Rattle.std.specs.Prelude.{ℕ, List};

    // Given what all claims weigh together, for every way to weigh a claim.
    ghost lawful: { K → ((C → ℕ) → ℕ) → Type 0 };
    // The claims of the first holder.
    ghost first: { K → List C };
}

/// A change of one holder's claims, for the proof alone. A type of the caller's names it, or a call at `Brand` picks it.
pub trait Change<C> {
    ghost use Rattle.std.specs.Prelude.{List};

    // The claims after it.
    ghost after: { List C };
    // What the caller learns by it.
    ghost told: { Type 0 };
}

impl<C> Change<C> for Brand {
    ghost use Rattle.std.specs.Prelude.{[]};

    ghost after = { [] };

    ghost told = { Unit {0} };
}

/// What is learned of two holders' claims, for the proof alone. A type of the caller's names it, or a call at `Brand` picks
/// it.
pub trait Lesson {
    ghost told: { Type 0 };
}

impl Lesson for Brand {
    ghost told = { Unit {0} };
}
