//! The law of a book as a rule of its table, and what each step of the table does to the claims.
ghost use Rattle.std.specs.Prelude.{◌≡◌, ℕ, [], ◌++◌, take, drop};

use crate::Fact;
use crate::law::{Change, Law, Lesson};
use atomic_table::{Join, Play, Split, TableRule};
use std::collections::LinkedList;
use std::marker::{Brand, PhantomData};

/// The rule of a book's table: its law.
pub struct Obeys<L> {
    law: PhantomData<L>,
}

impl<C, K, L: Law<C, K>> TableRule<(), LinkedList<C>, K> for Obeys<L> {
    ghost use Rattle.rights_books.specs.ClaimRules.{Kept};

    ghost holds = { λ k. Kept (L.lawful k) };

    ghost first = { L.first };
}

/// A step that makes a change.
pub struct Changes<M> {
    change: PhantomData<M>,
}

impl<C, M: Change<C>> Play<(), LinkedList<C>> for Changes<M> {
    ghost then = { λ s m n w. (w.0 ≡ M.after) × (w.1 ≡ m.1) × M.told };
}

/// How many claims stay where a holder is cut, for the proof alone.
pub trait ClaimsThatStay {
    ghost kept: { ℕ };
}

impl ClaimsThatStay for Brand {
    ghost kept = { 0 };
}

/// A cut behind so many claims.
pub struct Cut<N> {
    count: PhantomData<N>,
}

impl<C, N: ClaimsThatStay> Split<LinkedList<C>> for Cut<N> {
    ghost left = { take N.kept };

    ghost right = { drop N.kept };
}

/// The claims of two holders, one after the other.
pub struct Both;

impl<C> Join<LinkedList<C>> for Both {
    ghost both = { λ v w. v ++ w };

    ghost spent = { [] };
}

/// What is learned of two holders.
pub struct Learned<M> {
    lesson: PhantomData<M>,
}

impl<C, M: Lesson> Fact<LinkedList<C>> for Learned<M> {
    ghost told = { λ vs ws. M.told };
}
