//! The books, and the one step that all others are made of.
ghost use Rattle.std.specs.Prelude.{◌≡◌, [], ◌∷◌, ◌++◌};
ghost use Rattle.rights_books.specs.ClaimRules.{Ruled, Follows};
ghost use Rattle.rights_books.specs.declared.claim.Layout.{Layout};
ghost use Rattle.rights_books.specs.declared.claim.Claim.{Claim};
ghost use Rattle.rights_books.specs.declared.claim.Claim.TheVariants.{Hand};
ghost use Rattle.rights_books.specs.Rules.{Lawful, opening};

use crate::claim::{Claim, Layout};
use crate::{Book, Change, Holder, Law};
use std::marker::{Brand, Model, PhantomData};

/// The law of the books.
pub struct BooksLaw;

impl Law<Claim, Layout> for BooksLaw {
    ghost lawful = { Lawful };

    ghost first = { opening };
}

/// The books of one volume, `{ book; key }` to contracts: which they are, and their layout. All threads share them by
/// `&`. A step is one atomic addition, waits for nothing and takes no memory.
#[derive(Drop)]
pub struct Books {
    pub(crate) book: Book<Claim, Layout, BooksLaw>,
}

impl Model for Books {
    ghost Value = { Ruled Layout };

    ghost view = { λ b. b.book };
}

/// What two accounts become in one step, for the proof alone.
pub(crate) trait Exchange {
    ghost one: { Claim };

    ghost other: { Claim };

    ghost told: { Type 0 };
}

impl Exchange for Brand {
    ghost one = { Hand [] [] };

    ghost other = { Hand [] [] };

    ghost told = { Unit {0} };
}

/// The change by which two accounts become what the exchange says.
pub(crate) struct Exchanged<X> {
    exchange: PhantomData<X>,
}

impl<X: Exchange> Change<Claim> for Exchanged<X> {
    ghost after = { X.one ∷ X.other ∷ [] };

    ghost told = { X.told };
}

/// The change by which two accounts become the first that the exchange says.
pub(crate) struct Absorbed<X> {
    exchange: PhantomData<X>,
}

impl<X: Exchange> Change<Claim> for Absorbed<X> {
    ghost after = { X.one ∷ [] };

    ghost told = { X.told };
}

impl Books {
    // One step of two accounts. What the step is about is for the proof alone.
    pub(crate) fn exchange<T, X: Exchange>(
        &self,
        one: &mut Holder<Claim>,
        other: &mut Holder<Claim>,
        about: &T,
    )
        requires books { (one.old.book ≡ self.now.book) × (other.old.book ≡ self.now.book) }
        requires rule { Follows (Lawful self.now.key) (one.old.claims ++ other.old.claims) (X.one ∷ X.other ∷ []) X.told }
        ensures books { (one.new.book ≡ one.old.book) × (other.new.book ≡ other.old.book) }
        ensures claims { (one.new.claims ≡ X.one ∷ []) × (other.new.claims ≡ X.other ∷ []) }
        ensures told { X.told }
    {
        self.book.exchange::<T, Exchanged<X>>(one, other, 1, about);
    }

    // One step in which the second account goes into the first.
    pub(crate) fn absorb<X: Exchange>(&self, one: &mut Holder<Claim>, other: Holder<Claim>)
        requires books { (one.old.book ≡ self.now.book) × (other.book ≡ self.now.book) }
        requires rule { Follows (Lawful self.now.key) (one.old.claims ++ other.claims) (X.one ∷ []) X.told }
        ensures book { one.new.book ≡ one.old.book }
        ensures claims { one.new.claims ≡ X.one ∷ [] }
        ensures told { X.told }
    {
        self.book.join(one, other);
        self.book.step::<Absorbed<X>>(one);
    }
}
