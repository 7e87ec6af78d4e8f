//! The rows, and the one step in which both accounts of a part change.
ghost use Rattle.std.specs.Prelude.{◌≡◌, ℕ};
ghost use Rattle.rights_books.specs.declared.row_claim.Row.{Row};
ghost use Rattle.rights_books.specs.RowRules.{Lawful, opening};

use crate::row_account::{KeptAccount, PartAccount};
use crate::row_claim::RowClaim;
use crate::{Book, Change, Law, Lesson};
use std::marker::{Brand, Model};

/// The law of the rows.
pub struct SameRows;

impl Law<RowClaim, u32> for SameRows {
    ghost lawful = { λ parts. Lawful };

    ghost first = { opening };
}

/// The rows of one volume's parts. To contracts they are the table that they lie in, so which they are. All threads share them
/// by `&`. A step is one atomic addition, waits for nothing and takes no memory.
#[derive(Drop)]
pub struct Rows {
    pub(crate) book: Book<RowClaim, u32, SameRows>,
}

impl Model for Rows {
    ghost use Rattle.atomic_table.specs.Seated.{TableId};

    ghost Value = { TableId };

    ghost view = { λ r. r.book.book };
}

/// What a pack spells a row of.
pub trait Spelled {
    ghost spelled: { Self → Row };
}

impl Rows {
    /// Notes the row of what is shown as the part's, in both of its accounts at once. Before, they had the same.
    pub fn note<P: Spelled>(&self, part: &mut PartAccount, kept: &mut KeptAccount, shown: &P)
        requires books { (part.old.book ≡ self.now) × (kept.old.book ≡ self.now) }
        requires number { part.old.number ≡ kept.old.number }
        ensures same { part.old.row ≡ kept.old.row }
        ensures part { part.new ≡ record part.old { row = P.spelled shown.now } }
        ensures kept { kept.new ≡ record kept.old { row = P.spelled shown.now } }
    {
        self.book
            .exchange::<P, Brand>(&mut part.holder, &mut kept.holder, 1, shown);
    }

    /// Tells that both accounts of a part have the same row. Nothing runs and nothing changes.
    pub fn compare(&self, part: &PartAccount, kept: &KeptAccount)
        requires books { (part.now.book ≡ self.now) × (kept.now.book ≡ self.now) }
        requires number { part.now.number ≡ kept.now.number }
        ensures same { part.now.row ≡ kept.now.row }
    {
        self.book.tell::<Brand>(&part.holder, &kept.holder);
    }
}
