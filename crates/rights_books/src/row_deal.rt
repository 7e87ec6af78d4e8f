//! The rows of a volume's parts before any was spelled, and the two accounts of each.
ghost use Rattle.std.specs.Prelude.{◌≡◌, ℕ, [], ◌∷◌, ◌++◌, length, drop, IfOk};
ghost use Rattle.rights_books.specs.RowRules.{opening, blank};
ghost use Rattle.rights_books.specs.declared.row_claim.RowClaim.TheVariants.{Part, Kept};
ghost use Rattle.rights_books.specs.RowAccounts.{AreBlank, first_of, number_of};

use crate::row_account::{KeptAccount, PartAccount};
use crate::row_claim::RowClaim;
use crate::rows::Rows;
use crate::{Book, Holder};
use std::alloc::{AllocError, Global};

/// The rows of parts of which nothing was spelled, and the two accounts of each.
#[derive(Drop)]
pub struct OpenedRows {
    /// The rows.
    pub rows: Rows,
    /// The account of each part, from 0 on.
    pub parts: Vec<PartAccount>,
    /// The twin of each.
    pub kept: Vec<KeptAccount>,
}

impl Rows {
    /// The rows of so many parts, all empty, and the two accounts of each. It fails only where memory is out, and then nothing
    /// is left.
    pub fn open(alloc: Global, parts: u32) -> Result<OpenedRows, AllocError>
        ensures every_part { IfOk result (λ o. length o.parts.items ≡ parts) }
        ensures parts { IfOk result (λ o. AreBlank o.rows o.parts.items) }
        ensures every_kept { IfOk result (λ o. length o.kept.items ≡ parts) }
        ensures kept { IfOk result (λ o. AreBlank o.rows o.kept.items) }
    {
        let (book, holder) = Book::open(alloc, &parts)?;
        let rows = Rows { book };
        let (parts, kept) = rows.deal(alloc, holder, parts)?;
        Ok(OpenedRows { rows, parts, kept })
    }

    // The accounts of so many parts.
    fn deal(
        &self,
        alloc: Global,
        holder: Holder<RowClaim>,
        count: u32,
    ) -> Result<(Vec<PartAccount>, Vec<KeptAccount>), AllocError>
        requires book { holder.book ≡ self.now }
        requires claims { holder.claims ≡ opening count }
        ensures every_part { IfOk result (λ r. length r.0.items ≡ count) }
        ensures parts { IfOk result (λ r. AreBlank self.now r.0.items) }
        ensures every_kept { IfOk result (λ r. length r.1.items ≡ count) }
        ensures kept { IfOk result (λ r. AreBlank self.now r.1.items) }
    {
        let mut parts = Vec::with_capacity(alloc, count as usize)?;
        let mut twins = Vec::with_capacity(alloc, count as usize)?;
        let mut holder = holder;
        for _ in 0..count {
            let (part, kept, rest) = self.deal_pair(holder);
            holder = rest;
            parts.push(part)?;
            twins.push(kept)?;
        }
        Ok((parts, twins))
    }

    // The two accounts of the next part.
    fn deal_pair(&self, holder: Holder<RowClaim>) -> (PartAccount, KeptAccount, Holder<RowClaim>)
        requires book { holder.book ≡ self.now }
        requires first { holder.claims ≡ Part (number_of (first_of holder.claims)) blank ∷ Kept (number_of (first_of holder.claims)) blank ∷ drop 2 holder.claims }
        ensures part { result.0 ≡ record { book = self.now; number = number_of (first_of holder.claims); row = blank } }
        ensures kept { result.1 ≡ record { book = self.now; number = number_of (first_of holder.claims); row = blank } }
        ensures rest { (result.2.book ≡ self.now) × (result.2.claims ≡ drop 2 holder.claims) }
    {
        let mut part = holder;
        let mut kept = self.book.part(&mut part, 1);
        let rest = self.book.part(&mut kept, 1);
        (
            PartAccount { holder: part },
            KeptAccount { holder: kept },
            rest,
        )
    }
}
