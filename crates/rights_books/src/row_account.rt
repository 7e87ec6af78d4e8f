//! The two accounts of a part. What they have changes only in `Rows::note`. Where one is dropped, its claim stays in the rows
//! with nobody to step with it, so the part's row is never noted again.
ghost use Rattle.std.specs.Prelude.{◌≡◌};

use crate::Holder;
use crate::row_claim::RowClaim;
use std::marker::Model;

/// A part's account, `{ book; number; row }` to contracts: it lies in the part's lock, and has the part's row as it was noted
/// last. It takes eight bytes.
#[derive(Drop)]
pub struct PartAccount {
    pub(crate) holder: Holder<RowClaim>,
}

impl Model for PartAccount {
    ghost use Rattle.std.specs.Prelude.{◌≡◌};
    ghost use Rattle.rights_books.specs.RowAccounts.{RowView, row_view, part_claims};

    ghost Value = { RowView };

    ghost view = { λ a. row_view a.holder };

    ghost invariant = { λ a. a.holder.claims ≡ part_claims (row_view a.holder) };
}

/// Its twin, `{ book; number; row }` to contracts: it lies in the packs' lock. It takes eight bytes.
#[derive(Drop)]
pub struct KeptAccount {
    pub(crate) holder: Holder<RowClaim>,
}

impl Model for KeptAccount {
    ghost use Rattle.std.specs.Prelude.{◌≡◌};
    ghost use Rattle.rights_books.specs.RowAccounts.{RowView, row_view, kept_claims};

    ghost Value = { RowView };

    ghost view = { λ a. row_view a.holder };

    ghost invariant = { λ a. a.holder.claims ≡ kept_claims (row_view a.holder) };
}
