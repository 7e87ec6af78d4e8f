//! Rows of an image that only proofs read.
ghost use Rattle.std.specs.Prelude.{◌≡◌};
ghost use Rattle.std.specs.Borrow.{ftrue};
ghost use Rattle.checkpoint_image.specs.Rows.{Rows};

use std::marker::Model;

/// What shows rows of an image.
pub trait ShowsRows {
    ghost rows: { Self → Rows };
}

/// Rows of an image that only proofs read. They take no memory, and nothing runs where they are shown.
#[derive(Drop)]
pub struct RowLog {
    pub ghost rows: { Rows },
}

impl Model for RowLog {
    ghost also_owns = { λ _. ftrue };
}

// It owns nothing.
unsafe impl Send for RowLog {}

impl RowLog {
    /// The rows that are shown.
    pub fn of<S: ShowsRows>(_shown: &S) -> RowLog
        ensures { result.rows ≡ S.rows _shown.now }
    {
        RowLog {}
    }
}
