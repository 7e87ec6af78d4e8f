//! Bytes that only proofs read.
ghost use Rattle.std.specs.Prelude.{◌≡◌, ℕ, List};
ghost use Rattle.std.specs.Borrow.{ftrue};

use std::marker::Model;

/// Bytes as they stood in a buffer, which only proofs read. They take no memory, and nothing runs where they are kept.
#[derive(Drop)]
pub struct SeenBytes {
    pub ghost items: { List ℕ },
}

impl Model for SeenBytes {
    ghost also_owns = { λ _. ftrue };
}

impl SeenBytes {
    /// The bytes that the slice has.
    pub(crate) fn of(_shown: &[u8]) -> SeenBytes
        ensures { result.items ≡ _shown.now }
    {
        SeenBytes {}
    }
}
