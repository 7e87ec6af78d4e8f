//! Who has claims.
use crate::RestingSeat;
use std::collections::LinkedList;
use std::marker::Model;

/// Has claims of one book, `{ book; claims }` to contracts. Where it is dropped its claims stay in the
/// book, and nobody has them any more.
#[derive(Drop)]
pub struct Holder<C> {
    pub(crate) seat: RestingSeat<LinkedList<C>>,
    /// Which word of the book its steps add to. It changes nothing of what they do.
    pub(crate) word: usize,
}

impl<C> Model for Holder<C> {
    ghost use Rattle.std.specs.Prelude.{◌≡◌, ◌<◌, [], ◌∷◌};
    ghost use Rattle.rights_books.specs.ClaimRules.{Held, first_view};

    ghost Value = { Held C };

    ghost view = { λ h. record { book = h.seat.table_id; claims = first_view h.seat.views } };

    ghost invariant = { λ h. (h.seat.views ≡ first_view h.seat.views ∷ []) × (h.word < 520) };
}
