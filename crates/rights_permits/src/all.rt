//! All permits in one hand.
ghost use Rattle.std.specs.Prelude.{◌≡◌, []};
ghost use Rattle.rights_permits.specs.Turns.{all_permits, at_home};

use crate::token::ChannelPass;
use crate::{BooksName, TurnName};
use rights_books::{Audit, Books, Permits};

/// All 64 permits in one. They must be given back together, by `Turnstile::scatter`, or end with the turnstile. They take
/// no memory.
pub struct AllPermits<B: BooksName, J: TurnName> {
    /// What their one call has in hand. It is lent to the steps of the books.
    pub hand: rights_books::CallAccount,
    others: Permits,
    token: ChannelPass<B, J>,
    pub ghost home: { hand.book ≡ B.books.book },
    ghost others_home: { others.book ≡ B.books.book },
    ghost others_count: { others.count ≡ 63 },
    ghost all: { token ≡ all_permits },
}

/// All 64 permits, out as an audit of the books. `Turnstile::end_audit` gives them back.
pub struct Auditing<B: BooksName, J: TurnName> {
    /// What the audit has learned. It is lent to the steps of the books.
    pub audit: Audit,
    token: ChannelPass<B, J>,
    pub ghost home: { audit.book ≡ B.books.book },
    ghost all: { token ≡ all_permits },
}

impl<B: BooksName, J: TurnName> AllPermits<B, J> {
    pub(crate) fn of_parts(
        books: &Books,
        permits: Permits,
        token: ChannelPass<B, J>,
    ) -> AllPermits<B, J>
        requires books { books.now ≡ B.books }
        requires permits { permits ≡ record { book = B.books.book; count = all_permits } }
        requires all { token ≡ all_permits }
        ensures { result.hand ≡ at_home B.books.book }
    {
        let (others, hand) = books.take_permit(permits);
        AllPermits {
            hand,
            others,
            token,
        }
    }

    pub(crate) fn into_parts(self, books: &Books) -> (Permits, ChannelPass<B, J>)
        requires books { books.now ≡ B.books }
        requires tickets { self.hand.tickets ≡ [] }
        requires tokens { self.hand.tokens ≡ [] }
        ensures permits { result.0 ≡ record { book = B.books.book; count = all_permits } }
        ensures all { result.1 ≡ all_permits }
    {
        let AllPermits {
            hand,
            others,
            token,
        } = self;
        (books.add(others, hand), token)
    }

    // Nobody has a permit any more.
    pub(crate) fn into_token(self) -> ChannelPass<B, J>
        ensures { result ≡ all_permits }
    {
        let AllPermits {
            hand: _,
            others: _,
            token,
        } = self;
        token
    }
}

impl<B: BooksName, J: TurnName> Auditing<B, J> {
    pub(crate) fn of_parts(audit: Audit, token: ChannelPass<B, J>) -> Auditing<B, J>
        requires home { audit.book ≡ B.books.book }
        requires all { token ≡ all_permits }
        ensures { result.audit ≡ audit }
    {
        Auditing { audit, token }
    }

    pub(crate) fn into_parts(self) -> (Audit, ChannelPass<B, J>)
        ensures audit { result.0 ≡ self.audit }
        ensures all { result.1 ≡ all_permits }
    {
        let Auditing { audit, token } = self;
        (audit, token)
    }
}
