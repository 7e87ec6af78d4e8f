//! A place where one permit lies between two calls on one file.
ghost use Rattle.std.specs.Prelude.{◌≡◌, [], IfSome};
ghost use Rattle.rights_permits.specs.Turns.{at_home};

use crate::permit::{Card, Permit};
use crate::token::ChannelPass;
use crate::{BooksName, TurnName};

/// A rest, as it lies under its lock. While it is open a permit may lie there, with nothing in hand.
pub(crate) struct Rest<B: BooksName, J: TurnName> {
    open: bool,
    resting: Option<Resting<B, J>>,
    /// Keeps the next rest in another line of the processor's cache. Nobody reads it.
    apart: [u64; 8],
}

/// A permit at rest, and its token.
struct Resting<B: BooksName, J: TurnName> {
    card: Card<B>,
    token: ChannelPass<B, J>,
    ghost one: { token ≡ 1 },
}

impl<B: BooksName, J: TurnName> Resting<B, J> {
    fn of_permit(permit: Permit<B, J>) -> Resting<B, J>
        requires tickets { permit.hand.tickets ≡ [] }
        requires tokens { permit.hand.tokens ≡ [] }
    {
        let (card, token) = permit.into_parts();
        Resting { card, token }
    }

    fn into_permit(self) -> Permit<B, J>
        ensures { result.hand ≡ at_home B.books.book }
    {
        let Resting { card, token } = self;
        Permit::of_parts(card.into_hand(), token)
    }
}

impl<B: BooksName, J: TurnName> Rest<B, J> {
    /// An open rest, where nothing lies.
    pub(crate) fn new() -> Rest<B, J> {
        Rest {
            open: true,
            resting: None,
            apart: [0; 8],
        }
    }

    /// The permit that lies there.
    pub(crate) fn take(&mut self) -> Option<Permit<B, J>>
        ensures { IfSome result (λ permit. permit.hand ≡ at_home B.books.book) }
    {
        match self.resting.take() {
            Some(resting) => Some(resting.into_permit()),
            None => None,
        }
    }

    /// Lays a permit down, which has nothing in hand. What finds no place comes back: this one where the rest is closed, and
    /// the one that lay there.
    pub(crate) fn put(&mut self, permit: Permit<B, J>) -> Option<Permit<B, J>>
        requires tickets { permit.hand.tickets ≡ [] }
        requires tokens { permit.hand.tokens ≡ [] }
        ensures { IfSome result (λ back. back.hand ≡ at_home B.books.book) }
    {
        if !self.open {
            return Some(permit);
        }
        match self.resting.replace(Resting::of_permit(permit)) {
            Some(resting) => Some(resting.into_permit()),
            None => None,
        }
    }

    /// Nothing lies there until it is opened again. What lay there comes out.
    pub(crate) fn close(&mut self) -> Option<Permit<B, J>>
        ensures { IfSome result (λ permit. permit.hand ≡ at_home B.books.book) }
    {
        self.open = false;
        self.take()
    }

    /// From now on a permit may lie there.
    pub(crate) fn open(&mut self) {
        self.open = true;
    }

    /// The permit that lies there, where the rest ends with the turnstile.
    pub(crate) fn into_permit(self) -> Option<Permit<B, J>>
        ensures { IfSome result (λ permit. permit.hand ≡ at_home B.books.book) }
    {
        let Rest {
            open: _,
            resting,
            apart: _,
        } = self;
        match resting {
            Some(resting) => Some(resting.into_permit()),
            None => None,
        }
    }
}
