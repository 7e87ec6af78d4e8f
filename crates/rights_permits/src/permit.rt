//! One permit, in the channel and in a call.
ghost use Rattle.std.specs.Prelude.{◌≡◌, []};
ghost use Rattle.rights_permits.specs.Turns.{at_home};

use crate::token::ChannelPass;
use crate::{BooksName, TurnName};
use std::marker::{Model, PhantomData};

/// A permit as it lies in the channel, with nothing in hand. It may be dropped with the channel.
#[derive(Drop)]
pub struct Card<B: BooksName> {
    hand: rights_books::CallAccount,
    books: PhantomData<B>,
}

impl<B: BooksName> Model for Card<B> {
    ghost use Rattle.std.specs.Prelude.{◌≡◌};
    ghost use Rattle.rights_books.specs.Accounts.{HandView};
    ghost use Rattle.rights_permits.specs.Turns.{at_home};

    ghost Value = { HandView };

    ghost view = { λ c. c.hand };

    ghost invariant = { λ c. c.hand ≡ at_home B.books.book };
}

impl<B: BooksName> Card<B> {
    pub(crate) fn of_hand(hand: rights_books::CallAccount) -> Card<B>
        requires nothing { hand ≡ at_home B.books.book }
    {
        Card {
            hand,
            books: PhantomData,
        }
    }

    pub(crate) fn into_hand(self) -> rights_books::CallAccount
        ensures { result ≡ at_home B.books.book }
    {
        self.hand
    }
}

/// The right to change the volume, for the length of one call. It must be given back by `Turnstile::leave`.
pub struct Permit<B: BooksName, J: TurnName> {
    /// What the call has in hand. It is lent to the steps of the books.
    pub hand: rights_books::CallAccount,
    pub(crate) token: ChannelPass<B, J>,
    pub ghost home: { hand.book ≡ B.books.book },
    ghost one: { token ≡ 1 },
}

impl<B: BooksName, J: TurnName> Permit<B, J> {
    pub(crate) fn of_parts(
        hand: rights_books::CallAccount,
        token: ChannelPass<B, J>,
    ) -> Permit<B, J>
        requires home { hand.book ≡ B.books.book }
        requires one { token ≡ 1 }
        ensures { result.hand ≡ hand }
    {
        Permit { hand, token }
    }

    pub(crate) fn into_parts(self) -> (Card<B>, ChannelPass<B, J>)
        requires tickets { self.hand.tickets ≡ [] }
        requires tokens { self.hand.tokens ≡ [] }
        ensures { result.1 ≡ 1 }
    {
        let Permit { hand, token } = self;
        (Card::of_hand(hand), token)
    }
}
