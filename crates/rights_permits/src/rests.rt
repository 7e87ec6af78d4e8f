//! The rests of a turnstile.
ghost use Rattle.std.specs.Prelude.{◌≡◌, ◌≤◌, [], IfSome};
ghost use Rattle.crossbeam_channel.specs.Ends.{sends_on};
ghost use Rattle.rights_permits.specs.Turns.{at_home, IsRing};

use crate::law::Sends;
use crate::permit::Permit;
use crate::rest::Rest;
use crate::token::ChannelPass;
use crate::{BooksName, TurnName};
use std::sync::{Mutex, Wait};

const ROW: u32 = 8;

const RESTS: u32 = 48;

type Place<B, J> = Mutex<Rest<B, J>>;

/// Eight rests. Each is a field, and so are the rows: an array of them would be of a size that is not known, which all above
/// would owe, and what is in them can't be dropped, so each is named where they end.
struct Row<B: BooksName, J: TurnName> {
    first: Place<B, J>,
    second: Place<B, J>,
    third: Place<B, J>,
    fourth: Place<B, J>,
    fifth: Place<B, J>,
    sixth: Place<B, J>,
    seventh: Place<B, J>,
    eighth: Place<B, J>,
}

/// A rest, under a lock of its own, for each number from 1 to 48. A lock is held for a moment only, and nobody waits for anything
/// else meanwhile.
pub(crate) struct Rests<B: BooksName, J: TurnName> {
    first: Row<B, J>,
    second: Row<B, J>,
    third: Row<B, J>,
    fourth: Row<B, J>,
    fifth: Row<B, J>,
    sixth: Row<B, J>,
}

impl<B: BooksName, J: TurnName> Row<B, J> {
    fn new() -> Row<B, J> {
        Row {
            first: Mutex::new(Rest::new()),
            second: Mutex::new(Rest::new()),
            third: Mutex::new(Rest::new()),
            fourth: Mutex::new(Rest::new()),
            fifth: Mutex::new(Rest::new()),
            sixth: Mutex::new(Rest::new()),
            seventh: Mutex::new(Rest::new()),
            eighth: Mutex::new(Rest::new()),
        }
    }

    fn at(&self, place: u32) -> &Place<B, J> {
        match place {
            0 => &self.first,
            1 => &self.second,
            2 => &self.third,
            3 => &self.fourth,
            4 => &self.fifth,
            5 => &self.sixth,
            6 => &self.seventh,
            _ => &self.eighth,
        }
    }

    fn end(self, sender: &Sends<B>, token: &mut ChannelPass<B, J>)
        requires channel { IsRing J.turns J.key (sends_on sender.now) }
        ensures { token.old ≤ token.new }
    {
        let Row {
            first,
            second,
            third,
            fourth,
            fifth,
            sixth,
            seventh,
            eighth,
        } = self;
        end_rest(first, sender, token);
        end_rest(second, sender, token);
        end_rest(third, sender, token);
        end_rest(fourth, sender, token);
        end_rest(fifth, sender, token);
        end_rest(sixth, sender, token);
        end_rest(seventh, sender, token);
        end_rest(eighth, sender, token);
    }
}

impl<B: BooksName, J: TurnName> Rests<B, J> {
    /// All are open, and nothing lies there.
    pub(crate) fn new() -> Rests<B, J> {
        Rests {
            first: Row::new(),
            second: Row::new(),
            third: Row::new(),
            fourth: Row::new(),
            fifth: Row::new(),
            sixth: Row::new(),
        }
    }

    fn of_number(&self, number: u32) -> Option<&Place<B, J>> {
        let place = number.wrapping_sub(1);
        let row = match place / ROW {
            0 => &self.first,
            1 => &self.second,
            2 => &self.third,
            3 => &self.fourth,
            4 => &self.fifth,
            5 => &self.sixth,
            _ => return None,
        };
        Some(row.at(place % ROW))
    }

    /// The permit that rests at a number.
    pub(crate) fn take<R: Wait>(&self, rt: &R, number: u32) -> Option<Permit<B, J>>
        ensures { IfSome result (λ permit. permit.hand ≡ at_home B.books.book) }
    {
        let mut rest = self.of_number(number)?.lock(rt);
        rest.take()
    }

    /// Lays a permit down at a number, with nothing in hand. What finds no place comes back.
    pub(crate) fn put<R: Wait>(
        &self,
        rt: &R,
        number: u32,
        permit: Permit<B, J>,
    ) -> Option<Permit<B, J>>
        requires tickets { permit.hand.tickets ≡ [] }
        requires tokens { permit.hand.tokens ≡ [] }
        ensures { IfSome result (λ back. back.hand ≡ at_home B.books.book) }
    {
        match self.of_number(number) {
            Some(place) => {
                let mut rest = place.lock(rt);
                rest.put(permit)
            }
            None => Some(permit),
        }
    }

    /// Nothing rests at a number any more, until all are opened. What rested there comes out.
    pub(crate) fn close<R: Wait>(&self, rt: &R, number: u32) -> Option<Permit<B, J>>
        ensures { IfSome result (λ permit. permit.hand ≡ at_home B.books.book) }
    {
        let mut rest = self.of_number(number)?.lock(rt);
        rest.close()
    }

    /// Opens all, one after another.
    pub(crate) fn open<R: Wait>(&self, rt: &R) {
        for number in 0..RESTS {
            if let Some(place) = self.of_number(number + 1) {
                let mut rest = place.lock(rt);
                rest.open();
            }
        }
    }

    /// The end. What rests goes into the token.
    pub(crate) fn end(self, sender: &Sends<B>, token: &mut ChannelPass<B, J>)
        requires channel { IsRing J.turns J.key (sends_on sender.now) }
        ensures { token.old ≤ token.new }
    {
        let Rests {
            first,
            second,
            third,
            fourth,
            fifth,
            sixth,
        } = self;
        first.end(sender, token);
        second.end(sender, token);
        third.end(sender, token);
        fourth.end(sender, token);
        fifth.end(sender, token);
        sixth.end(sender, token);
    }
}

fn end_rest<B: BooksName, J: TurnName>(
    place: Mutex<Rest<B, J>>,
    sender: &Sends<B>,
    token: &mut ChannelPass<B, J>,
)
    requires channel { IsRing J.turns J.key (sends_on sender.now) }
    ensures { token.old ≤ token.new }
{
    if let Some(permit) = place.into_inner().into_permit() {
        let (_card, one) = permit.into_parts();
        token.join(sender, one);
    }
}
