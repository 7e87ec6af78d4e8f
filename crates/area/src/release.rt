//! Takes tickets back.
ghost use Rattle.std.specs.Prelude.{◌≡◌, ◌<◌, length};
ghost use Rattle.geometry.specs.Mark.{same_mark};
ghost use Rattle.geometry.specs.Shape.{block_bytes};
ghost use Rattle.rights_books.specs.Lists.{times, without};

use crate::main_area::MainArea;
use device::Block;
use geometry::Mark;
use rights_books::CallAccount;
use rights_permits::VolumeName;
use std::sync::Wait;
use tickets::Ticket;

impl<V: VolumeName, B: Block + Drop> MainArea<V, B> {
    /// Takes back a ticket that is in hand: its block is valid no more. It cannot be refused.
    pub fn release<R: Wait>(&self, rt: &R, hand: &mut CallAccount, ticket: Ticket<B>)
        requires book { hand.old.book ≡ V.Books.books.book }
        requires held { 0 < times same_mark ticket.mark hand.old.tickets }
        requires bytes { length ticket.content ≡ block_bytes V.Numbers.geometry.shape }
        ensures hand { hand.new ≡ record hand.old { tickets = without same_mark ticket.mark hand.old.tickets } }
    {
        let address = ticket.address();
        let mark = Mark {
            address,
            owner: ticket.owner(),
        };
        self.books().locate(hand, mark);
        let mut segment = self.lock_segment(rt, self.geometry().segment_of(address));
        segment.release(self.books(), self.words(), hand, ticket);
    }
}
