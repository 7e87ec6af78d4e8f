//! Marked blocks and their tickets: a block is marked and cleared, and its ticket goes into a file and out of it.
ghost use Rattle.std.specs.Prelude.{◌≡◌, ◌-◌, ◌/◌, ◌<◌, ◌∷◌};
ghost use Rattle.geometry.specs.Mark.{same_mark};
ghost use Rattle.rights_books.specs.Lists.{times, without};

use crate::account::{CallAccount, FileAccount, MarkClaim, SegmentAccount};
use crate::books::Books;
use geometry::Mark;
use std::marker::Brand;

impl Books {
    /// Marks a block of the segment, and gives its ticket into the hand (Linux `filesystems/f2fs`, segment information
    /// table). The block is one of the segment's; whether it was free, the segment's own bits tell.
    pub fn mark(
        &self,
        segment: &mut SegmentAccount,
        hand: &mut CallAccount,
        mark: Mark,
    ) -> MarkClaim
        requires books { (segment.old.book ≡ self.now.book) × (hand.old.book ≡ self.now.book) }
        requires address { 0 < mark.address }
        requires home { (mark.address - 1) / self.now.key.blocks ≡ segment.old.segment }
        ensures ticket { result ≡ mark }
        ensures segment { segment.new ≡ record segment.old { marks = mark ∷ segment.old.marks } }
        ensures hand { hand.new ≡ record hand.old { tickets = mark ∷ hand.old.tickets } }
    {
        self.exchange::<Mark, Brand>(&mut segment.holder, &mut hand.holder, &mark);
        MarkClaim { mark }
    }

    /// Spends a ticket that is in hand. Its block was marked in its segment, and is no more.
    pub fn clear(&self, segment: &mut SegmentAccount, hand: &mut CallAccount, ticket: MarkClaim)
        requires books { (segment.old.book ≡ self.now.book) × (hand.old.book ≡ self.now.book) }
        requires home { (ticket.address - 1) / self.now.key.blocks ≡ segment.old.segment }
        requires held { 0 < times same_mark ticket hand.old.tickets }
        ensures marked { 0 < times same_mark ticket segment.old.marks }
        ensures segment { segment.new ≡ record segment.old { marks = without same_mark ticket segment.old.marks } }
        ensures hand { hand.new ≡ record hand.old { tickets = without same_mark ticket hand.old.tickets } }
    {
        let MarkClaim { mark: spent } = ticket;
        self.exchange::<Mark, Brand>(&mut segment.holder, &mut hand.holder, &spent);
    }

    /// Lodges a ticket that is in hand in a file.
    pub fn lodge(&self, file: &mut FileAccount, hand: &mut CallAccount, ticket: &MarkClaim)
        requires books { (file.old.book ≡ self.now.book) × (hand.old.book ≡ self.now.book) }
        requires held { 0 < times same_mark ticket.now hand.old.tickets }
        ensures file { file.new ≡ record file.old { tickets = ticket.now ∷ file.old.tickets } }
        ensures hand { hand.new ≡ record hand.old { tickets = without same_mark ticket.now hand.old.tickets } }
    {
        let lodged = ticket.mark;
        self.exchange::<Mark, Brand>(&mut file.holder, &mut hand.holder, &lodged);
    }

    /// Takes a ticket that is lodged in a file into the hand.
    pub fn unlodge(&self, file: &mut FileAccount, hand: &mut CallAccount, ticket: &MarkClaim)
        requires books { (file.old.book ≡ self.now.book) × (hand.old.book ≡ self.now.book) }
        requires lodged { 0 < times same_mark ticket.now file.old.tickets }
        ensures file { file.new ≡ record file.old { tickets = without same_mark ticket.now file.old.tickets } }
        ensures hand { hand.new ≡ record hand.old { tickets = ticket.now ∷ hand.old.tickets } }
    {
        let unlodged = ticket.mark;
        self.exchange::<Mark, Brand>(&mut file.holder, &mut hand.holder, &unlodged);
    }
}
