//! A segment while its valid blocks leave home, at a mount.
ghost use Rattle.std.specs.Prelude.{◌≡◌, ◌+◌, ◌<◌, ◌≤◌, ◌∷◌, [], Option, Some, None, length, replicate, slice_index_or, slice_set, MatchOption};
ghost use Rattle.geometry.specs.declared.state.State.TheVariants.{Free, Open, Sealed};
ghost use Rattle.geometry.specs.Shape.{block_bytes, segment_blocks};
ghost use Rattle.geometry.specs.Address.{address_of};
ghost use Rattle.geometry.specs.Owner.{IsOwner};
ghost use Rattle.words.specs.Claims.{fresh_life};
ghost use Rattle.sit.specs.Summaries.{count_of};

use crate::blocks::Blocks;
use crate::body::Body;
use crate::room::EmptySegment;
use crate::segment::SegmentState;
use crate::thread::HoleFilling;
use crate::valid::ValidBlocks;
use device::Block;
use geometry::{Mark, Owner, Shape, State};
use rights_books::{Books, CallAccount, PartRow, SegmentAccount};
use std::marker::Model;
use tickets::Ticket;
use words::{FreeSlip, OpenSlip, Standing, Words};

/// A segment of a volume that is mounted, while its blocks come in, the last one first: each that somebody names is marked,
/// and its ticket goes out; the others come home. `{ shape; number; book; left; summaries; contents; failed }` to contracts: the
/// blocks below `left` are still to come, `contents` are the bytes of those at home, and `failed` is how often these have failed.
#[derive(Drop)]
pub struct Loading<B: Block + Drop> {
    shape: Shape,
    number: u32,
    left: u32,
    blocks: Blocks<B>,
    valid: ValidBlocks,
    thread: HoleFilling,
    account: SegmentAccount,
}

impl<B: Block + Drop> Model for Loading<B> {
    ghost use Rattle.sit.specs.Loading.{Loaded, IsLoading};

    ghost Value = { Loaded };

    ghost view = { λ s. record { shape = s.shape; number = s.number; book = s.account.book; left = s.left; summaries = s.valid; contents = s.blocks.contents; failed = s.blocks.failed } };

    ghost invariant = { λ s. IsLoading s.shape s.number s.left s.blocks s.valid s.thread s.account };
}

impl<B: Block + Drop> EmptySegment<B> {
    /// The segment, before its first block comes in, over its account.
    pub fn load(self, account: SegmentAccount) -> Loading<B>
        requires account { account ≡ record { book = account.book; segment = self.number; marks = [] } }
        ensures { result ≡ record { shape = self.shape; number = self.number; book = account.book; left = segment_blocks self.shape; summaries = replicate (segment_blocks self.shape) None; contents = replicate (segment_blocks self.shape) []; failed = 0 } }
    {
        let (shape, number, blocks, valid, thread) = self.into_parts();
        Loading {
            shape,
            number,
            left: shape.segment_blocks(),
            blocks,
            valid,
            thread,
            account,
        }
    }
}

impl<B: Block + Drop> Loading<B> {
    ghost use Rattle.sit.specs.Loading.{AreItsBooks, IsAccountOf, HasLoadedSealed, loaded_segment, contents_put};
    ghost use Rattle.sit.specs.Segment.{IsFitting};
    ghost use Rattle.sit.specs.Registered.{post_of, slip_of};
    ghost use Rattle.words.specs.Tokens.{IsOpened};

    /// The block of the last place that is still to come: where somebody names it, it is marked, and its ticket, which is in
    /// the permit's hand, goes out; else it comes home.
    pub fn put(
        &mut self,
        books: &Books,
        hand: &mut CallAccount,
        block: B,
        owner: Option<Owner>,
    ) -> Option<Ticket<B>>
        requires books { AreItsBooks books.now self.old }
        requires hand { hand.old.book ≡ self.old.book }
        requires left { 0 < self.old.left }
        requires address { B.address_of block + 1 ≡ address_of self.old.shape self.old.number self.old.left }
        requires bytes { length (B.content_of block) ≡ block_bytes self.old.shape }
        requires owner { MatchOption owner (Unit {0}) IsOwner }
        ensures ticket { MatchOption result (owner ≡ None) (λ ticket. owner ≡ Some ticket.mark.owner) }
        ensures block { MatchOption result (Unit {0}) (λ ticket. (ticket.mark.address ≡ B.address_of block) × (ticket.content ≡ B.content_of block)) }
        ensures hand { MatchOption result (hand.new ≡ hand.old) (λ ticket. hand.new ≡ record hand.old { tickets = ticket.mark ∷ hand.old.tickets }) }
        ensures left { self.new.left + 1 ≡ self.old.left }
        ensures segment { self.new ≡ record self.old { left = self.new.left; summaries = slice_set self.old.summaries self.new.left owner; contents = contents_put self.old.contents self.new.left (B.content_of block) owner; failed = self.new.failed } }
    {
        self.left -= 1;
        match owner {
            None => {
                self.blocks.put(self.left as usize, block);
                None
            }
            Some(owner) => {
                self.valid.set(self.left, owner);
                let address = block.address();
                let mark = Mark { address, owner };
                let claimed = books.mark(&mut self.account, hand, mark);
                Some(Ticket::new(claimed, block))
            }
        }
    }

    // Its blocks and who names them, once all have come, and its account.
    fn into_body(self, state: State, next: u32, mtime: u64) -> (Body<B>, SegmentAccount)
        requires all { self.left ≡ 0 }
        requires fitting { IsFitting state next self.summaries }
        ensures body { result.0 ≡ loaded_segment self state next mtime }
        ensures account { IsAccountOf self result.1 }
    {
        let Loading {
            shape,
            number,
            left: _,
            blocks,
            valid,
            mut thread,
            account,
        } = self;
        thread.keep(&valid);
        let body = Body {
            shape,
            number,
            state,
            blocks,
            valid,
            mtime,
            next,
            thread,
        };
        (body, account)
    }

    /// The segment, free, once all blocks have come and none is valid.
    pub fn into_free(self, standing: Standing, mtime: u64) -> SegmentState<B>
        requires all { self.left ≡ 0 }
        requires none { count_of self.summaries ≡ 0 }
        requires standing { standing.life ≡ fresh_life self.number }
        ensures segment { result.segment ≡ loaded_segment self Free 0 mtime }
        ensures book { result.book ≡ self.book }
        ensures standing { post_of result ≡ standing }
    {
        let (body, account) = self.into_body(State::Free, 0, mtime);
        SegmentState {
            body,
            account,
            standing,
            row: PartRow::new(),
        }
    }

    /// The segment in which a log stands, open, once all blocks have come and none at or past its next place is valid, with
    /// the slip of an open segment.
    pub fn into_open(
        self,
        words: &Words,
        mut standing: Standing,
        slip: FreeSlip,
        next: u32,
        mtime: u64,
    ) -> (SegmentState<B>, OpenSlip)
        requires all { self.left ≡ 0 }
        requires next { IsFitting Open next self.summaries }
        requires words { words.now.table ≡ standing.table }
        requires standing { standing.life ≡ fresh_life self.number }
        requires slip { (slip.table ≡ standing.table) × (slip.segment ≡ self.number) }
        ensures segment { result.0.segment ≡ loaded_segment self Open next mtime }
        ensures book { result.0.book ≡ self.book }
        ensures slip { result.1 ≡ slip_of result.0 }
        ensures life { IsOpened standing result.1 (post_of result.0) }
    {
        let opened = words.open(&mut standing, slip);
        let (body, account) = self.into_body(State::Open, next, mtime);
        let segment = SegmentState {
            body,
            account,
            standing,
            row: PartRow::new(),
        };
        (segment, opened)
    }

    /// The segment, sealed, once all blocks have come and some is valid. It was opened once.
    pub fn into_sealed(
        self,
        words: &Words,
        mut standing: Standing,
        slip: FreeSlip,
        mtime: u64,
    ) -> SegmentState<B>
        requires all { self.left ≡ 0 }
        requires some { 0 < count_of self.summaries }
        requires words { words.now.table ≡ standing.table }
        requires standing { standing.life ≡ fresh_life self.number }
        requires slip { (slip.table ≡ standing.table) × (slip.segment ≡ self.number) }
        ensures segment { result.segment ≡ loaded_segment self Sealed 0 mtime }
        ensures book { result.book ≡ self.book }
        ensures life { HasLoadedSealed standing (post_of result) }
    {
        let opened = words.open(&mut standing, slip);
        words.seal(&mut standing, opened);
        let (body, account) = self.into_body(State::Sealed, 0, mtime);
        SegmentState {
            body,
            account,
            standing,
            row: PartRow::new(),
        }
    }
}
