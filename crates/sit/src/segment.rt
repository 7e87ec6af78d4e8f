//! One segment, as it lies in its lock.
ghost use Rattle.std.specs.Prelude.{◌≡◌, ℕ, List, ◌+◌, ◌<◌, ◌≤◌, IsTrue, ◌↔◌, Some, None, true, false, ◌∷◌, ◌++◌, map, length, slice_index_or, MatchOption, OnOk, OnErr, IfOk, IfErr, IfSome, vec_len, vec_capacity};
ghost use Rattle.geometry.specs.declared.state.State.TheVariants.{Free, Open, Sealed, Prefree};
ghost use Rattle.geometry.specs.declared.error.Error.TheVariants.{Device};
ghost use Rattle.geometry.specs.Shape.{block_bytes, segment_blocks};
ghost use Rattle.geometry.specs.Address.{address_of, segment_of, offset_of};
ghost use Rattle.geometry.specs.Owner.{IsOwner};
ghost use Rattle.geometry.specs.Mark.{same_mark};
ghost use Rattle.device.specs.Parts.{IsBlockRun};
ghost use Rattle.rights_books.specs.Lists.{times, without};
ghost use Rattle.words.specs.Claims.{times as pins_on};
ghost use Rattle.words.specs.Steps.{pins_with};
ghost use Rattle.words.specs.Tokens.{IsOpened, IsSealed, IsFreed, IsKept};
ghost use Rattle.sit.specs.Summaries.{is_set, count_of};
ghost use Rattle.sit.specs.NextValid.{IsNextValid};
ghost use Rattle.geometry.specs.Segment.{IsHole};
ghost use Rattle.sit.specs.Thread.{ended, keeping, IsNextHole};

use crate::body::Body;
use crate::standing::{retire_empty, seal_full, show_open};
use device::Block;
use geometry::{Error, Mark, Owner, State};
use rights_books::{Audit, Books, CallAccount, FileAccount, PartRow, SegmentAccount};
use std::marker::Model;
use tickets::Ticket;
use words::{CheckpointSeat, FreeSlip, OpenSlip, SeatToken, Standing, StoredOpenSlip, Words};

/// One segment in its lock (Linux `filesystems/f2fs`, segment information table and segment summary area). The law, whenever
/// the lock is free: a block's bit is set exactly where the block is not at home; each set bit has one ticket out, whose
/// owner the summary names; the count is that of the set bits; an open segment has a next place, and no valid block at or
/// past it; a sealed one has some valid block; a retired or free one has none; its state is that of its word; and each hole that
/// a log is to fill is neither valid nor in the last completed checkpoint, and only a sealed segment has some. The
/// row that is noted of it is its own.
#[derive(Drop)]
pub struct SegmentState<B: Block + Drop> {
    pub(crate) body: Body<B>,
    pub(crate) account: SegmentAccount,
    pub(crate) standing: Standing,
    pub(crate) row: PartRow,
}

impl<B: Block + Drop> Model for SegmentState<B> {
    ghost use Rattle.std.specs.Prelude.{◌≡◌, IfSome};
    ghost use Rattle.sit.specs.Registered.{Registered, IsRegistered};
    ghost use Rattle.sit.specs.Noted.{segment_row};

    ghost Value = { Registered };

    ghost view = { λ s. record { segment = s.body; book = s.account.book; table = s.standing.table; life = s.standing.life; part = s.row.part } };

    ghost invariant = { λ s. IsRegistered s.body s.account s.standing.life × IfSome s.row.noted (λ row. row ≡ segment_row s.body) };
}

/// What became of a segment that lost a valid block.
#[derive(Clone, Copy, PartialEq, Eq)]
pub enum Released {
    /// It is in the state in which it was.
    Kept,
    /// It was sealed, has no valid block any more, and is retired.
    Retired,
}

/// What a choice of a victim looks at in a segment.
#[derive(Clone, Copy, PartialEq, Eq)]
pub struct SegmentRow {
    /// Its number, from 0 on.
    pub number: u32,
    /// Where it is in its life.
    pub state: State,
    /// How many of its blocks are valid.
    pub valid: u32,
    /// The largest time of an append.
    pub mtime: u64,
    /// Whether a log fills its holes.
    pub threaded: bool,
}

impl<B: Block + Drop> SegmentState<B> {
    ghost use Rattle.geometry.specs.Weights.{SameItems};
    ghost use Rattle.geometry.specs.Weights.{weigh};
    ghost use Rattle.rights_books.specs.Weights.{segment_copy, past};
    ghost use Rattle.sit.specs.Learned.{HasLearned};
    ghost use Rattle.sit.specs.Segment.{IsFitting, fill_of, placed, threaded, cleared, entered, marks_of, HasPlaced, HasSpoiled, HasSpoiledAt};
    ghost use Rattle.sit.specs.Threaded.{with_thread, HasThreaded, HasFilled, HasMissed};
    ghost use Rattle.sit.specs.Registered.{AreItsBooks, IsSameBook, HasLivedOn, HasStood, post_of, slip_of, slip_after};
    ghost use Rattle.sit.specs.Released.{HasReleased};
    ghost use Rattle.sit.specs.Pinned.{HasBlockIn, HasBeenPinned};
    ghost use Rattle.sit.specs.Row.{row_of};
    ghost use Rattle.sit.specs.ShownBlocks.{ShowsBlocks, FollowsBlocks};
    ghost use Rattle.geometry.specs.Blocks.{changed};

    /// Where it is in its life.
    pub fn state(&self) -> State
        ensures { result ≡ self.now.segment.state }
    {
        self.body.state()
    }

    /// How many of its blocks are valid.
    pub fn count(&self) -> u32
        ensures { result ≡ count_of self.now.segment.summaries }
    {
        self.body.count()
    }

    /// The place of the next append to an open segment, from 0 on.
    pub fn next(&self) -> u32
        ensures { result ≡ self.now.segment.next }
    {
        self.body.next()
    }

    /// Who names the block at a place, if anybody does.
    pub fn summary(&self, offset: u32) -> Option<Owner>
        requires { offset < segment_blocks self.now.segment.shape }
        ensures { result ≡ slice_index_or self.now.segment.summaries offset None }
    {
        self.body.summary(offset)
    }

    /// The least valid place at or past one.
    pub fn next_set(&self, from: u32) -> Option<u32>
        ensures { IsNextValid self.now.segment.summaries from result }
    {
        self.body.next_set(from)
    }

    /// What a choice of a victim looks at.
    pub fn row(&self) -> SegmentRow
        ensures { result ≡ row_of self.now.segment }
    {
        self.body.row()
    }

    /// Tells what holds of every segment: each of its blocks has a summary, and its state says which of them are valid.
    pub fn law(&self)
        ensures sized { length self.now.segment.summaries ≡ segment_blocks self.now.segment.shape }
        ensures fitting { IsFitting self.now.segment.state self.now.segment.next self.now.segment.summaries }
    {
        self.body.law();
    }

    /// Tells that the segment is open, by its slip. Nothing changes.
    pub fn show_open(&mut self, words: &Words, slip: &mut Option<StoredOpenSlip>)
        requires words { words.now.table ≡ self.old.table }
        requires slip { slip.old ≡ Some (slip_of self.old) }
        ensures open { self.old.segment.state ≡ Open }
        ensures same { self.new ≡ self.old }
        ensures slip { slip.new ≡ slip.old }
    {
        show_open(words, &mut self.standing, slip);
    }

    /// An audit of the books learns its valid blocks. It goes by ascending numbers.
    pub fn learn(&mut self, books: &Books, audit: &mut Audit)
        requires books { (books.now.book ≡ self.old.book) × (audit.old.book ≡ self.old.book) }
        requires ascending { weigh (segment_copy (past self.old.segment.number)) audit.old.copies ≡ 0 }
        ensures same { self.new ≡ self.old }
        ensures audit { HasLearned self.old.segment audit.old audit.new }
    {
        books.learn_segment(audit, &mut self.account);
    }

    /// Writes the block at the next place of the segment, which its slip shows to be open; the block is valid from then on,
    /// and its ticket, which names this owner, is in the permit's hand. Where that was the last place the segment is sealed
    /// and the slip spent. The order of the places is that of a log (Rosenblum and Ousterhout 1991).
    ///
    /// The only error is Device, which the device has counted: then nothing is marked, the place stays, and the block at it
    /// holds any bytes. No other block that is at home changes its bytes, whatever is answered.
    pub fn place(
        &mut self,
        books: &Books,
        words: &Words,
        hand: &mut CallAccount,
        slip: &mut Option<StoredOpenSlip>,
        owner: Owner,
        now: u64,
        bytes: &[u8],
    ) -> Result<Ticket<B>, Error>
        requires books { AreItsBooks books.now self.old }
        requires hand { hand.old.book ≡ self.old.book }
        requires words { words.now.table ≡ self.old.table }
        requires slip { slip.old ≡ Some (slip_of self.old) }
        requires owner { IsOwner owner }
        requires bytes { length bytes.now ≡ block_bytes self.old.segment.shape }
        ensures mark { IfOk result (λ ticket. ticket.mark ≡ record { address = address_of self.old.segment.shape self.old.segment.number self.old.segment.next; owner = owner }) }
        ensures content { IfOk result (λ ticket. ticket.content ≡ bytes.now) }
        ensures segment { OnOk result (HasPlaced (placed self.old.segment owner now self.new.segment.failed) self.new.segment) }
        ensures life { OnOk result (HasLivedOn self.new.segment.state (post_of self.old) (post_of self.new)) }
        ensures slip { OnOk result (slip.new ≡ slip_after self.new.segment.state slip.old) }
        ensures marks { IfOk result (λ ticket. SameItems (ticket.mark ∷ marks_of self.old.segment) (marks_of self.new.segment)) }
        ensures count { OnOk result (count_of self.new.segment.summaries ≡ count_of self.old.segment.summaries + 1) }
        ensures blocks { IfOk result (λ ticket. FollowsBlocks (λ blocks. changed blocks ticket.mark.address ticket.content) self.old.segment self.new.segment) }
        ensures hand { IfOk result (λ ticket. hand.new ≡ record hand.old { tickets = ticket.mark ∷ hand.old.tickets }) }
        ensures book { IsSameBook self.old self.new }
        ensures error { IfErr result (λ error. error ≡ Device) }
        ensures failure { OnErr result (self.old.segment.failed < self.new.segment.failed) }
        ensures err { OnErr result (self.new ≡ record self.old { segment = self.new.segment }) }
        ensures spoiled { OnErr result (HasSpoiled self.old.segment self.new.segment) }
        ensures err_blocks { OnErr result ((bytes : List ℕ) × FollowsBlocks (λ blocks. changed blocks (address_of self.old.segment.shape self.old.segment.number self.old.segment.next) bytes) self.old.segment self.new.segment) }
        ensures err_slip { OnErr result (slip.new ≡ slip.old) }
        ensures err_hand { OnErr result (hand.new ≡ hand.old) }
    {
        show_open(words, &mut self.standing, slip);
        self.row.change();
        let block = self.body.place(owner, now, bytes)?;
        let address = block.address();
        let claimed = books.mark(&mut self.account, hand, Mark { address, owner });
        seal_full(words, &mut self.standing, slip, self.body.state());
        Ok(Ticket::new(claimed, block))
    }

    /// A log begins to fill its holes: the blocks that are neither valid nor in the last completed checkpoint (threaded logging:
    /// Rosenblum and Ousterhout 1991; Linux `filesystems/f2fs`). Answers true exactly where the segment is sealed, no log fills
    /// its holes, this call's own load showed no pin, and there is a hole. So a block is placed again without a new incarnation
    /// only if it was a hole when no reader held the segment.
    pub fn thread(&mut self, words: &Words, log: u32) -> bool
        requires words { words.now.table ≡ self.old.table }
        ensures threaded { HasThreaded result log self.old self.new }
        ensures book { IsSameBook self.old self.new }
    {
        if !self.body.is_threadable() {
            return false;
        }
        if words.load_pins(&mut self.standing) > 0 {
            return false;
        }
        self.body.thread(log)
    }

    /// Writes the block in the next hole that a log fills, the first one, and gives the block's ticket, which is in the permit's
    /// hand from then on. The segment stays sealed, in its incarnation; the log's thread ends with its last hole. Answers `None`
    /// where the log fills no holes of the segment. The only error is Device: then the device has counted a failure, the block
    /// holds any bytes, nothing is marked and the hole stays.
    pub fn place_threaded(
        &mut self,
        books: &Books,
        hand: &mut CallAccount,
        log: u32,
        owner: Owner,
        now: u64,
        bytes: &[u8],
    ) -> Result<Option<Ticket<B>>, Error>
        requires books { AreItsBooks books.now self.old }
        requires hand { hand.old.book ≡ self.old.book }
        requires owner { IsOwner owner }
        requires bytes { length bytes.now ≡ block_bytes self.old.segment.shape }
        ensures filled { IfOk result (λ found. MatchOption found ((self.new ≡ self.old) × IsNextHole self.old.segment.thread log None) (λ ticket. HasFilled log owner now bytes.now self.old self.new ticket)) }
        ensures life { post_of self.new ≡ post_of self.old }
        ensures marks { IfOk result (λ found. IfSome found (λ ticket. SameItems (ticket.mark ∷ marks_of self.old.segment) (marks_of self.new.segment))) }
        ensures blocks { IfOk result (λ found. IfSome found (λ ticket. FollowsBlocks (λ blocks. changed blocks ticket.mark.address ticket.content) self.old.segment self.new.segment)) }
        ensures hand { IfOk result (λ found. MatchOption found (hand.new ≡ hand.old) (λ ticket. hand.new ≡ record hand.old { tickets = ticket.mark ∷ hand.old.tickets })) }
        ensures book { IsSameBook self.old self.new }
        ensures error { IfErr result (λ error. error ≡ Device) }
        ensures failure { OnErr result (self.old.segment.failed < self.new.segment.failed) }
        ensures err { OnErr result (self.new ≡ record self.old { segment = self.new.segment }) }
        ensures missed { OnErr result (HasMissed log self.old self.new) }
        ensures err_hand { OnErr result (hand.new ≡ hand.old) }
    {
        match self.body.next_hole(log) {
            None => Ok(None),
            Some(offset) => match self.fill(books, hand, offset, owner, now, bytes) {
                Ok(ticket) => Ok(Some(ticket)),
                Err(error) => Err(error),
            },
        }
    }

    // Writes the block in a hole.
    fn fill(
        &mut self,
        books: &Books,
        hand: &mut CallAccount,
        offset: u32,
        owner: Owner,
        now: u64,
        bytes: &[u8],
    ) -> Result<Ticket<B>, Error>
        requires books { AreItsBooks books.now self.old }
        requires hand { hand.old.book ≡ self.old.book }
        requires hole { slice_index_or self.old.segment.thread.holes offset false ≡ true }
        requires owner { IsOwner owner }
        requires bytes { length bytes.now ≡ block_bytes self.old.segment.shape }
        ensures within { offset < segment_blocks self.old.segment.shape }
        ensures sealed { self.old.segment.state ≡ Sealed }
        ensures hole { IsHole (fill_of self.old.segment) (slice_index_or self.old.segment.thread.kept offset false) offset }
        ensures mark { IfOk result (λ ticket. ticket.mark ≡ record { address = address_of self.old.segment.shape self.old.segment.number offset; owner = owner }) }
        ensures content { IfOk result (λ ticket. ticket.content ≡ bytes.now) }
        ensures segment { OnOk result (self.new.segment ≡ threaded self.old.segment offset owner now self.new.segment.failed) }
        ensures life { post_of self.new ≡ post_of self.old }
        ensures marks { IfOk result (λ ticket. SameItems (ticket.mark ∷ marks_of self.old.segment) (marks_of self.new.segment)) }
        ensures blocks { IfOk result (λ ticket. FollowsBlocks (λ blocks. changed blocks ticket.mark.address ticket.content) self.old.segment self.new.segment) }
        ensures hand { IfOk result (λ ticket. hand.new ≡ record hand.old { tickets = ticket.mark ∷ hand.old.tickets }) }
        ensures book { IsSameBook self.old self.new }
        ensures error { IfErr result (λ error. error ≡ Device) }
        ensures failure { OnErr result (self.old.segment.failed < self.new.segment.failed) }
        ensures err { OnErr result (self.new ≡ record self.old { segment = self.new.segment }) }
        ensures spoiled { OnErr result (HasSpoiledAt offset self.old.segment self.new.segment) }
        ensures err_hand { OnErr result (hand.new ≡ hand.old) }
    {
        self.row.change();
        let block = self.body.fill(offset, owner, now, bytes)?;
        let address = block.address();
        let claimed = books.mark(&mut self.account, hand, Mark { address, owner });
        Ok(Ticket::new(claimed, block))
    }

    /// No log fills its holes any more.
    pub fn unthread(&mut self)
        ensures { self.new ≡ record self.old { segment = with_thread self.old.segment (ended self.old.segment.thread) } }
    {
        self.body.unthread();
    }

    /// Whether its valid blocks are those that the last completed checkpoint marks. Where they are, `keep` changes nothing.
    pub fn is_kept(&self) -> bool
        ensures { IsTrue result ↔ (self.now.segment.thread.kept ≡ map is_set self.now.segment.summaries) }
    {
        self.body.is_kept()
    }

    /// A checkpoint is complete that marks its valid blocks: none has changed since the image was taken, as an audit has all permits.
    pub fn keep(&mut self, seat: &CheckpointSeat, audit: &Audit)
        requires words { seat.now.table ≡ self.old.table }
        requires book { audit.now.book ≡ self.old.book }
        ensures { self.new ≡ record self.old { segment = with_thread self.old.segment (keeping self.old.segment.summaries self.old.segment.thread) } }
    {
        let _seat = seat;
        let _audit = audit;
        self.body.keep();
    }

    /// Takes back the ticket of one of its blocks, which is in the permit's hand. That the block is valid, and named by the
    /// ticket's owner, the books show. The block comes home with its bytes and is valid no more. A sealed segment that has no valid block
    /// left is retired in the same call. This cannot be refused.
    pub fn release(
        &mut self,
        books: &Books,
        words: &Words,
        hand: &mut CallAccount,
        ticket: Ticket<B>,
    ) -> Released
        requires books { AreItsBooks books.now self.old }
        requires hand { hand.old.book ≡ self.old.book }
        requires words { words.now.table ≡ self.old.table }
        requires home { segment_of self.old.segment.shape ticket.mark.address ≡ self.old.segment.number }
        requires held { 0 < times same_mark ticket.mark hand.old.tickets }
        requires bytes { length ticket.content ≡ block_bytes self.old.segment.shape }
        ensures valid { slice_index_or self.old.segment.summaries (offset_of self.old.segment.shape ticket.mark.address) None ≡ Some ticket.mark.owner }
        ensures segment { HasReleased (cleared self.old.segment (offset_of self.old.segment.shape ticket.mark.address) ticket.content self.new.segment.failed) result self.new.segment }
        ensures life { HasStood result (post_of self.old) (post_of self.new) }
        ensures marks { SameItems (ticket.mark ∷ marks_of self.new.segment) (marks_of self.old.segment) }
        ensures blocks { (blocks : ℕ → List ℕ) → blocks ticket.mark.address ≡ ticket.content → ShowsBlocks self.old.segment blocks → ShowsBlocks self.new.segment blocks }
        ensures hand { hand.new ≡ record hand.old { tickets = without same_mark ticket.mark hand.old.tickets } }
        ensures book { IsSameBook self.old self.new }
    {
        self.row.change();
        let (claimed, block) = ticket.into_parts();
        books.clear(&mut self.account, hand, claimed);
        let released = self.body.release(block);
        retire_empty(words, &mut self.standing, released);
        released
    }

    /// Pins the segment for a reader's seat, so that it stays in its incarnation. That a ticket of one of its blocks is lodged
    /// in a file shows that it has a valid block, and so that it is open or sealed. This cannot be refused.
    pub fn pin(
        &mut self,
        books: &Books,
        words: &Words,
        file: &mut FileAccount,
        seat: &mut SeatToken,
    )
        requires books { AreItsBooks books.now self.old }
        requires file { file.old.book ≡ self.old.book }
        requires words { words.now.table ≡ self.old.table }
        requires seat { seat.old.table ≡ self.old.table }
        requires lodged { HasBlockIn self.old.segment file.old.tickets }
        requires once { pins_on self.old.segment.number seat.old.pins.held ≡ 0 }
        ensures segment { self.new.segment ≡ self.old.segment }
        ensures life { HasBeenPinned (post_of self.old) (post_of self.new) }
        ensures seat { (seat.new.table ≡ seat.old.table) × (seat.new.pins ≡ pins_with seat.old.pins self.old.segment.number self.old.life.incarnation) }
        ensures file { file.new ≡ file.old }
        ensures book { IsSameBook self.old self.new }
    {
        books.show_marked(&mut self.account, file);
        self.body.show_state();
        words.pin(&mut self.standing, seat);
    }

    /// Seals a segment that has a valid block, before its last place is taken. Its slip shows that it is open, and is spent.
    pub fn seal(&mut self, words: &Words, slip: OpenSlip)
        requires words { words.now.table ≡ self.old.table }
        requires slip { slip ≡ slip_of self.old }
        requires some { 0 < count_of self.old.segment.summaries }
        ensures segment { self.new.segment ≡ entered self.old.segment Sealed }
        ensures life { IsSealed (post_of self.old) (post_of self.new) }
        ensures book { IsSameBook self.old self.new }
    {
        words.seal(&mut self.standing, slip);
        self.body.seal();
    }

    /// Retires the segment if it is sealed and none of its blocks is valid. `release` does so in its own call, so there
    /// is nothing left to do between calls.
    pub fn retire(&mut self, words: &Words) -> Released
        requires words { words.now.table ≡ self.old.table }
        ensures segment { HasReleased self.old.segment result self.new.segment }
        ensures life { HasStood result (post_of self.old) (post_of self.new) }
        ensures book { IsSameBook self.old self.new }
    {
        let released = self.body.retire();
        retire_empty(words, &mut self.standing, released);
        released
    }

    /// Frees a retired segment, and answers its one free slip. It answers `None`, and the segment stays retired, where a pin
    /// is out or no version is complete that is later than the one in which it was retired.
    pub fn free(&mut self, words: &Words) -> Option<FreeSlip>
        requires words { words.now.table ≡ self.old.table }
        requires retired { self.old.segment.state ≡ Prefree }
        ensures segment { MatchOption result (self.new.segment ≡ self.old.segment) (λ slip. self.new.segment ≡ entered self.old.segment Free) }
        ensures life { MatchOption result (IsKept (post_of self.old) (post_of self.new)) (λ slip. IsFreed (post_of self.old) slip (post_of self.new)) }
        ensures book { IsSameBook self.old self.new }
    {
        match words.free(&mut self.standing) {
            Some(slip) => {
                self.body.free();
                Some(slip)
            }
            None => None,
        }
    }

    /// Opens a segment, which its slip shows to be free, and gives the slip of an open one; its next place is its first.
    /// This cannot be refused.
    pub fn open(&mut self, words: &Words, slip: FreeSlip) -> OpenSlip
        requires words { words.now.table ≡ self.old.table }
        requires slip { (slip.table ≡ self.old.table) × (slip.segment ≡ self.old.segment.number) }
        ensures free { self.old.segment.state ≡ Free }
        ensures segment { self.new.segment ≡ entered self.old.segment Open }
        ensures slip { result ≡ slip_of self.old }
        ensures life { IsOpened (post_of self.old) result (post_of self.new) }
        ensures book { IsSameBook self.old self.new }
    {
        let opened = words.open(&mut self.standing, slip);
        self.body.open();
        opened
    }

    /// The blocks of a segment without valid blocks, put behind a run that begins at address 1 and ends before them. It
    /// takes no memory.
    pub fn empty_into(self, all: &mut Vec<B>)
        requires none { count_of self.segment.summaries ≡ 0 }
        requires run { IsBlockRun B.address_of B.content_of (block_bytes self.segment.shape) 1 all.old.items }
        requires next { address_of self.segment.shape self.segment.number 0 ≡ 1 + vec_len all.old }
        requires room { vec_len all.old + segment_blocks self.segment.shape ≤ vec_capacity all.old }
        ensures run { IsBlockRun B.address_of B.content_of (block_bytes self.segment.shape) 1 all.new.items }
        ensures count { vec_len all.new ≡ vec_len all.old + segment_blocks self.segment.shape }
        ensures contents { map B.content_of all.new.items ≡ map B.content_of all.old.items ++ self.segment.contents }
        ensures capacity { vec_capacity all.new ≡ vec_capacity all.old }
    {
        self.body.empty_into(all);
    }
}
