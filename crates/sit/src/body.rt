//! One segment's blocks, without the rights to it: which are valid, who names each, and which are at home.
ghost use Rattle.std.specs.Prelude.{◌≡◌, ◌+◌, ◌<◌, ◌≤◌, IsTrue, ◌↔◌, ◌++◌, [], Some, None, true, false, map, length, slice_index_or, IsSome, OnOk, OnErr, IfOk, vec_len, vec_capacity};
ghost use Rattle.device.specs.Parts.{IsBlockRun};
ghost use Rattle.geometry.specs.declared.state.State.TheVariants.{Free, Open, Sealed, Prefree};
ghost use Rattle.geometry.specs.Shape.{block_bytes, segment_blocks};
ghost use Rattle.geometry.specs.Address.{address_of, segment_of, offset_of};
ghost use Rattle.geometry.specs.Owner.{IsOwner};
ghost use Rattle.geometry.specs.Bits.{bits_of};
ghost use Rattle.geometry.specs.Summary.{owner_in};
ghost use Rattle.sit.specs.Summaries.{is_set, summary_in, count_of};
ghost use Rattle.sit.specs.Segment.{IsFitting};
ghost use Rattle.sit.specs.NextValid.{IsNextValid};
ghost use Rattle.sit.specs.Released.{IsFate, thread_left};
ghost use Rattle.geometry.specs.Segment.{IsHole};
ghost use Rattle.sit.specs.Thread.{ended, is_threadable, keeping, IsNextHole};

use crate::blocks::Blocks;
use crate::segment::{Released, SegmentRow};
use crate::thread::HoleFilling;
use crate::valid::ValidBlocks;
use device::{Block, DeviceError};
use geometry::{Owner, Shape, State, Summary};
use std::marker::Model;

/// One segment, under its law: a bit is set exactly where the block is not at home, and the summary names its owner; the
/// count is that of the set bits; an open segment has a next place, and no valid block at or past it; a sealed one has some
/// valid block, and a retired or free one has none. Each hole that a log is to fill is neither valid nor in the last completed
/// checkpoint, and only a sealed segment has some.
#[derive(Drop)]
pub(crate) struct Body<B: Block + Drop> {
    pub(crate) shape: Shape,
    pub(crate) number: u32,
    pub(crate) state: State,
    pub(crate) blocks: Blocks<B>,
    pub(crate) valid: ValidBlocks,
    pub(crate) mtime: u64,
    pub(crate) next: u32,
    pub(crate) thread: HoleFilling,
}

impl<B: Block + Drop> Model for Body<B> {
    ghost use Rattle.sit.specs.Segment.{Segment, SegmentLaw};

    ghost Value = { Segment };

    ghost view = { λ s. record { shape = s.shape; number = s.number; state = s.state; summaries = s.valid; mtime = s.mtime; next = s.next; contents = s.blocks.contents; failed = s.blocks.failed; thread = s.thread } };

    ghost invariant = { λ s. SegmentLaw (record { shape = s.shape; number = s.number; state = s.state; summaries = s.valid; mtime = s.mtime; next = s.next; contents = s.blocks.contents; failed = s.blocks.failed; thread = s.thread }) s.blocks };
}

impl<B: Block + Drop> Body<B> {
    ghost use Rattle.sit.specs.Segment.{IsFitting, fill_of, placed, threaded, cleared, entered, HasPlaced, HasSpoiled, HasSpoiledAt};
    ghost use Rattle.sit.specs.Threaded.{with_thread, HasThreadedSegment};
    ghost use Rattle.sit.specs.Released.{HasReleased};
    ghost use Rattle.sit.specs.Row.{row_of};

    /// Where it is in its life.
    pub(crate) fn state(&self) -> State
        ensures { result ≡ self.now.state }
    {
        self.state
    }

    /// Tells what its state says of its blocks. Nothing changes.
    pub(crate) fn show_state(&self)
        ensures { IsFitting self.now.state self.now.next self.now.summaries }
    {
        let _state = self.state;
    }

    /// How many of its blocks are valid.
    pub(crate) fn count(&self) -> u32
        ensures { result ≡ count_of self.now.summaries }
    {
        self.valid.count()
    }

    /// The place of the next append to an open segment.
    pub(crate) fn next(&self) -> u32
        ensures { result ≡ self.now.next }
    {
        self.next
    }

    /// Who names the block at a place, if anybody does.
    pub(crate) fn summary(&self, offset: u32) -> Option<Owner>
        requires { offset < segment_blocks self.now.shape }
        ensures { result ≡ slice_index_or self.now.summaries offset None }
    {
        self.valid.summary(offset)
    }

    /// What stands for each block in the segment summary area.
    pub(crate) fn rows(&self) -> &[Summary]
        ensures rows { result.now ≡ map summary_in self.now.summaries }
        ensures owners { map owner_in result.now ≡ self.now.summaries }
    {
        self.valid.rows()
    }

    /// Words that have a bit for each block, which is set where the block is valid.
    pub(crate) fn valid_words(&self) -> &[u64]
        ensures { bits_of result.now (length self.now.summaries) ≡ map is_set self.now.summaries }
    {
        self.valid.bits().words()
    }

    /// The least valid place at or past one.
    pub(crate) fn next_set(&self, from: u32) -> Option<u32>
        ensures { IsNextValid self.now.summaries from result }
    {
        self.valid.next_set(from)
    }

    /// What a choice of a victim looks at.
    pub(crate) fn row(&self) -> SegmentRow
        ensures { result ≡ row_of self.now }
    {
        SegmentRow {
            number: self.number,
            state: self.state,
            valid: self.valid.count(),
            mtime: self.mtime,
            threaded: self.thread.is_threaded(),
        }
    }

    /// Tells what its law says of its summaries.
    pub(crate) fn law(&self)
        ensures sized { length self.now.summaries ≡ segment_blocks self.now.shape }
        ensures fitting { IsFitting self.now.state self.now.next self.now.summaries }
    {
        let _ = &self.valid;
    }

    /// Writes the block at the next place of an open segment, which leaves home and is valid from then on. Where it was the
    /// last place, the segment is sealed. Where the device fails, and counts it, nothing is marked and the place stays.
    pub(crate) fn place(&mut self, owner: Owner, now: u64, bytes: &[u8]) -> Result<B, DeviceError>
        requires open { self.old.state ≡ Open }
        requires owner { IsOwner owner }
        requires bytes { length bytes.now ≡ block_bytes self.old.shape }
        ensures address { IfOk result (λ block. B.address_of block ≡ address_of self.old.shape self.old.number self.old.next) }
        ensures content { IfOk result (λ block. B.content_of block ≡ bytes.now) }
        ensures room { self.old.next < segment_blocks self.old.shape }
        ensures sized { length self.old.summaries ≡ segment_blocks self.old.shape }
        ensures clear { slice_index_or self.old.summaries self.old.next None ≡ None }
        ensures segment { OnOk result (HasPlaced (placed self.old owner now self.new.failed) self.new) }
        ensures count { OnOk result (count_of self.new.summaries ≡ count_of self.old.summaries + 1) }
        ensures failures { IfOk result (λ block. self.new.failed + B.failed block ≡ self.old.failed) }
        ensures err { OnErr result (HasSpoiled self.old self.new) }
        ensures failure { OnErr result (self.old.failed < self.new.failed) }
    {
        let block = self.blocks.write_out(self.next as usize, bytes)?;
        self.valid.set(self.next, owner);
        self.mtime = self.mtime.max(now);
        self.next += 1;
        self.state = state_at(self.next, self.shape.segment_blocks());
        Ok(block)
    }

    /// The hole that a log is to fill next.
    pub(crate) fn next_hole(&self, log: u32) -> Option<u32>
        ensures { IsNextHole self.now.thread log result }
    {
        self.thread.next_hole(log)
    }

    /// Writes the block in a hole, which leaves home and is valid from then on. Where the device fails, and counts it, nothing is
    /// marked and the hole stays.
    pub(crate) fn fill(
        &mut self,
        offset: u32,
        owner: Owner,
        now: u64,
        bytes: &[u8],
    ) -> Result<B, DeviceError>
        requires hole { slice_index_or self.old.thread.holes offset false ≡ true }
        requires owner { IsOwner owner }
        requires bytes { length bytes.now ≡ block_bytes self.old.shape }
        ensures address { IfOk result (λ block. B.address_of block ≡ address_of self.old.shape self.old.number offset) }
        ensures content { IfOk result (λ block. B.content_of block ≡ bytes.now) }
        ensures within { offset < segment_blocks self.old.shape }
        ensures sized { length self.old.summaries ≡ segment_blocks self.old.shape }
        ensures sealed { self.old.state ≡ Sealed }
        ensures hole { IsHole (fill_of self.old) (slice_index_or self.old.thread.kept offset false) offset }
        ensures segment { OnOk result (self.new ≡ threaded self.old offset owner now self.new.failed) }
        ensures count { OnOk result (count_of self.new.summaries ≡ count_of self.old.summaries + 1) }
        ensures failures { IfOk result (λ block. self.new.failed + B.failed block ≡ self.old.failed) }
        ensures err { OnErr result (HasSpoiledAt offset self.old self.new) }
        ensures failure { OnErr result (self.old.failed < self.new.failed) }
    {
        let block = self.blocks.write_out(offset as usize, bytes)?;
        self.valid.set(offset, owner);
        self.mtime = self.mtime.max(now);
        self.thread.fill(offset);
        Ok(block)
    }

    /// Whether a log may begin to fill its holes, if it has some: it is sealed, and no log fills any.
    pub(crate) fn is_threadable(&self) -> bool
        ensures { result ≡ is_threadable self.now.state self.now.thread }
    {
        match self.state {
            State::Sealed => !self.thread.is_threaded(),
            State::Free | State::Open | State::Prefree => false,
        }
    }

    /// A log is to fill its holes. Answers false where it has none.
    pub(crate) fn thread(&mut self, log: u32) -> bool
        requires { is_threadable self.old.state self.old.thread ≡ true }
        ensures { HasThreadedSegment result log self.old self.new }
    {
        self.thread.begin(log, &self.valid)
    }

    /// No log fills its holes any more.
    pub(crate) fn unthread(&mut self)
        ensures { self.new ≡ with_thread self.old (ended self.old.thread) }
    {
        self.thread.end();
    }

    /// Whether its valid blocks are those that the last completed checkpoint marks.
    pub(crate) fn is_kept(&self) -> bool
        ensures { IsTrue result ↔ (self.now.thread.kept ≡ map is_set self.now.summaries) }
    {
        self.thread.keeps(&self.valid)
    }

    /// A checkpoint is complete that marks its valid blocks.
    pub(crate) fn keep(&mut self)
        ensures { self.new ≡ with_thread self.old (keeping self.old.summaries self.old.thread) }
    {
        self.thread.keep(&self.valid);
    }

    /// Takes back one of its valid blocks, which is valid no more. A sealed segment that has no valid block left is retired.
    pub(crate) fn release(&mut self, block: B) -> Released
        requires address { 0 < B.address_of block }
        requires home { segment_of self.old.shape (B.address_of block) ≡ self.old.number }
        requires valid { IsSome (slice_index_or self.old.summaries (offset_of self.old.shape (B.address_of block)) None) }
        requires bytes { length (B.content_of block) ≡ block_bytes self.old.shape }
        ensures sized { length self.old.summaries ≡ segment_blocks self.old.shape }
        ensures segment { HasReleased (cleared self.old (offset_of self.old.shape (B.address_of block)) (B.content_of block) (self.old.failed + B.failed block)) result self.new }
        ensures content { slice_index_or self.new.contents (offset_of self.old.shape (B.address_of block)) [] ≡ B.content_of block }
    {
        let offset = block.address() - self.blocks.first();
        self.valid.clear(offset);
        self.blocks.put(offset as usize, block);
        let (state, released) = fate_of(self.state, self.valid.count());
        self.state = state;
        end_retired(&mut self.thread, released);
        released
    }

    /// Retires the segment if it is sealed and none of its blocks is valid.
    pub(crate) fn retire(&mut self) -> Released
        ensures { HasReleased self.old result self.new }
    {
        let (state, released) = fate_of(self.state, self.valid.count());
        self.state = state;
        end_retired(&mut self.thread, released);
        released
    }

    /// Seals an open segment that has a valid block.
    pub(crate) fn seal(&mut self)
        requires open { self.old.state ≡ Open }
        requires some { 0 < count_of self.old.summaries }
        ensures { self.new ≡ entered self.old Sealed }
    {
        self.state = State::Sealed;
    }

    /// Opens a free segment; its next place is its first.
    pub(crate) fn open(&mut self)
        requires { self.old.state ≡ Free }
        ensures { self.new ≡ entered self.old Open }
    {
        self.state = State::Open;
        self.next = 0;
    }

    /// Frees a retired segment.
    pub(crate) fn free(&mut self)
        requires { self.old.state ≡ Prefree }
        ensures { self.new ≡ entered self.old Free }
    {
        self.state = State::Free;
    }

    /// The blocks of a segment without valid blocks, put behind a run that begins at address 1 and ends before them. It
    /// takes no memory.
    pub(crate) fn empty_into(self, all: &mut Vec<B>)
        requires none { count_of self.summaries ≡ 0 }
        requires run { IsBlockRun B.address_of B.content_of (block_bytes self.shape) 1 all.old.items }
        requires next { address_of self.shape self.number 0 ≡ 1 + vec_len all.old }
        requires room { vec_len all.old + segment_blocks self.shape ≤ vec_capacity all.old }
        ensures run { IsBlockRun B.address_of B.content_of (block_bytes self.shape) 1 all.new.items }
        ensures count { vec_len all.new ≡ vec_len all.old + segment_blocks self.shape }
        ensures contents { map B.content_of all.new.items ≡ map B.content_of all.old.items ++ self.contents }
        ensures capacity { vec_capacity all.new ≡ vec_capacity all.old }
    {
        self.blocks.empty_into(all);
    }
}

ghost use Rattle.sit.specs.Segment.{IsStateAt};

// The state of an open segment whose next place is this one, of so many.
fn state_at(next: u32, places: u32) -> State
    requires { next ≤ places }
    ensures { IsStateAt next places result }
{
    if next == places {
        State::Sealed
    } else {
        State::Open
    }
}

// What becomes of a segment in this state that has so many valid blocks.
fn fate_of(state: State, valid: u32) -> (State, Released)
    ensures { IsFate state valid result.0 result.1 }
{
    if state == State::Sealed && valid == 0 {
        (State::Prefree, Released::Retired)
    } else {
        (state, Released::Kept)
    }
}

// Ends the thread of a segment that is retired.
fn end_retired(thread: &mut HoleFilling, released: Released)
    ensures { thread.new ≡ thread_left released thread.old }
{
    match released {
        Released::Kept => {}
        Released::Retired => thread.end(),
    }
}
