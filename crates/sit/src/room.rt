//! The memory of a segment, before its blocks are there.
ghost use Rattle.std.specs.Prelude.{◌≡◌, ◌+◌, ◌<◌, ◌++◌, [], map, IfOk, IfErr, vec_len, vec_capacity};
ghost use Rattle.geometry.specs.declared.error.Error.TheVariants.{NoMemory};
ghost use Rattle.device.specs.Parts.{IsBlockRun};
ghost use Rattle.geometry.specs.Shape.{block_bytes, segment_blocks};
ghost use Rattle.geometry.specs.Address.{address_of};
ghost use Rattle.words.specs.Claims.{fresh_life};

use crate::blocks::Blocks;
use crate::body::Body;
use crate::segment::SegmentState;
use crate::thread::HoleFilling;
use crate::valid::ValidBlocks;
use device::Block;
use geometry::{Error, Geometry, Shape, State};
use rights_books::{PartRow, SegmentAccount};
use std::alloc::Global;
use std::marker::Model;
use words::Standing;

/// The memory of one segment without its blocks: with all rooms at hand, a device can be taken apart and put together
/// without any more memory.
#[derive(Drop)]
pub struct EmptySegment<B: Block + Drop> {
    shape: Shape,
    number: u32,
    blocks: Blocks<B>,
    valid: ValidBlocks,
    thread: HoleFilling,
}

impl<B: Block + Drop> Model for EmptySegment<B> {
    ghost use Rattle.sit.specs.Room.{RoomOf, IsRoom};

    ghost Value = { RoomOf };

    ghost view = { λ r. record { shape = r.shape; number = r.number } };

    ghost invariant = { λ r. IsRoom (record { shape = r.shape; number = r.number }) r.blocks r.valid r.thread };
}

impl<B: Block + Drop> EmptySegment<B> {
    ghost use Rattle.sit.specs.Room.{IsRoom};
    ghost use Rattle.sit.specs.Segment.{fresh};
    ghost use Rattle.sit.specs.Registered.{post_of};

    /// The memory of the segment of this number. The only error is NoMemory.
    pub fn new(alloc: Global, geometry: &Geometry, number: u32) -> Result<EmptySegment<B>, Error>
        requires { number < geometry.now.segments }
        ensures ok { IfOk result (λ room. room ≡ record { shape = geometry.now.shape; number = number }) }
        ensures err { IfErr result (λ error. error ≡ NoMemory) }
    {
        let shape = geometry.shape;
        let first = geometry.address_of(number, 0);
        let count = shape.segment_blocks();
        Ok(EmptySegment {
            shape,
            number,
            blocks: Blocks::new(alloc, first, shape.block_bytes(), count)?,
            valid: ValidBlocks::new(alloc, count)?,
            thread: HoleFilling::new(alloc, count)?,
        })
    }

    /// The segment, free, with its account and its standing, and its blocks: the last ones of a run that begins at address 1
    /// and ends with them.
    pub fn fill(
        self,
        account: SegmentAccount,
        standing: Standing,
        all: &mut Vec<B>,
    ) -> SegmentState<B>
        requires account { account ≡ record { book = account.book; segment = self.number; marks = [] } }
        requires standing { standing.life ≡ fresh_life self.number }
        requires run { IsBlockRun B.address_of B.content_of (block_bytes self.shape) 1 all.old.items }
        requires last { address_of self.shape self.number (segment_blocks self.shape) ≡ 1 + vec_len all.old }
        ensures segment { result.segment ≡ fresh self.shape self.number result.segment.contents result.segment.failed }
        ensures book { result.book ≡ account.book }
        ensures standing { post_of result ≡ standing }
        ensures run { IsBlockRun B.address_of B.content_of (block_bytes self.shape) 1 all.new.items }
        ensures rest { address_of self.shape self.number 0 ≡ 1 + vec_len all.new }
        ensures contents { map B.content_of all.old.items ≡ map B.content_of all.new.items ++ result.segment.contents }
        ensures capacity { vec_capacity all.new ≡ vec_capacity all.old }
    {
        SegmentState {
            body: self.fill_body(all),
            account,
            standing,
            row: PartRow::new(),
        }
    }

    /// Its parts: none of its blocks is there, and none is valid.
    pub(crate) fn into_parts(self) -> (Shape, u32, Blocks<B>, ValidBlocks, HoleFilling)
        ensures whose { (result.0 ≡ self.shape) × (result.1 ≡ self.number) }
        ensures room { IsRoom self result.2 result.3 result.4 }
    {
        (
            self.shape,
            self.number,
            self.blocks,
            self.valid,
            self.thread,
        )
    }

    // The blocks of the segment.
    fn fill_body(self, all: &mut Vec<B>) -> Body<B>
        requires run { IsBlockRun B.address_of B.content_of (block_bytes self.shape) 1 all.old.items }
        requires last { address_of self.shape self.number (segment_blocks self.shape) ≡ 1 + vec_len all.old }
        ensures segment { result ≡ fresh self.shape self.number result.contents result.failed }
        ensures run { IsBlockRun B.address_of B.content_of (block_bytes self.shape) 1 all.new.items }
        ensures rest { address_of self.shape self.number 0 ≡ 1 + vec_len all.new }
        ensures contents { map B.content_of all.old.items ≡ map B.content_of all.new.items ++ result.contents }
        ensures capacity { vec_capacity all.new ≡ vec_capacity all.old }
    {
        let mut blocks = self.blocks;
        blocks.fill_from(all);
        Body {
            shape: self.shape,
            number: self.number,
            state: State::Free,
            blocks,
            valid: self.valid,
            mtime: 0,
            next: 0,
            thread: self.thread,
        }
    }
}
