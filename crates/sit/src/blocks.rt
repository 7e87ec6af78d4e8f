//! The blocks of a segment that are at home.
ghost use Rattle.std.specs.Prelude.{◌≡◌, ◌+◌, ◌<◌, ◌≤◌, ◌++◌, [], true, false, map, length, replicate, slice_index_or, slice_set, vec_len, vec_capacity, IfOk, IfErr, OnErr};
ghost use Rattle.geometry.specs.declared.error.Error.TheVariants.{NoMemory};
ghost use Rattle.device.specs.Parts.{IsBlockRun};
ghost use Rattle.sit.specs.Home.{Home, IsSpoiledAt};

use device::{Block, DeviceError};
use geometry::Error;
use std::alloc::Global;
use std::marker::Model;

/// The blocks of a segment that are at home: those that no ticket has.
#[derive(Drop)]
pub(crate) struct Blocks<B: Block + Drop> {
    first: u32,
    block_bytes: u32,
    blocks: Vec<Option<B>>,
}

impl<B: Block + Drop> Model for Blocks<B> {
    ghost use Rattle.std.specs.Prelude.{◌≡◌, ◌+◌, ◌<◌, ◌^◌, ℕ, Some, None, map, length, slice_index_or, is_some};
    ghost use Rattle.sit.specs.Home.{Home, AreAtHome, contents_of, failures_of};

    ghost Value = { Home };

    ghost view = { λ b. record { first = b.first; block_bytes = b.block_bytes; present = map is_some b.blocks.items; contents = contents_of B.content_of b.blocks.items; failed = failures_of B.failed b.blocks.items } };

    ghost invariant = { λ b. AreAtHome B.address_of B.content_of b.first b.block_bytes b.blocks.items };
}

impl<B: Block + Drop> Blocks<B> {
    /// Room for so many blocks, the first of which has this address. The only error is NoMemory.
    pub(crate) fn new(
        alloc: Global,
        first: u32,
        block_bytes: u32,
        count: u32,
    ) -> Result<Blocks<B>, Error>
        ensures ok { IfOk result (λ blocks. blocks ≡ record { first = first; block_bytes = block_bytes; present = replicate count false; contents = replicate count []; failed = 0 }) }
        ensures err { IfErr result (λ error. error ≡ NoMemory) }
    {
        let mut blocks = Vec::with_capacity(alloc, count as usize)?;
        for _place in 0..count {
            blocks.push_reserved(None);
        }
        Ok(Blocks {
            first,
            block_bytes,
            blocks,
        })
    }

    /// How many blocks there are, at home or not.
    pub(crate) fn len(&self) -> usize
        ensures present { result ≡ length self.now.present }
        ensures contents { result ≡ length self.now.contents }
    {
        self.blocks.len()
    }

    /// The address of the first block.
    pub(crate) fn first(&self) -> u32
        ensures { result ≡ self.now.first }
    {
        self.first
    }

    /// A block leaves home.
    pub(crate) fn take(&mut self, offset: usize) -> B
        requires within { offset < length self.old.present }
        requires present { slice_index_or self.old.present offset false ≡ true }
        ensures home { self.new ≡ record self.old { present = slice_set self.old.present offset false; contents = slice_set self.old.contents offset []; failed = self.new.failed } }
        ensures content { B.content_of result ≡ slice_index_or self.old.contents offset [] }
        ensures failures { self.new.failed + B.failed result ≡ self.old.failed }
        ensures address { B.address_of result ≡ self.old.first + offset }
        ensures length { length (B.content_of result) ≡ self.old.block_bytes }
    {
        match self.blocks[offset].take() {
            Some(block) => block,
            None => unreachable!(),
        }
    }

    /// A block comes home.
    pub(crate) fn put(&mut self, offset: usize, block: B)
        requires within { offset < length self.old.present }
        requires address { B.address_of block ≡ self.old.first + offset }
        requires length { length (B.content_of block) ≡ self.old.block_bytes }
        ensures home { self.new ≡ record self.old { present = slice_set self.old.present offset true; contents = slice_set self.old.contents offset (B.content_of block); failed = self.new.failed } }
        ensures content { slice_index_or self.new.contents offset [] ≡ B.content_of block }
        ensures failures { slice_index_or self.old.present offset false ≡ false → self.new.failed ≡ self.old.failed + B.failed block }
    {
        self.blocks[offset] = Some(block);
    }

    /// A block is written, and leaves home. Where the device fails, and counts it, the block stays.
    pub(crate) fn write_out(&mut self, offset: usize, bytes: &[u8]) -> Result<B, DeviceError>
        requires within { offset < length self.old.present }
        requires present { slice_index_or self.old.present offset false ≡ true }
        requires bytes { length bytes.now ≡ self.old.block_bytes }
        ensures home { IfOk result (λ block. self.new ≡ record self.old { present = slice_set self.old.present offset false; contents = slice_set self.old.contents offset []; failed = self.new.failed }) }
        ensures failures { IfOk result (λ block. self.new.failed + B.failed block ≡ self.old.failed) }
        ensures address { IfOk result (λ block. B.address_of block ≡ self.old.first + offset) }
        ensures content { IfOk result (λ block. B.content_of block ≡ bytes.now) }
        ensures err { OnErr result (IsSpoiledAt self.old offset self.new) }
        ensures failure { OnErr result (self.old.failed < self.new.failed) }
    {
        let mut block = self.take(offset);
        match block.write(bytes) {
            Ok(()) => Ok(block),
            Err(error) => {
                self.put(offset, block);
                Err(error)
            }
        }
    }

    /// All blocks come home: the last ones of a run that begins at address 1 and ends with them.
    pub(crate) fn fill_from(&mut self, all: &mut Vec<B>)
        requires run { IsBlockRun B.address_of B.content_of self.old.block_bytes 1 all.old.items }
        requires last { self.old.first + length self.old.present ≡ 1 + vec_len all.old }
        requires some { 0 < self.old.first }
        ensures home { self.new ≡ record self.old { present = replicate (length self.old.present) true; contents = self.new.contents; failed = self.new.failed } }
        ensures run { IsBlockRun B.address_of B.content_of self.old.block_bytes 1 all.new.items }
        ensures rest { self.old.first ≡ 1 + vec_len all.new }
        ensures contents { map B.content_of all.old.items ≡ map B.content_of all.new.items ++ self.new.contents }
        ensures capacity { vec_capacity all.new ≡ vec_capacity all.old }
    {
        let count = self.len();
        for left in 0..count {
            match all.pop() {
                Some(block) => self.put(count - 1 - left, block),
                None => unreachable!(),
            }
        }
    }

    /// All blocks, put behind a run that begins at address 1 and ends before them.
    pub(crate) fn empty_into(mut self, all: &mut Vec<B>)
        requires whole { self.present ≡ replicate (length self.present) true }
        requires run { IsBlockRun B.address_of B.content_of self.block_bytes 1 all.old.items }
        requires next { self.first ≡ 1 + vec_len all.old }
        requires room { vec_len all.old + length self.present ≤ vec_capacity all.old }
        ensures run { IsBlockRun B.address_of B.content_of self.block_bytes 1 all.new.items }
        ensures count { vec_len all.new ≡ vec_len all.old + length self.present }
        ensures contents { map B.content_of all.new.items ≡ map B.content_of all.old.items ++ self.contents }
        ensures capacity { vec_capacity all.new ≡ vec_capacity all.old }
    {
        for offset in 0..self.len() {
            let block = self.take(offset);
            all.push_reserved(block);
        }
    }
}
