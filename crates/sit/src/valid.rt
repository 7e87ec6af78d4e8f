//! Which blocks of a segment are valid.
ghost use Rattle.std.specs.Prelude.{◌≡◌, ◌+◌, ◌<◌, ◌^◌, Some, None, true, map, length, slice_index_or, slice_set, IfOk, IfErr, replicate};
ghost use Rattle.geometry.specs.declared.error.Error.TheVariants.{NoMemory};
ghost use Rattle.geometry.specs.Owner.{IsOwner};
ghost use Rattle.geometry.specs.Summary.{owner_in};
ghost use Rattle.sit.specs.Summaries.{is_set, summary_in, count_of};
ghost use Rattle.sit.specs.NextValid.{IsNextValid};

use crate::bits::Bits;
use geometry::{Error, Owner, Summary};
use std::alloc::Global;
use std::marker::Model;

/// Which blocks of a segment are valid, how many, and who names each. The bits say no more than the summaries do, but a
/// search for the next valid block reads 64 of them at once.
#[derive(Drop)]
pub(crate) struct ValidBlocks {
    bits: Bits,
    summaries: Vec<Summary>,
    count: u32,
}

impl Model for ValidBlocks {
    ghost use Rattle.std.specs.Prelude.{List, Option, map};
    ghost use Rattle.geometry.specs.declared.owner.Owner.{Owner};
    ghost use Rattle.geometry.specs.Summary.{owner_in};
    ghost use Rattle.sit.specs.Valid.{AreValid};

    ghost Value = { List (Option Owner) };

    ghost view = { λ v. map owner_in v.summaries.items };

    ghost invariant = { λ v. AreValid v.bits v.summaries.items v.count };
}

impl ValidBlocks {
    /// Of so many blocks none is valid. The only error is NoMemory.
    pub(crate) fn new(alloc: Global, blocks: u32) -> Result<ValidBlocks, Error>
        ensures ok { IfOk result (λ valid. valid ≡ replicate blocks None) }
        ensures err { IfErr result (λ error. error ≡ NoMemory) }
    {
        Ok(ValidBlocks {
            bits: Bits::new(alloc, blocks)?,
            summaries: vec![in alloc; Summary::NONE; blocks as usize]?,
            count: 0,
        })
    }

    /// Which blocks are valid.
    pub(crate) fn bits(&self) -> &Bits
        ensures { result.now ≡ map is_set self.now }
    {
        &self.bits
    }

    /// How many blocks are valid.
    pub(crate) fn count(&self) -> u32
        ensures { result ≡ count_of self.now }
    {
        self.count
    }

    /// Who names a block.
    pub(crate) fn summary(&self, offset: u32) -> Option<Owner>
        requires { offset < length self.now }
        ensures { result ≡ slice_index_or self.now offset None }
    {
        self.summaries[offset as usize].owner()
    }

    /// What stands for each block in the segment summary area.
    pub(crate) fn rows(&self) -> &[Summary]
        ensures rows { result.now ≡ map summary_in self.now }
        ensures owners { map owner_in result.now ≡ self.now }
    {
        self.summaries.as_slice()
    }

    /// The least valid place at or past one.
    pub(crate) fn next_set(&self, from: u32) -> Option<u32>
        ensures { IsNextValid self.now from result }
    {
        self.bits.next_set(from)
    }

    /// A block becomes valid.
    pub(crate) fn set(&mut self, offset: u32, owner: Owner)
        requires within { offset < length self.old }
        requires clear { slice_index_or self.old offset None ≡ None }
        requires owner { IsOwner owner }
        ensures set { self.new ≡ slice_set self.old offset (Some owner) }
        ensures count { count_of self.new ≡ count_of self.old + 1 }
    {
        self.bits.set(offset);
        self.summaries[offset as usize] = Summary::of(owner);
        self.count += 1;
    }

    /// A valid block is valid no more.
    pub(crate) fn clear(&mut self, offset: u32)
        requires within { offset < length self.old }
        requires valid { is_set (slice_index_or self.old offset None) ≡ true }
        ensures { self.new ≡ slice_set self.old offset None }
    {
        self.bits.clear(offset);
        self.summaries[offset as usize] = Summary::NONE;
        self.count -= 1;
    }
}
