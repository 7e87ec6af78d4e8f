//! The holes of a segment that a log fills.
ghost use Rattle.std.specs.Prelude.{◌≡◌, ◌<◌, ◌^◌, IsTrue, ◌↔◌, false, length, map, IfOk, IfErr};
ghost use Rattle.geometry.specs.declared.error.Error.TheVariants.{NoMemory};
ghost use Rattle.sit.specs.Bits.{has_true};
ghost use Rattle.sit.specs.Summaries.{is_set};
ghost use Rattle.sit.specs.Thread.{fresh_thread, keeping, filled_at, ended, HasBegun, IsNextHole};

use crate::bits::Bits;
use crate::valid::ValidBlocks;
use geometry::Error;
use std::alloc::Global;
use std::marker::Model;

/// Which blocks of a segment the last completed checkpoint marks, and which holes a log is still to fill: threaded logging
/// (Rosenblum and Ousterhout 1991; Linux `filesystems/f2fs`).
#[derive(Drop)]
pub(crate) struct HoleFilling {
    kept: Bits,
    holes: Bits,
    // The log that fills the holes, where there are some.
    log: u32,
}

impl Model for HoleFilling {
    ghost use Rattle.std.specs.Prelude.{◌≡◌, ◌<◌, ◌^◌, length};
    ghost use Rattle.sit.specs.Thread.{Thread};

    ghost Value = { Thread };

    ghost view = { λ t. record { kept = t.kept; holes = t.holes; log = t.log } };

    ghost invariant = { λ t. length t.holes ≡ length t.kept };
}

impl HoleFilling {
    /// Of so many blocks none is marked. The only error is NoMemory.
    pub(crate) fn new(alloc: Global, blocks: u32) -> Result<HoleFilling, Error>
        ensures ok { IfOk result (λ thread. thread ≡ fresh_thread blocks) }
        ensures err { IfErr result (λ error. error ≡ NoMemory) }
    {
        Ok(HoleFilling {
            kept: Bits::new(alloc, blocks)?,
            holes: Bits::new(alloc, blocks)?,
            log: 0,
        })
    }

    /// Whether a log fills holes.
    pub(crate) fn is_threaded(&self) -> bool
        ensures { result ≡ has_true self.now.holes }
    {
        self.holes.any()
    }

    /// The hole that a log is to fill next.
    pub(crate) fn next_hole(&self, log: u32) -> Option<u32>
        ensures { IsNextHole self.now log result }
    {
        if self.log != log {
            return None;
        }
        self.holes.next_set(0)
    }

    /// A log is to fill the holes, the blocks that are neither valid nor marked. Answers false where there is none.
    pub(crate) fn begin(&mut self, log: u32, valid: &ValidBlocks) -> bool
        requires as_many { length valid.now ≡ length self.old.kept }
        requires unthreaded { has_true self.old.holes ≡ false }
        ensures { HasBegun result log valid.now self.old self.new }
    {
        self.holes.set_neither(valid.bits(), &self.kept);
        if !self.holes.any() {
            return false;
        }
        self.log = log;
        true
    }

    /// The hole at a place is filled.
    pub(crate) fn fill(&mut self, offset: u32)
        requires { offset < length self.old.holes }
        ensures { self.new ≡ filled_at offset self.old }
    {
        self.holes.clear(offset);
    }

    /// No hole is left.
    pub(crate) fn end(&mut self)
        ensures { self.new ≡ ended self.old }
    {
        self.holes.clear_all();
    }

    /// Whether the valid blocks are those that the last completed checkpoint marks.
    pub(crate) fn keeps(&self, valid: &ValidBlocks) -> bool
        ensures { IsTrue result ↔ (self.now.kept ≡ map is_set valid.now) }
    {
        self.kept.is_same(valid.bits())
    }

    /// A checkpoint is complete that marks the valid blocks.
    pub(crate) fn keep(&mut self, valid: &ValidBlocks)
        requires { length valid.now ≡ length self.old.kept }
        ensures { self.new ≡ keeping valid.now self.old }
    {
        self.kept.copy_from(valid.bits());
    }
}
