//! Gives a file another length in bytes.
ghost use Rattle.std.specs.Prelude.{◌≡◌, ◌≢◌, ◌<◌, ◌≤◌, ◌+◌, ◌*◌, ◌-◌, ◌⊎◌, ℕ, List, length, replicate, OnOk, IfErr, OnErr};
ghost use Rattle.byte_files.specs.Calls.{IsTruncated, IsWiped, IsSameFile};
ghost use Rattle.flash_volume.specs.Answers.{laid_over};
ghost use Rattle.geometry.specs.Refusals.{IsOfWrite};
ghost use Rattle.geometry.specs.File.{bytes_at, written};
ghost use Rattle.geometry.specs.Shape.{block_bytes};
ghost use Rattle.geometry.specs.declared.error.Error.TheVariants.{Wounded};

use crate::open::Open;
use crate::parts::end_of;
use flash_volume::{Block, Error, FilePass, Meta, VolumeName, read_block};
use std::sync::Wait;

impl<V: VolumeName, M: Meta, B: Block + Drop, R: Wait> Open<'_, V, M, B, R> {
    /// Gives a file just `count` bytes: those in front stay, and zeros stand behind them where there were fewer. What lies behind in the last
    /// block is wiped, so that no later write shows it again.
    ///
    /// Answers TooFar where the bytes would reach past the largest length, and else what a read, a write or a cut of the volume answers. Then
    /// the file is as before; but after Wounded the rest of the block of the last byte may have been wiped, and nothing cut.
    pub fn truncate(&self, pass: &mut FilePass<V>, count: u64, now: u64) -> Result<(), Error>
        ensures truncated { OnOk result (IsTruncated (block_bytes V.Numbers.geometry.shape) count pass.old.file pass.new.file) }
        ensures err { IfErr result (λ error. error ≢ Wounded → pass.new ≡ pass.old) }
        ensures wiped { OnErr result (IsWiped (block_bytes V.Numbers.geometry.shape) count pass.old pass.new) }
        ensures number { pass.new.number ≡ pass.old.number }
        ensures kind { pass.new.file.kind ≡ pass.old.file.kind }
        ensures error { IfErr result IsOfWrite }
    {
        let shape = self.volume.geometry().shape;
        let size = u64::from(shape.block_bytes());
        let end = end_of(count, size);
        if end.blocks > u64::from(shape.largest_length()) {
            return Err(Error::TooFar);
        }
        let blocks = end.blocks as u32;
        let mut room = vec![in self.alloc; 0u8; size as usize]?;
        let block = room.as_mut_slice();
        if blocks > pass.length() {
            self.lengthen(pass, count, blocks - 1, block, now)
        } else if end.from > 0 {
            let from = end.from as usize;
            self.shorten(pass, count, blocks - 1, from, block, now)
        } else {
            self.cut_even(pass, count, blocks)
        }
    }

    // Makes a file so long that its last byte lies in the block at an index past its end, which gets these zeros.
    fn lengthen(
        &self,
        pass: &mut FilePass<V>,
        count: u64,
        index: u32,
        zeros: &[u8],
        now: u64,
    ) -> Result<(), Error>
        requires zeros { zeros.now ≡ replicate (block_bytes V.Numbers.geometry.shape) 0 }
        requires past { pass.old.file.length ≤ index }
        requires begins { index * block_bytes V.Numbers.geometry.shape < count }
        requires ends { count ≤ (index + 1) * block_bytes V.Numbers.geometry.shape }
        ensures truncated { OnOk result (IsTruncated (block_bytes V.Numbers.geometry.shape) count pass.old.file pass.new.file) }
        ensures err { OnErr result (pass.new ≡ pass.old) }
        ensures same { IsSameFile pass.old pass.new }
        ensures error { IfErr result IsOfWrite }
    {
        pass.blocks_law();
        self.volume.write(self.rt, pass, index, zeros, now)
    }

    // Cuts a file at a byte of the block at an index, of which the rest is wiped before. `block` has room for a block.
    fn shorten(
        &self,
        pass: &mut FilePass<V>,
        count: u64,
        index: u32,
        from: usize,
        block: &mut [u8],
        now: u64,
    ) -> Result<(), Error>
        requires block { length block.old ≡ block_bytes V.Numbers.geometry.shape }
        requires below { index < pass.old.file.length }
        requires some { 0 < from }
        requires within { from < block_bytes V.Numbers.geometry.shape }
        requires place { index * block_bytes V.Numbers.geometry.shape + from ≡ count }
        ensures truncated { OnOk result (IsTruncated (block_bytes V.Numbers.geometry.shape) count pass.old.file pass.new.file) }
        ensures err { IfErr result (λ error. error ≢ Wounded → pass.new ≡ pass.old) }
        ensures wiped { OnErr result (IsWiped (block_bytes V.Numbers.geometry.shape) count pass.old pass.new) }
        ensures same { IsSameFile pass.old pass.new }
        ensures error { IfErr result IsOfWrite }
    {
        pass.blocks_law();
        // The index fits, and so does the length behind it.
        let _length = pass.length();
        self.wipe(pass, index, from, block, now)?;
        self.volume.cut(self.rt, pass, index + 1)
    }

    // Cuts a file at the end of its first so many blocks.
    fn cut_even(&self, pass: &mut FilePass<V>, count: u64, blocks: u32) -> Result<(), Error>
        requires within { blocks ≤ pass.old.file.length }
        requires even { blocks * block_bytes V.Numbers.geometry.shape ≡ count }
        ensures truncated { OnOk result (IsTruncated (block_bytes V.Numbers.geometry.shape) count pass.old.file pass.new.file) }
        ensures err { OnErr result (pass.new ≡ pass.old) }
        ensures same { IsSameFile pass.old pass.new }
        ensures error { IfErr result IsOfWrite }
    {
        pass.blocks_law();
        self.volume.cut(self.rt, pass, blocks)
    }

    // Zeros from a byte of the block of a file at an index on. `block` has room for a block.
    fn wipe(
        &self,
        pass: &mut FilePass<V>,
        index: u32,
        from: usize,
        block: &mut [u8],
        now: u64,
    ) -> Result<(), Error>
        requires block { length block.old ≡ block_bytes V.Numbers.geometry.shape }
        requires within { from < block_bytes V.Numbers.geometry.shape }
        ensures file { OnOk result (pass.new ≡ record pass.old { file = written pass.old.file index (laid_over (bytes_at (block_bytes V.Numbers.geometry.shape) pass.old.file index) from (replicate (block_bytes V.Numbers.geometry.shape - from) 0)) }) }
        ensures err { OnErr result (pass.new ≡ pass.old) }
        ensures error { IfErr result IsOfWrite }
    {
        pass.blocks_law();
        read_block(self.rt, self.volume, pass, index, block)?;
        block[from..].fill(0);
        self.volume.write(self.rt, pass, index, block, now)
    }
}
