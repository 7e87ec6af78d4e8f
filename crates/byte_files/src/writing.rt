//! Writes bytes of a file.
ghost use Rattle.std.specs.Prelude.{◌≡◌, ◌<◌, ◌≤◌, ◌+◌, ◌*◌, length, take, OnOk, IfErr, OnErr};
ghost use Rattle.byte_files.specs.Calls.{IsWrittenAt, IsAppended, IsSameFile};
ghost use Rattle.geometry.specs.Refusals.{IsOfWrite};
ghost use Rattle.geometry.specs.Path.{largest_length};
ghost use Rattle.geometry.specs.Shape.{block_bytes};

use crate::laws::{append_law, write_law};
use crate::open::Open;
use crate::parts::part_at;
use flash_volume::{Block, Error, FilePass, Meta, VolumeName, write_part};
use std::sync::Wait;

impl<V: VolumeName, M: Meta, B: Block + Drop, R: Wait> Open<'_, V, M, B, R> {
    /// Writes bytes at a place of a file: they are laid over those that it has, and zeros fill what lies between its end and the place. A
    /// write of no bytes changes nothing.
    ///
    /// Where not all are written, answers how many were, those in front, and why: TooFar where they would lie past the largest length, and
    /// NoMemory where there is no room for a block, before anything is written; then what a read and a write of the volume answer.
    pub fn write_at(
        &self,
        pass: &mut FilePass<V>,
        at: u64,
        bytes: &[u8],
        now: u64,
    ) -> Result<(), (usize, Error)>
        ensures written { OnOk result (IsWrittenAt (block_bytes V.Numbers.geometry.shape) at bytes.now pass.old.file pass.new.file) }
        ensures part { IfErr result (λ fault. IsWrittenAt (block_bytes V.Numbers.geometry.shape) at (take fault.0 bytes.now) pass.old.file pass.new.file) }
        ensures number { pass.new.number ≡ pass.old.number }
        ensures kind { pass.new.file.kind ≡ pass.old.file.kind }
        ensures error { IfErr result (λ fault. IsOfWrite fault.1) }
    {
        let shape = self.volume.geometry().shape;
        let size = shape.block_bytes();
        let most = u64::from(shape.largest_length()) * u64::from(size);
        if bytes.len() as u64 > most.saturating_sub(at) {
            return Err((0, Error::TooFar));
        }
        let Ok(mut room) = vec![in self.alloc; 0u8; size as usize] else {
            return Err((0, Error::NoMemory));
        };
        self.write_parts(pass, at, room.as_mut_slice(), bytes, now)
    }

    // Writes bytes of a file part by part, below its largest length. `block` has room for a block.
    fn write_parts(
        &self,
        pass: &mut FilePass<V>,
        at: u64,
        block: &mut [u8],
        bytes: &[u8],
        now: u64,
    ) -> Result<(), (usize, Error)>
        requires block { length block.old ≡ block_bytes V.Numbers.geometry.shape }
        requires fits { 0 < length bytes.now → at + length bytes.now ≤ largest_length V.Numbers.geometry.shape * block_bytes V.Numbers.geometry.shape }
        ensures written { OnOk result (IsWrittenAt (block_bytes V.Numbers.geometry.shape) at bytes.now pass.old.file pass.new.file) }
        ensures part { IfErr result (λ fault. IsWrittenAt (block_bytes V.Numbers.geometry.shape) at (take fault.0 bytes.now) pass.old.file pass.new.file) }
        ensures same { IsSameFile pass.old pass.new }
        ensures error { IfErr result (λ fault. IsOfWrite fault.1) }
    {
        let size = block.len();
        let mut done = 0;
        'parts: while done < bytes.len() {
            let part = part_at(at + done as u64, bytes.len() - done, size);
            let end = done + part.size;
            let piece = &bytes[done..end];
            let index = part.index as u32;
            match self.lay_part(pass, index, part.from, block, piece, now) {
                Ok(()) => done = end,
                Err(error) => return Err((done, error)),
            }
        }
        Ok(())
    }

    // Lays bytes over the block of a file at an index, from a byte of it on. `block` has room for a block.
    fn lay_part(
        &self,
        pass: &mut FilePass<V>,
        index: u32,
        from: usize,
        block: &mut [u8],
        bytes: &[u8],
        now: u64,
    ) -> Result<(), Error>
        requires block { length block.old ≡ block_bytes V.Numbers.geometry.shape }
        requires some { 0 < length bytes.now }
        requires within { from + length bytes.now ≤ block_bytes V.Numbers.geometry.shape }
        ensures written { OnOk result (IsWrittenAt (block_bytes V.Numbers.geometry.shape) (index * block_bytes V.Numbers.geometry.shape + from) bytes.now pass.old.file pass.new.file) }
        ensures err { OnErr result (pass.new ≡ pass.old) }
        ensures same { IsSameFile pass.old pass.new }
        ensures error { IfErr result IsOfWrite }
    {
        pass.blocks_law();
        write_part(self.rt, self.volume, pass, index, from, block, bytes, now)
    }

    /// Puts bytes behind the `count` bytes that a file has: `count` is its length in bytes, which the caller keeps.
    ///
    /// Where not all are written, answers how many were, those in front, and why, as `write_at` does.
    pub fn append(
        &self,
        pass: &mut FilePass<V>,
        count: u64,
        bytes: &[u8],
        now: u64,
    ) -> Result<(), (usize, Error)>
        ensures written { OnOk result (IsAppended (block_bytes V.Numbers.geometry.shape) count bytes.now pass.old.file pass.new.file) }
        ensures part { IfErr result (λ fault. IsAppended (block_bytes V.Numbers.geometry.shape) count (take fault.0 bytes.now) pass.old.file pass.new.file) }
        ensures number { pass.new.number ≡ pass.old.number }
        ensures kind { pass.new.file.kind ≡ pass.old.file.kind }
        ensures error { IfErr result (λ fault. IsOfWrite fault.1) }
    {
        self.write_at(pass, count, bytes, now)
    }
}
