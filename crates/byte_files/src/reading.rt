//! Reads bytes of a file.
ghost use Rattle.std.specs.Prelude.{◌≡◌, ◌<◌, ◌≤◌, ◌+◌, ◌*◌, ℕ, List, length, take, drop, OnOk, IfErr};
ghost use Rattle.geometry.specs.Refusals.{IsOfRead};
ghost use Rattle.byte_files.specs.Bytes.{HasBytes, read_from};
ghost use Rattle.geometry.specs.Shape.{block_bytes};
ghost use Rattle.geometry.specs.declared.error.Error.TheVariants.{Device};
ghost use Rattle.image_reading.specs.Content.{all_bytes};

use crate::open::Open;
use crate::parts::part_at;
use flash_volume::{Block, Error, FilePass, Meta, VolumeName, read_part};
use std::sync::Wait;

impl<V: VolumeName, M: Meta, B: Block + Drop, R: Wait> Open<'_, V, M, B, R> {
    /// Reads bytes of a file from a place on into `out`: those that the pass shows, and zeros past their end.
    ///
    /// Answers NoMemory before anything is read, or Device where the device failed; then `out` has any bytes.
    pub fn read_at(&self, pass: &FilePass<V>, at: u64, out: &mut [u8]) -> Result<(), Error>
        ensures bytes { OnOk result ((bytes : List ℕ) → HasBytes (block_bytes V.Numbers.geometry.shape) bytes pass.now.file → out.new ≡ read_from bytes at (length out.old)) }
        ensures error { IfErr result IsOfRead }
    {
        pass.blocks_law();
        let size = self.volume.geometry().shape.block_bytes();
        let mut room = vec![in self.alloc; 0u8; size as usize]?;
        let held = u64::from(pass.length()) * u64::from(size);
        let count = held.saturating_sub(at).min(out.len() as u64) as usize;
        out[count..].fill(0);
        self.read_held(pass, at, room.as_mut_slice(), &mut out[..count])
    }

    // Reads bytes that lie in the blocks of a file, part by part. `block` has room for a block.
    fn read_held(
        &self,
        pass: &FilePass<V>,
        at: u64,
        block: &mut [u8],
        out: &mut [u8],
    ) -> Result<(), Error>
        requires block { length block.old ≡ block_bytes V.Numbers.geometry.shape }
        requires held { 0 < length out.old → at + length out.old ≤ pass.now.file.length * block_bytes V.Numbers.geometry.shape }
        ensures bytes { OnOk result (out.new ≡ take (length out.old) (drop at (all_bytes (block_bytes V.Numbers.geometry.shape) pass.now.file))) }
        ensures error { IfErr result (λ error. error ≡ Device) }
    {
        pass.blocks_law();
        // So each index below it fits.
        let _length = pass.length();
        let size = block.len();
        let mut done = 0;
        'parts: while done < out.len() {
            let part = part_at(at + done as u64, out.len() - done, size);
            let end = done + part.size;
            let piece = &mut out[done..end];
            read_part(
                self.rt,
                self.volume,
                pass,
                part.index as u32,
                part.from,
                block,
                piece,
            )?;
            done = end;
        }
        Ok(())
    }
}
