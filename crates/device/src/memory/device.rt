//! A whole device in memory.
ghost use Rattle.std.specs.Prelude.{◌≡◌, ◌≤◌, ◌<◌, ◌+◌, ◌++◌, ◌^◌, length, replicate, All, IfOk, IfErr, OnOk, OnErr, MatchOption, vec_len, vec_capacity};
ghost use Rattle.geometry.specs.declared.error.Error.TheVariants.{NoMemory};
ghost use Rattle.geometry.specs.Shape.{block_bytes};
ghost use Rattle.geometry.specs.Area.{block_count, meta_bytes};
ghost use Rattle.device.specs.Disk.{Only};
ghost use Rattle.device.specs.Parts.{IsBlockRun, HasSize, image_file};

use crate::{Block, MemBlock, MemMeta, Meta, Parts};
use geometry::{Error, Geometry};
use std::alloc::Global;

/// A device in memory.
///
/// Only `lend`, and a write to a block whose lease lives, may take more memory once it stands; where that is refused
/// they fail as a device does, and count it.
#[derive(Drop)]
pub struct MemDevice {
    pub parts: Parts<MemMeta, MemBlock>,
}

impl MemDevice {
    /// A device of the size of a geometry. All its bytes are zeros, and nothing is unsettled. Answers NoMemory where
    /// memory was refused.
    pub fn new(alloc: Global, geometry: &Geometry) -> Result<MemDevice, Error>
        ensures size { IfOk result (λ d. HasSize ⟦<MemMeta as Meta>⟧.seen ⟦<MemBlock as Block>⟧.address_of
            ⟦<MemBlock as Block>⟧.content_of geometry.now d.parts) }
        ensures area_is_zeros { IfOk result (λ d. ⟦<MemMeta as Meta>⟧.seen d.parts.meta ≡ replicate (meta_bytes geometry.now) 0) }
        ensures settled { IfOk result (λ d. Only (⟦<MemMeta as Meta>⟧.seen d.parts.meta)
            (⟦<MemMeta as Meta>⟧.may_leave d.parts.meta)) }
        ensures blocks_are_zeros { IfOk result (λ d. All (λ b. ⟦<MemBlock as Block>⟧.content_of b
            ≡ replicate (block_bytes geometry.now.shape) 0) d.parts.blocks.items) }

        // No failure is counted. A meta area in memory never has one.
        ensures sound { IfOk result (λ d. All (λ b. ⟦<MemBlock as Block>⟧.failed b ≡ 0) d.parts.blocks.items) }
        ensures err { IfErr result (λ e. e ≡ NoMemory) }
    {
        let bytes = vec![in alloc; 0u8; geometry.meta_bytes() as usize]?;
        let blocks = zero_blocks(alloc, geometry.blocks(), geometry.shape.block_bytes())?;
        Ok(MemDevice {
            parts: Parts {
                meta: MemMeta::new(bytes),
                blocks,
            },
        })
    }

    /// The device's parts.
    pub fn split(self) -> Parts<MemMeta, MemBlock>
        ensures { result ≡ self.parts }
    {
        self.parts
    }

    /// The device of these parts.
    pub fn join(parts: Parts<MemMeta, MemBlock>) -> MemDevice
        ensures { result.parts ≡ parts }
    {
        MemDevice { parts }
    }

    /// Adds the device's image file to `file`: the bytes of the meta area, and behind them those of every block in
    /// address order. Answers NoMemory where memory was refused, and then `file` is as before.
    pub fn append_to(&self, file: &mut Vec<u8>) -> Result<(), Error>
        ensures added { OnOk result (file.new.items ≡ file.old.items
            ++ image_file ⟦<MemMeta as Meta>⟧.seen ⟦<MemBlock as Block>⟧.content_of self.now.parts) }
        ensures kept { OnErr result (file.new.items ≡ file.old.items) }
        ensures err { IfErr result (λ e. e ≡ NoMemory) }

        // A file that has room for them takes them.
        ensures full { OnErr result (vec_capacity file.old < vec_len file.old
            + length (image_file ⟦<MemMeta as Meta>⟧.seen ⟦<MemBlock as Block>⟧.content_of self.now.parts)) }
    {
        let bytes = self.image_bytes().ok_or(Error::NoMemory)?;
        file.reserve(bytes)?;
        // There is room for all of them now, so nothing is refused from here on.
        file.extend_from_slice(self.parts.meta.bytes.as_slice())?;
        for block in &self.parts.blocks {
            file.extend_from_slice(block.as_slice())?;
        }
        Ok(())
    }

    // How many bytes its image file has, where as many can be counted.
    fn image_bytes(&self) -> Option<usize>
        ensures { let file = image_file ⟦<MemMeta as Meta>⟧.seen ⟦<MemBlock as Block>⟧.content_of self.now.parts in
            MatchOption result (2 ^ 64 ≤ length file) (λ bytes. bytes ≡ length file) }
    {
        let mut bytes = self.parts.meta.bytes.len();
        for block in &self.parts.blocks {
            bytes = bytes.checked_add(block.as_slice().len())?;
        }
        Some(bytes)
    }
}

// Blocks of zeros with addresses from 1 on.
fn zero_blocks(alloc: Global, count: u32, bytes: u32) -> Result<Vec<MemBlock>, Error>
    ensures count { IfOk result (λ blocks. length blocks.items ≡ count) }
    ensures run { IfOk result (λ blocks. IsBlockRun ⟦<MemBlock as Block>⟧.address_of
        ⟦<MemBlock as Block>⟧.content_of bytes 1 blocks.items) }
    ensures zeros { IfOk result (λ blocks. All (λ b. ⟦<MemBlock as Block>⟧.content_of b ≡ replicate bytes 0) blocks.items) }
    ensures sound { IfOk result (λ blocks. All (λ b. ⟦<MemBlock as Block>⟧.failed b ≡ 0) blocks.items) }
    ensures err { IfErr result (λ e. e ≡ NoMemory) }
{
    let mut blocks = Vec::with_capacity(alloc, count as usize)?;
    for place in 0..count {
        let zeros = vec![in alloc; 0u8; bytes as usize]?;
        blocks.push(MemBlock::new(alloc, place + 1, zeros)?)?;
    }
    Ok(blocks)
}
