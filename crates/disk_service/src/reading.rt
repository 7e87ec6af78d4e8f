//! Reads bytes of a disk.
ghost use Rattle.std.specs.Prelude.{◌≡◌, ◌≤◌, ◌<◌, ◌+◌, ◌^◌, ℕ, length, take, drop, OnOk};
ghost use Rattle.flash_volume.specs.Answers.{block_of};
ghost use Rattle.geometry.specs.Shape.{block_bytes};

use crate::layout::DiskLayout;
use crate::parts::{BlockPart, part_at};
use flash_volume::{
    Block, Error, FilePass, Meta, PassTable, Volume, VolumeName, read_block, read_part,
};
use std::alloc::Global;
use std::sync::Wait;

/// Reads bytes of a disk from an offset on, part by part, each under the lock of its file.
///
/// Answers NoMemory before anything is read, TooFar where the disk ends before, NoFile where a file of the disk is not in the pass table, and
/// Device; after each of them `out` has any bytes.
pub(crate) fn read_bytes<V: VolumeName, M: Meta, B: Block + Drop, R: Wait>(
    rt: &R,
    alloc: Global,
    volume: &Volume<V, M, B>,
    pass_table: &PassTable<V>,
    layout: &DiskLayout,
    offset: u64,
    out: &mut [u8],
) -> Result<(), Error>
    requires block { layout.now.block_bytes ≡ block_bytes V.Numbers.geometry.shape }
    requires fits { offset + length out.old < 2 ^ 64 }
{
    let mut room = vec![in alloc; 0u8; layout.block_bytes() as usize]?;
    let block = room.as_mut_slice();
    let mut at = 0;
    'parts: while at < out.len() {
        let part = part_at(offset, out.len(), at, layout.block_bytes());
        let Some(place) = layout.place(part.block) else {
            return Err(Error::TooFar);
        };
        let Some(guard) = pass_table.read(rt, place.number) else {
            return Err(Error::NoFile);
        };
        let Some(pass) = &*guard else {
            return Err(Error::NoFile);
        };
        show_part(rt, volume, pass, place.index, &part, block, out)?;
        at += part.size;
    }
    Ok(())
}

// Reads a part of an access out of the block of a file at an index: what the pass shows there. The other bytes of the access stay. `block`
// has room for a block.
fn show_part<V: VolumeName, M: Meta, B: Block + Drop, R: Wait>(
    rt: &R,
    volume: &Volume<V, M, B>,
    pass: &FilePass<V>,
    index: u32,
    part: &BlockPart,
    block: &mut [u8],
    out: &mut [u8],
) -> Result<(), Error>
    requires block { length block.old ≡ block_bytes V.Numbers.geometry.shape }
    requires in_block { part.now.from + part.now.size ≤ block_bytes V.Numbers.geometry.shape }
    requires in_access { part.now.at + part.now.size ≤ length out.old }
    ensures shown { OnOk result (take part.now.size (drop part.now.at out.new) ≡ take part.now.size (drop part.now.from (block_of (block_bytes V.Numbers.geometry.shape) pass.now.file index))) }
    ensures before { take part.now.at out.new ≡ take part.now.at out.old }
    ensures behind { drop (part.now.at + part.now.size) out.new ≡ drop (part.now.at + part.now.size) out.old }
{
    let end = part.at + part.size;
    let out = &mut out[part.at..end];
    if out.len() == block.len() {
        read_block(rt, volume, pass, index, out)
    } else {
        read_part(rt, volume, pass, index, part.from, block, out)
    }
}
