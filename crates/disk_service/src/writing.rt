//! Writes bytes of a disk.
ghost use Rattle.std.specs.Prelude.{◌≡◌, ◌≤◌, ◌<◌, ◌+◌, ◌^◌, length};
ghost use Rattle.geometry.specs.Shape.{block_bytes};

use crate::layout::DiskLayout;
use crate::parts::{BlockPart, part_at};
use crate::progress::Progress;
use crate::room::Cleaner;
use flash_volume::{Block, Error, Meta, PassTable, Volume, VolumeName, write_part};
use std::alloc::Global;
use std::sync::Wait;

// How often a write that is alone is tried while there is no room for it.
const ATTEMPTS: u32 = 16;

/// What a write works with: where the blocks of the disk lie, who makes room, and the time in seconds.
#[derive(Clone, Copy)]
pub(crate) struct Writing<'a> {
    pub layout: &'a DiskLayout,
    pub cleaner: &'a Cleaner,
    pub progress: &'a Progress,
    pub now: u64,
}

/// Writes bytes of a disk from an offset on, part by part, each under the lock of its file. Where a part finds no room, some is made.
///
/// Answers NoMemory before anything is written, TooFar where the disk ends before, NoFile where a file of the disk is not in the pass table, and
/// what a write or a checkpoint of the volume answers. Parts that were written before stay so.
pub(crate) fn write_bytes<V: VolumeName, M: Meta, B: Block + Drop, R: Wait>(
    rt: &R,
    alloc: Global,
    volume: &Volume<V, M, B>,
    pass_table: &PassTable<V>,
    writing: Writing<'_>,
    offset: u64,
    bytes: &[u8],
) -> Result<(), Error>
    requires block { writing.layout.now.block_bytes ≡ block_bytes V.Numbers.geometry.shape }
    requires fits { offset + length bytes.now < 2 ^ 64 }
{
    let size = writing.layout.block_bytes();
    let mut room = vec![in alloc; 0u8; size as usize]?;
    let block = room.as_mut_slice();
    let mut at = 0;
    'parts: while at < bytes.len() {
        let part = part_at(offset, bytes.len(), at, size);
        let end = at + part.size;
        write_making_room(
            rt,
            volume,
            pass_table,
            writing,
            &part,
            block,
            &bytes[at..end],
        )?;
        at = end;
    }
    Ok(())
}

/// Writes so many zeros on a disk from an offset on, as `write_bytes` writes bytes.
pub(crate) fn write_zeros<V: VolumeName, M: Meta, B: Block + Drop, R: Wait>(
    rt: &R,
    alloc: Global,
    volume: &Volume<V, M, B>,
    pass_table: &PassTable<V>,
    writing: Writing<'_>,
    offset: u64,
    length: usize,
) -> Result<(), Error>
    requires block { writing.layout.now.block_bytes ≡ block_bytes V.Numbers.geometry.shape }
    requires fits { offset + length < 2 ^ 64 }
{
    let size = writing.layout.block_bytes();
    let zeros = vec![in alloc; 0u8; size as usize]?;
    let mut room = vec![in alloc; 0u8; size as usize]?;
    let block = room.as_mut_slice();
    let mut at = 0;
    'parts: while at < length {
        let part = part_at(offset, length, at, size);
        write_making_room(
            rt,
            volume,
            pass_table,
            writing,
            &part,
            block,
            &zeros.as_slice()[..part.size],
        )?;
        at += part.size;
    }
    Ok(())
}

// Writes a part. Where it finds no room, this thread goes on alone, makes some, and tries it again, so often at most.
fn write_making_room<V: VolumeName, M: Meta, B: Block + Drop, R: Wait>(
    rt: &R,
    volume: &Volume<V, M, B>,
    pass_table: &PassTable<V>,
    writing: Writing<'_>,
    part: &BlockPart,
    block: &mut [u8],
    bytes: &[u8],
) -> Result<(), Error>
    requires block { length block.old ≡ block_bytes V.Numbers.geometry.shape }
    requires within { part.now.from + length bytes.now ≤ block_bytes V.Numbers.geometry.shape }
{
    let beside = writing.cleaner.beside_others(rt);
    let written = write_in_place(rt, volume, pass_table, writing, part, block, bytes);
    drop(beside);
    if written != Err(Error::NoSpace) {
        return written;
    }
    let _alone = writing.cleaner.alone(rt);
    for attempt in 0..ATTEMPTS {
        match write_in_place(rt, volume, pass_table, writing, part, block, bytes) {
            Err(Error::NoSpace) => {
                writing.cleaner.make_room(rt, volume, attempt, writing.now)?;
            }
            done => return done,
        }
    }
    Err(Error::NoSpace)
}

// Writes a part of the disk, under the lock of its file.
fn write_in_place<V: VolumeName, M: Meta, B: Block + Drop, R: Wait>(
    rt: &R,
    volume: &Volume<V, M, B>,
    pass_table: &PassTable<V>,
    writing: Writing<'_>,
    part: &BlockPart,
    block: &mut [u8],
    bytes: &[u8],
) -> Result<(), Error>
    requires block { length block.old ≡ block_bytes V.Numbers.geometry.shape }
    requires within { part.now.from + length bytes.now ≤ block_bytes V.Numbers.geometry.shape }
{
    let Some(place) = writing.layout.place(part.block) else {
        return Err(Error::TooFar);
    };
    let Some(mut guard) = pass_table.write(rt, place.number) else {
        return Err(Error::NoFile);
    };
    let Some(pass) = &mut *guard else {
        return Err(Error::NoFile);
    };
    write_part(
        rt,
        volume,
        pass,
        place.index,
        part.from,
        block,
        bytes,
        writing.now,
    )?;
    writing.progress.note_part();
    Ok(())
}
