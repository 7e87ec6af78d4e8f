//! Gives blocks of a disk back.
ghost use Rattle.std.specs.Prelude.{◌≡◌, ◌≤◌, ◌<◌, ◌+◌, ◌*◌, ◌^◌, ◌↔◌, ℕ, OnErr, OnOk};
ghost use Rattle.geometry.specs.File.{erased};
ghost use Rattle.geometry.specs.Shape.{block_bytes};

use crate::layout::{Stripe, first_index};
use crate::writing::{Writing, write_zeros};
use flash_volume::{Block, Error, FilePass, Meta, PassTable, Volume, VolumeName, erase_in_room};
use std::alloc::Global;
use std::sync::Wait;

/// Gives back each block of a disk that lies whole in an access: it reads as zeros then. What of the access lies in other blocks stays as
/// it is.
///
/// Answers NoFile where a file of the disk is not in the pass table, and what a checkpoint or an erasure of the volume answers. What was given
/// back before stays so.
pub(crate) fn erase_blocks<V: VolumeName, M: Meta, B: Block + Drop, R: Wait>(
    rt: &R,
    volume: &Volume<V, M, B>,
    pass_table: &PassTable<V>,
    writing: Writing<'_>,
    offset: u64,
    length: u32,
) -> Result<(), Error>
    requires fits { offset + length < 2 ^ 64 }
{
    let Whole { first, end } = whole_blocks(offset, length, writing.layout.block_bytes());
    if first >= end {
        return Ok(());
    }
    for stripe in 0..writing.layout.stripes() {
        let run = writing.layout.stripe(stripe, first, end);
        erase_stripe(rt, volume, pass_table, writing, run)?;
    }
    Ok(())
}

/// Has zeros read from an offset on, so many: blocks that lie whole in the access are given back, and zeros are written into the parts of
/// others. Answers what `erase_blocks` and `write_zeros` answer.
pub(crate) fn zero_bytes<V: VolumeName, M: Meta, B: Block + Drop, R: Wait>(
    rt: &R,
    alloc: Global,
    volume: &Volume<V, M, B>,
    pass_table: &PassTable<V>,
    writing: Writing<'_>,
    offset: u64,
    length: u32,
) -> Result<(), Error>
    requires block { writing.layout.now.block_bytes ≡ block_bytes V.Numbers.geometry.shape }
    requires fits { offset + length < 2 ^ 64 }
{
    let size = u64::from(writing.layout.block_bytes());
    let to = offset + u64::from(length);
    let Whole { first, end } = whole_blocks(offset, length, writing.layout.block_bytes());
    if first >= end {
        return write_zeros(
            rt,
            alloc,
            volume,
            pass_table,
            writing,
            offset,
            length as usize,
        );
    }
    let start = first * size;
    let stop = end * size;
    let front = (start - offset) as usize;
    write_zeros(rt, alloc, volume, pass_table, writing, offset, front)?;
    erase_blocks(rt, volume, pass_table, writing, offset, length)?;
    let back = (to - stop) as usize;
    write_zeros(rt, alloc, volume, pass_table, writing, stop, back)
}

// The blocks of a disk from one up to another, which is not among them.
#[derive(Clone, Copy)]
struct Whole {
    first: u64,
    end: u64,
}

// The blocks that lie whole in an access: none where the first is not before the end.
fn whole_blocks(offset: u64, length: u32, block_bytes: u32) -> Whole
    requires sized { 0 < block_bytes }
    requires fits { offset + length < 2 ^ 64 }
    ensures begins { (block : ℕ) → (result.first ≤ block) ↔ (offset ≤ block * block_bytes) }
    ensures ends { (block : ℕ) → (block < result.end) ↔ (block * block_bytes + block_bytes ≤ offset + length) }
    ensures starts { offset ≤ result.first * block_bytes }
    ensures stops { result.end * block_bytes ≤ offset + length }
{
    let size = u64::from(block_bytes);
    Whole {
        first: first_index(offset, 0, size),
        end: (offset + u64::from(length)) / size,
    }
}

// Gives back blocks of one file, beside others who write.
fn erase_stripe<V: VolumeName, M: Meta, B: Block + Drop, R: Wait>(
    rt: &R,
    volume: &Volume<V, M, B>,
    pass_table: &PassTable<V>,
    writing: Writing<'_>,
    run: Stripe,
) -> Result<(), Error> {
    let _beside = writing.cleaner.beside_others(rt);
    let Some(mut guard) = pass_table.write(rt, run.number) else {
        return Err(Error::NoFile);
    };
    let Some(pass) = &mut *guard else {
        return Err(Error::NoFile);
    };
    erase_run(rt, volume, pass, run)?;
    writing.progress.note_part();
    Ok(())
}

// Gives back the blocks of a file that a run has. An index that is past the last of a file has no block.
fn erase_run<V: VolumeName, M: Meta, B: Block + Drop, R: Wait>(
    rt: &R,
    volume: &Volume<V, M, B>,
    pass: &mut FilePass<V>,
    run: Stripe,
) -> Result<(), Error>
    ensures file { OnOk result (run.to < 2 ^ 32 → pass.new ≡ record pass.old { file = erased pass.old.file run.from run.to }) }
    ensures err { OnErr result (pass.new ≡ pass.old) }
{
    let from = u32::try_from(run.from).unwrap_or(u32::MAX);
    let to = u32::try_from(run.to).unwrap_or(u32::MAX);
    erase_in_room(rt, volume, pass, from, to)
}
