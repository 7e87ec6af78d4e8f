//! Bytes to whole blocks of a file, and back.
ghost use Rattle.std.specs.Prelude.{◌≡◌, ◌<◌, ◌≤◌, ◌-◌, ◌++◌, length, replicate, true, IfOk, IfErr, OnOk};
ghost use Rattle.geometry.specs.Refusals.{IsOfRead};
ghost use Rattle.flash_volume.specs.Worked.{IsOfCall};
ghost use Rattle.geometry.specs.File.{bytes_at};
ghost use Rattle.geometry.specs.Shape.{block_bytes};
ghost use Rattle.geometry.specs.declared.error.Error.TheVariants.{Device, NoMemory};
ghost use Rattle.image_reading.specs.Content.{all_bytes};
ghost use Rattle.byte_files.specs.Bytes.{HasBytes};
ghost use Rattle.named_files.specs.Content.{IsBlockSet};

use flash_volume::{Block, Error, FilePass, Meta, Volume, VolumeName};
use std::alloc::Global;
use std::sync::Wait;

/// All bytes of the blocks of a file. Answers NoMemory, or Device where the device failed.
pub(crate) fn read_all<V: VolumeName, M: Meta, B: Block + Drop, R: Wait>(
    rt: &R,
    alloc: Global,
    volume: &Volume<V, M, B>,
    pass: &FilePass<V>,
) -> Result<Vec<u8>, Error>
    ensures bytes { IfOk result (λ bytes. bytes.items ≡ all_bytes (block_bytes V.Numbers.geometry.shape) pass.now.file) }
    ensures error { IfErr result IsOfRead }
{
    let size = volume.geometry().shape.block_bytes();
    let mut block = vec![in alloc; 0u8; size as usize]?;
    let mut bytes = Vec::new(alloc);
    for index in 0..pass.length() {
        read_block(rt, volume, pass, index, block.as_mut_slice())?;
        bytes.extend_from_slice(block.as_slice())?;
    }
    Ok(bytes)
}

// Reads a block that the file has.
fn read_block<V: VolumeName, M: Meta, B: Block + Drop, R: Wait>(
    rt: &R,
    volume: &Volume<V, M, B>,
    pass: &FilePass<V>,
    index: u32,
    out: &mut [u8],
) -> Result<(), Error>
    requires out { length out.old ≡ block_bytes V.Numbers.geometry.shape }
    requires below { index < pass.now.file.length }
    ensures bytes { OnOk result (out.new ≡ bytes_at (block_bytes V.Numbers.geometry.shape) pass.now.file index) }
    ensures error { IfErr result (λ error. error ≡ Device) }
{
    let _below = volume.read(rt, pass, index, out)?;
    Ok(())
}

/// Which blocks of a file are written.
#[derive(Clone, Copy, PartialEq, Eq)]
pub(crate) enum Blocks {
    All,
    /// Those that have other bytes, or are not there.
    Changed,
}

/// A file becomes these bytes, with zeros behind them to the end of the last block. What the file is after an error is not said.
///
/// Answers TooFar where the bytes are more than a file has room for, and else what a read, a write or a cut of the volume answers.
pub(crate) fn write_all<V: VolumeName, M: Meta, B: Block + Drop, R: Wait>(
    rt: &R,
    alloc: Global,
    volume: &Volume<V, M, B>,
    pass: &mut FilePass<V>,
    bytes: &[u8],
    blocks: Blocks,
    now: u64,
) -> Result<(), Error>
    ensures bytes { OnOk result (HasBytes (block_bytes V.Numbers.geometry.shape) bytes.now pass.new.file) }
    ensures number { pass.new.number ≡ pass.old.number }
    ensures kind { pass.new.file.kind ≡ pass.old.file.kind }
    ensures error { IfErr result IsOfCall }
{
    let size = volume.geometry().shape.block_bytes() as usize;
    let mut index = 0u32;
    let mut rest = bytes;
    while !rest.is_empty() {
        let (front, behind) = rest.split_at(size.min(rest.len()));
        let block = padded(alloc, front, size)?;
        write_block(
            rt,
            alloc,
            volume,
            pass,
            index,
            block.as_slice(),
            blocks,
            now,
        )?;
        let Some(next) = index.checked_add(1) else {
            return Err(Error::TooFar);
        };
        index = next;
        rest = behind;
    }
    volume.cut(rt, pass, index)
}

// A block of a file, or the one behind its last, becomes these bytes. Where only changed blocks are written, it is read before.
fn write_block<V: VolumeName, M: Meta, B: Block + Drop, R: Wait>(
    rt: &R,
    alloc: Global,
    volume: &Volume<V, M, B>,
    pass: &mut FilePass<V>,
    index: u32,
    block: &[u8],
    blocks: Blocks,
    now: u64,
) -> Result<(), Error>
    requires reaches { index ≤ pass.old.file.length }
    requires block { length block.now ≡ block_bytes V.Numbers.geometry.shape }
    ensures set { OnOk result (IsBlockSet (block_bytes V.Numbers.geometry.shape) index block.now pass.old.file pass.new.file) }
    ensures number { pass.new.number ≡ pass.old.number }
    ensures kind { pass.new.file.kind ≡ pass.old.file.kind }
    ensures error { IfErr result IsOfCall }
{
    if blocks == Blocks::Changed && has_block(rt, alloc, volume, pass, index, block)? {
        return Ok(());
    }
    volume.write(rt, pass, index, block, now)
}

// Whether a file has these bytes as its block at an index. Answers NoMemory, or Device where the device failed.
fn has_block<V: VolumeName, M: Meta, B: Block + Drop, R: Wait>(
    rt: &R,
    alloc: Global,
    volume: &Volume<V, M, B>,
    pass: &FilePass<V>,
    index: u32,
    block: &[u8],
) -> Result<bool, Error>
    requires block { length block.now ≡ block_bytes V.Numbers.geometry.shape }
    ensures below { IfOk result (λ has. has ≡ true → index < pass.now.file.length) }
    ensures bytes { IfOk result (λ has. has ≡ true → bytes_at (block_bytes V.Numbers.geometry.shape) pass.now.file index ≡ block.now) }
    ensures error { IfErr result IsOfRead }
{
    let mut held = vec![in alloc; 0u8; block.len()]?;
    if !volume.read(rt, pass, index, held.as_mut_slice())? {
        return Ok(false);
    }
    Ok(held.as_slice() == block)
}

// The bytes, with zeros behind them to this length.
fn padded(alloc: Global, bytes: &[u8], size: usize) -> Result<Vec<u8>, Error>
    requires { length bytes.now ≤ size }
    ensures bytes { IfOk result (λ block. block.items ≡ bytes.now ++ replicate (size - length bytes.now) 0) }
    ensures error { IfErr result (λ error. error ≡ NoMemory) }
{
    let mut block = Vec::with_capacity(alloc, size)?;
    block.extend_from_slice(bytes)?;
    block.resize(size, 0)?;
    Ok(block)
}
