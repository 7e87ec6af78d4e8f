//! A device in memory that has the bytes of an image file.
ghost use Rattle.std.specs.Prelude.{◌≡◌, ◌≤◌, drop, length, take, IfOk, OnOk};
ghost use Rattle.std.specs.List.{flat_map};
ghost use Rattle.std.specs.Io.KnownBytes.{Consumes};
ghost use Rattle.device.specs.Parts.{HasSize, IsBlockRun, image_file};
ghost use Rattle.geometry.specs.Area.{meta_bytes};
ghost use Rattle.pack_tables.specs.Grammar.{HasSuper};

use crate::fault::FileFault;
use device::{Block, MemBlock, MemDevice, MemMeta, Meta, Parts};
use geometry::{Error, Geometry};
use pack_tables::read_super;
use std::alloc::Global;
use std::io;
use std::io::Read;

/// Reads the superblock of an image file, and then as many bytes as it tells: a device in memory with all of them, of the size of
/// its geometry. What comes behind them is not read. Memory is taken as the bytes come.
///
/// Answers `Refused(BadGeometry)` where there are fewer than 64 bytes or they are no superblock, `Refused(BadImage(1))` where the
/// input ends before its size, `Refused(NoMemory)`, and `Io` where it can't be read. How much was read then is not said.
pub fn read_device<R: Read>(
    alloc: Global,
    input: &mut R,
) -> Result<(Geometry, MemDevice), FileFault>
    ensures front { IfOk result (λ read. HasSuper read.0 (⟦<MemMeta as Meta>⟧.seen read.1.parts.meta)) }
    ensures size { IfOk result (λ read. HasSize ⟦<MemMeta as Meta>⟧.seen ⟦<MemBlock as Block>⟧.address_of ⟦<MemBlock as Block>⟧.content_of read.0 read.1.parts) }
    ensures bytes { IfOk result (λ read. Consumes (R.remaining input.old) (R.remaining input.new) (image_file ⟦<MemMeta as Meta>⟧.seen ⟦<MemBlock as Block>⟧.content_of read.1.parts)) }
{
    let (geometry, area) = read_area(alloc, input)?;
    let blocks = read_blocks(
        alloc,
        input,
        geometry.blocks(),
        geometry.shape.block_bytes(),
    )?;
    let parts = Parts {
        meta: MemMeta::new(area),
        blocks,
    };
    Ok((geometry, MemDevice::join(parts)))
}

/// Reads the superblock of an image file, and the meta area whose size it tells.
pub(crate) fn read_area<R: Read>(
    alloc: Global,
    input: &mut R,
) -> Result<(Geometry, Vec<u8>), FileFault>
    ensures front { IfOk result (λ read. HasSuper read.0 read.1.items) }
    ensures length { IfOk result (λ read. length read.1.items ≡ meta_bytes read.0) }
    ensures bytes { IfOk result (λ read. Consumes (R.remaining input.old) (R.remaining input.new) read.1.items) }
{
    let mut front = [0u8; 64];
    if let Err(error) = input.read_exact(&mut front) {
        return Err(fault_of(error, Error::BadGeometry));
    }
    let geometry = read_super(&front)?;
    let mut area = Vec::from_slice(alloc, &front)?;
    read_more(input, &mut area, geometry.meta_bytes() as usize)?;
    Ok((geometry, area))
}

// An input that ends too early has another size than it should have.
pub(crate) fn fault_of(error: io::Error, early: Error) -> FileFault {
    match error.kind() {
        io::ErrorKind::UnexpectedEof => FileFault::Refused(early),
        _ => FileFault::from(error),
    }
}

// Reads on until there are so many bytes.
fn read_more<R: Read>(input: &mut R, bytes: &mut Vec<u8>, end: usize) -> Result<(), FileFault>
    requires { length bytes.old.items ≤ end }
    ensures length { OnOk result (length bytes.new.items ≡ end) }
    ensures front { OnOk result (take (length bytes.old.items) bytes.new.items ≡ bytes.old.items) }
    ensures read { OnOk result (Consumes (R.remaining input.old) (R.remaining input.new) (drop (length bytes.old.items) bytes.new.items)) }
{
    let from = bytes.len();
    bytes.resize(end, 0)?;
    match input.read_exact(&mut bytes.as_mut_slice()[from..]) {
        Ok(()) => Ok(()),
        Err(error) => Err(fault_of(error, Error::BadImage(1))),
    }
}

// So many blocks of so many bytes, from address 1 on.
fn read_blocks<R: Read>(
    alloc: Global,
    input: &mut R,
    count: u32,
    size: u32,
) -> Result<Vec<MemBlock>, FileFault>
    ensures count { IfOk result (λ blocks. length blocks.items ≡ count) }
    ensures run { IfOk result (λ blocks. IsBlockRun ⟦<MemBlock as Block>⟧.address_of ⟦<MemBlock as Block>⟧.content_of size 1 blocks.items) }
    ensures read { IfOk result (λ blocks. Consumes (R.remaining input.old) (R.remaining input.new) (flat_map ⟦<MemBlock as Block>⟧.content_of blocks.items)) }
{
    let mut blocks = Vec::new(alloc);
    for place in 0..count {
        let bytes = read_block(alloc, input, size)?;
        blocks.push(MemBlock::new(alloc, place + 1, bytes)?)?;
    }
    Ok(blocks)
}

fn read_block<R: Read>(alloc: Global, input: &mut R, size: u32) -> Result<Vec<u8>, FileFault>
    ensures length { IfOk result (λ bytes. length bytes.items ≡ size) }
    ensures read { IfOk result (λ bytes. Consumes (R.remaining input.old) (R.remaining input.new) bytes.items) }
{
    let mut bytes = Vec::new(alloc);
    read_more(input, &mut bytes, size as usize)?;
    Ok(bytes)
}
