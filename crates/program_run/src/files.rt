//! The files of an image file.
ghost use Rattle.std.specs.Prelude.{◌≡◌, ◌≢◌, ◌⊎◌, ◌*◌, length, false, IfErr, IfOk, OnOk};
ghost use Rattle.std.specs.List.{flat_map};
ghost use Rattle.device.specs.Parts.{IsBlockRun};
ghost use Rattle.program_run.specs.Checking.{IsDeviceOf, TellsFiles};
ghost use Rattle.program_run.specs.Reading.{IsWhole};
ghost use Rattle.program_run.specs.Run.{names_line};
ghost use Rattle.pack_tables.specs.File.{IsFileRefusal};

use crate::reading::read_image;
use crate::status::DONE;
use crate::stop::Stop;
use crate::telling::tell_parts;
use flash_volume::{Block, Error, MemBlock, MemMeta, Meta, Parts};
use image::Image;
use pack_tables::ReadImage;
use std::alloc::{AllocError, Global};
use std::io::{Read, Write};
use std::sync::Wait;

/// Reads an image file as far as its superblock tells, and one byte more, mounts a device in memory with its bytes, and writes to
/// `out` the line of each file and the total of its image, as at a script's end; or why it is refused.
///
/// Answers the exit status: 0 where all was told; 1 where the image is refused, as by `check_image`, or a file could not be read;
/// 4 where `input` could not be read, `out` could not be written, or the program itself found no memory, which is told on
/// `errors`.
pub fn tell_files<T: Wait, R: Read, W: Write, E: Write>(
    rt: &T,
    alloc: Global,
    input: &mut R,
    out: &mut W,
    errors: &mut E,
) -> u8
    ensures status { (result ≡ 0) ⊎ ((result ≡ 1) ⊎ (result ≡ 4)) }
    ensures told { result ≡ 0 → TellsFiles ⟦<MemMeta as Meta>⟧.seen ⟦<MemBlock as Block>⟧.address_of ⟦<MemBlock as Block>⟧.content_of (R.remaining input.old) (W.contents out.old) (W.contents out.new) }
    ensures quiet { result ≢ 4 → errors.new ≡ errors.old }
{
    match read_and_tell(rt, alloc, input, out) {
        Ok(()) => DONE,
        Err(stop) => stop.tell(out, errors),
    }
}

fn read_and_tell<T: Wait, R: Read, W: Write>(
    rt: &T,
    alloc: Global,
    input: &mut R,
    out: &mut W,
) -> Result<(), Stop>
    ensures told { OnOk result (TellsFiles ⟦<MemMeta as Meta>⟧.seen ⟦<MemBlock as Block>⟧.address_of ⟦<MemBlock as Block>⟧.content_of (R.remaining input.old) (W.contents out.old) (W.contents out.new)) }
    ensures err { IfErr result (λ stop. names_line stop ≡ false) }
{
    let file = read_image(alloc, input)?;
    let parts = parts_of(alloc, file.as_slice())?;
    tell_parts(rt, alloc, parts, out)
}

// A device in memory with the bytes of an image file, if its image is lawful.
fn parts_of(alloc: Global, file: &[u8]) -> Result<Parts<MemMeta, MemBlock>, Error>
    ensures device { IfOk result (IsDeviceOf ⟦<MemMeta as Meta>⟧.seen ⟦<MemBlock as Block>⟧.address_of ⟦<MemBlock as Block>⟧.content_of file.now) }
    ensures whole { OnOk result (IsWhole file.now) }
    ensures refused { IfErr result (IsFileRefusal file.now) }
{
    let (geometry, _image) = Image::read(alloc, file)?;
    let (area, main) = file.split_at(geometry.meta_bytes() as usize);
    let meta = MemMeta::new(Vec::from_slice(alloc, area)?);
    let blocks = blocks_of(alloc, main, geometry.blocks(), geometry.shape.block_bytes())?;
    Ok(Parts { meta, blocks })
}

// So many blocks of so many bytes, from address 1 on.
fn blocks_of(
    alloc: Global,
    bytes: &[u8],
    count: u32,
    size: u32,
) -> Result<Vec<MemBlock>, AllocError>
    requires { length bytes.now ≡ count * size }
    ensures count { IfOk result (λ blocks. length blocks.items ≡ count) }
    ensures run { IfOk result (λ blocks. IsBlockRun ⟦<MemBlock as Block>⟧.address_of ⟦<MemBlock as Block>⟧.content_of size 1 blocks.items) }
    ensures bytes { IfOk result (λ blocks. flat_map ⟦<MemBlock as Block>⟧.content_of blocks.items ≡ bytes.now) }
{
    let mut blocks = Vec::new(alloc);
    for place in 0..count {
        let first = place as usize * size as usize;
        let own = Vec::from_slice(alloc, &bytes[first..first + size as usize])?;
        blocks.push(MemBlock::new(alloc, place + 1, own)?)?;
    }
    Ok(blocks)
}
