//! The blocks of a file.
ghost use Rattle.std.specs.Prelude.{◌≡◌, ◌<◌, ◌≤◌, ◌*◌, ◌^◌, ◌-◌, ◌++◌, ℕ, List, length, take, OnOk};
ghost use Rattle.std.specs.Io.KnownBytes.{Appends};
ghost use Rattle.geometry.specs.File.{bytes_at};
ghost use Rattle.geometry.specs.Shape.{block_bytes};
ghost use Rattle.image.specs.Image.{node_of};
ghost use Rattle.image.specs.View.{image_view};
ghost use Rattle.image_reading.specs.Content.{all_bytes, front_bytes};
ghost use Rattle.image_reading.specs.Held.{file_in};
ghost use Rattle.image_reading.specs.Told.{Narrows};

use crate::address::{address_at, length_of};
use crate::fault::ReadFault;
use crate::reading::place_of;
use crate::source::ImageSource;
use geometry::Geometry;
use image::Image;
use std::alloc::Global;
use std::io::Write;

// The bytes that are handed out at once at most.
const MOST_BYTES: u32 = 65_536;

/// Hands the bytes of a file's blocks to a writer, so many of them at most, a piece at a time. No more than a piece is kept.
///
/// Answers Out where the writer failed, which may have taken some of the front; Io where the source did; and NoMemory.
pub fn hand_out<S: ImageSource, O: Write>(
    alloc: Global,
    source: &mut S,
    geometry: &Geometry,
    image: &Image,
    number: u32,
    most: u64,
    out: &mut O,
) -> Result<(), ReadFault>
    ensures handed { OnOk result ((bytes : List ℕ) → S.shows source.new bytes → let file = file_in geometry.now (image_view image.now) bytes number in
        Appends (O.contents out.old) (O.contents out.new) (take most (all_bytes (block_bytes geometry.now.shape) file))) }
    ensures length { OnOk result ((bytes : List ℕ) → S.shows source.new bytes → let file = file_in geometry.now (image_view image.now) bytes number in
        length (all_bytes (block_bytes geometry.now.shape) file) < 2 ^ 64) }
    ensures kept { Narrows (S.shows source.old) (S.shows source.new) }
{
    let size = geometry.shape.block_bytes();
    let blocks = MOST_BYTES / size;
    let mut buffer = vec![in alloc; 0u8; blocks as usize * size as usize]?;
    let length = length_of(image, number);
    let mut index = 0u32;
    let mut left = most;
    while index < length {
        let end = index + blocks.min(length - index);
        let piece = &mut buffer.as_mut_slice()[..(end - index) as usize * size as usize];
        read_blocks(source, geometry, image, number, index, end, piece)?;
        let wanted = left.min(piece.len() as u64);
        if let Err(error) = out.write_all(&piece[..wanted as usize]) {
            return Err(ReadFault::Out(error));
        }
        left -= wanted;
        index = end;
    }
    Ok(())
}

// Reads the blocks that the file has from an index on to before another.
fn read_blocks<S: ImageSource>(
    source: &mut S,
    geometry: &Geometry,
    image: &Image,
    number: u32,
    first: u32,
    end: u32,
    out: &mut [u8],
) -> Result<(), ReadFault>
    requires out { length out.old ≡ (end - first) * block_bytes geometry.now.shape }
    requires order { first ≤ end }
    requires below { end ≤ (node_of (image_view image.now) number).length }
    ensures read { OnOk result ((bytes : List ℕ) → S.shows source.new bytes → let file = file_in geometry.now (image_view image.now) bytes number in
        front_bytes (block_bytes geometry.now.shape) file first ++ out.new ≡ front_bytes (block_bytes geometry.now.shape) file end) }
    ensures kept { Narrows (S.shows source.old) (S.shows source.new) }
{
    let size = geometry.shape.block_bytes() as usize;
    for index in first..end {
        let from = (index - first) as usize * size;
        read_block(
            source,
            geometry,
            image,
            number,
            index,
            &mut out[from..from + size],
        )?;
    }
    Ok(())
}

// Reads a block that the file has: zeros where none was written.
fn read_block<S: ImageSource>(
    source: &mut S,
    geometry: &Geometry,
    image: &Image,
    number: u32,
    index: u32,
    out: &mut [u8],
) -> Result<(), ReadFault>
    requires out { length out.old ≡ block_bytes geometry.now.shape }
    requires below { index < (node_of (image_view image.now) number).length }
    ensures read { OnOk result ((bytes : List ℕ) → S.shows source.new bytes
        → out.new ≡ bytes_at (block_bytes geometry.now.shape) (file_in geometry.now (image_view image.now) bytes number) index) }
    ensures kept { Narrows (S.shows source.old) (S.shows source.new) }
{
    let address = address_at(geometry, image, number, index);
    if address == 0 {
        out.fill(0);
    } else {
        source.read_at(place_of(geometry, address), out)?;
    }
    Ok(())
}
