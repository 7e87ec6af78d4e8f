//! A volume is written anew.
ghost use Rattle.std.specs.Prelude.{◌≡◌, ℕ, List, drop, length, IfErr, IfOk, OnOk};
ghost use Rattle.std.specs.Io.KnownBytes.{Appends};
ghost use Rattle.geometry.specs.Area.{meta_bytes};
ghost use Rattle.geometry.specs.declared.error.Error.TheVariants.{NoMemory};
ghost use Rattle.image.specs.Faults.{IsRefusal};
ghost use Rattle.image.specs.View.{image_view};
ghost use Rattle.image_reading.specs.Held.{HoldsVolume};
ghost use Rattle.image_reading.specs.Refused.{IfRefused};
ghost use Rattle.image_reading.specs.Told.{Narrows};
ghost use Rattle.pack_tables.specs.File.{file_bytes as bytes_of_file};
ghost use Rattle.image_reading.specs.Upgraded.{IsUpgraded, first, paged};

use crate::area::new_area;
use crate::{ImageSource, ReadFault};
use geometry::{Geometry, Packing};
use image::Image;
use image_checker::check;
use pack_tables::file_bytes;
use std::alloc::Global;
use std::io::Write;

// The bytes that are copied at once at most.
const MOST_BYTES: u64 = 65_536;

// The version of the pack of a new volume.
const FIRST: u32 = 1;

/// Writes the volume of an image file, whose geometry and image were read, as an image file of format 3: a new superblock and a pack of
/// version 1 with its tables, and behind them its main blocks as they are. Answers the new volume's geometry.
///
/// Answers BadImage with the least fault where the image is not lawful, and NoMemory, both before anything is written; Out where the
/// writer failed, Io where the source did, and NoMemory, and then the writer may have taken some of the front. The main blocks are read
/// once, a piece at a time.
pub fn upgrade<S: ImageSource, O: Write>(
    alloc: Global,
    geometry: &Geometry,
    image: Image,
    source: &mut S,
    out: &mut O,
) -> Result<Geometry, ReadFault>
    ensures made { IfOk result (λ made. made ≡ paged geometry.now) }
    ensures upgraded { IfOk result (λ made. (bytes : List ℕ) → S.shows source.new bytes → HoldsVolume geometry.now (image_view image) bytes
        → (written : List ℕ) × Appends (O.contents out.old) (O.contents out.new) written × IsUpgraded geometry.now (image_view image) bytes written) }
    ensures refused { IfErr result (λ fault. IfRefused fault (IsRefusal (paged geometry.now) (first (image_view image)))) }
    ensures kept { Narrows (S.shows source.old) (S.shows source.new) }
{
    let made = geometry.with_packing(Packing::Pages);
    let mut image = image;
    image.version = FIRST;
    check(alloc, &made, &image)?;
    let area = new_area(alloc, &made, &image)?;
    if let Err(error) = out.write_all(area.as_slice()) {
        return Err(ReadFault::Out(error));
    }
    copy_blocks(alloc, geometry, source, out)?;
    Ok(made)
}

// Copies the main blocks.
fn copy_blocks<S: ImageSource, O: Write>(
    alloc: Global,
    geometry: &Geometry,
    source: &mut S,
    out: &mut O,
) -> Result<(), ReadFault>
    ensures copied { OnOk result ((bytes : List ℕ) → S.shows source.new bytes → length bytes ≡ bytes_of_file geometry.now
        → Appends (O.contents out.old) (O.contents out.new) (drop (meta_bytes geometry.now) bytes)) }
    ensures refused { IfErr result (λ fault. IfRefused fault (λ error. error ≡ NoMemory)) }
    ensures kept { Narrows (S.shows source.old) (S.shows source.new) }
{
    let end = file_bytes(geometry);
    let mut buffer = vec![in alloc; 0u8; MOST_BYTES as usize]?;
    let mut at = geometry.meta_bytes();
    while at < end {
        let count = MOST_BYTES.min(end - at);
        let piece = &mut buffer.as_mut_slice()[..count as usize];
        source.read_at(at, piece)?;
        if let Err(error) = out.write_all(piece) {
            return Err(ReadFault::Out(error));
        }
        at += count;
    }
    Ok(())
}
