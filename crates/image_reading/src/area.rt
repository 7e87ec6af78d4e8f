//! The meta area of a new image file.
ghost use Rattle.std.specs.Prelude.{◌≡◌, length, IfErr, IfOk};
ghost use Rattle.geometry.specs.Area.{meta_bytes};
ghost use Rattle.geometry.specs.declared.error.Error.TheVariants.{NoMemory};
ghost use Rattle.image.specs.Rules.{IsInRange};
ghost use Rattle.image.specs.View.{image_view};
ghost use Rattle.pack_tables.specs.Grammar.{HasSuper};
ghost use Rattle.pack_tables.specs.Holding.{HoldsTables};

use device::{MemMeta, Meta};
use geometry::{Error, Geometry, SUPER_BYTES};
use image::Image;
use pack_tables::{encode, write_super};
use packs::Packs;
use std::alloc::Global;

/// A meta area with the superblock of a geometry, and a pack of the first version that spells an image's tables. The only error is
/// NoMemory.
pub(crate) fn new_area(alloc: Global, geometry: &Geometry, image: &Image) -> Result<Vec<u8>, Error>
    requires first { image.now.version ≡ 1 }
    requires range { IsInRange geometry.now (image_view image.now) }
    ensures long { IfOk result (λ area. length area.items ≡ meta_bytes geometry.now) }
    ensures front { IfOk result (λ area. HasSuper geometry.now area.items) }
    ensures tables { IfOk result (λ area. HoldsTables geometry.now (image_view image.now) area.items) }
    ensures refused { IfErr result (λ error. error ≡ NoMemory) }
{
    let body = encode(alloc, geometry, image)?;
    let meta = front_area(alloc, geometry)?;
    match Packs::begin(meta, geometry, body.as_slice()) {
        Ok((packs, _)) => Ok(into_bytes(packs)),
        // An area in memory never fails.
        Err(_) => Err(Error::NoMemory),
    }
}

// A meta area of zeros behind the superblock.
fn front_area(alloc: Global, geometry: &Geometry) -> Result<MemMeta, Error>
    ensures long { IfOk result (λ meta. length (⟦<MemMeta as Meta>⟧.seen meta) ≡ meta_bytes geometry.now) }
    ensures front { IfOk result (λ meta. HasSuper geometry.now (⟦<MemMeta as Meta>⟧.seen meta)) }
    ensures refused { IfErr result (λ error. error ≡ NoMemory) }
{
    let zeros = vec![in alloc; 0u8; geometry.meta_bytes() as usize]?;
    let mut meta = MemMeta::new(zeros);
    let mut front = [0u8; SUPER_BYTES];
    write_super(geometry, &mut front);
    match meta.write(0, &front) {
        Ok(()) => Ok(meta),
        Err(_) => Err(Error::NoMemory),
    }
}

// The bytes of the meta area of packs.
fn into_bytes(packs: Packs<MemMeta>) -> Vec<u8>
    ensures { result.items ≡ ⟦<MemMeta as Meta>⟧.seen packs.meta }
{
    let Packs {
        meta,
        geometry: _,
        version: _,
        known: _,
    } = packs;
    meta.into_bytes()
}
