//! A whole device over an image file.
ghost use Rattle.std.specs.Prelude.{◌≡◌, map, length, All, IfOk, IfErr};
ghost use Rattle.std.specs.Arc.{arc_value};
ghost use Rattle.device.specs.Parts.{HasSize, image_file};
ghost use Rattle.file_device.specs.Blocks as blocks;
ghost use Rattle.file_device.specs.Place.{block_place};
ghost use Rattle.geometry.specs.declared.error.Error.TheVariants.{NoMemory};
ghost use Rattle.geometry.specs.Shape.{block_bytes};

use crate::block::FileBlock;
use crate::held::Held;
use crate::kept::{SharedBytes, Site};
use crate::meta::FileMeta;
use crate::store::{Asked, Settled, Store};
use device::{Block, MemBlock, MemDevice, MemMeta, Meta, Parts};
use geometry::{Error, Geometry};
use std::alloc::Global;
use std::sync::Arc;

/// The parts of a device in memory that has the size of a geometry, each write of which goes to the store too, at the place that
/// it has in an image file. What the meta area holds is settled. The only error is NoMemory.
pub fn keep_in<S: Store + Drop>(
    alloc: Global,
    device: MemDevice,
    geometry: &Geometry,
    store: Asked<S>,
    settled: Settled,
) -> Result<Parts<FileMeta<S>, FileBlock<S>>, Error>
    requires size { HasSize ⟦<MemMeta as Meta>⟧.seen ⟦<MemBlock as Block>⟧.address_of ⟦<MemBlock as Block>⟧.content_of geometry.now device.parts }
    ensures size { IfOk result (λ parts. HasSize ⟦<FileMeta<S> as Meta>⟧.seen ⟦<FileBlock<S> as Block>⟧.address_of ⟦<FileBlock<S> as Block>⟧.content_of geometry.now parts) }
    ensures front { IfOk result (λ parts. ⟦<FileMeta<S> as Meta>⟧.seen parts.meta ≡ ⟦<MemMeta as Meta>⟧.seen device.parts.meta) }
    ensures bytes { IfOk result (λ parts. image_file ⟦<FileMeta<S> as Meta>⟧.seen ⟦<FileBlock<S> as Block>⟧.content_of parts
        ≡ image_file ⟦<MemMeta as Meta>⟧.seen ⟦<MemBlock as Block>⟧.content_of device.parts) }
    ensures places { IfOk result (λ parts. All (λ block. blocks.place_of block ≡ block_place geometry.now block.address) parts.blocks.items) }
    ensures error { IfErr result (λ error. error ≡ NoMemory) }
{
    let store = match Arc::new(alloc, store) {
        Ok(store) => store,
        Err(_) => return Err(Error::NoMemory),
    };
    wrap(alloc, device, geometry, store, settled)
}

fn wrap<S: Store + Drop>(
    alloc: Global,
    device: MemDevice,
    geometry: &Geometry,
    store: Arc<Asked<S>>,
    settled: Settled,
) -> Result<Parts<FileMeta<S>, FileBlock<S>>, Error>
    requires { All (λ block. length (⟦<MemBlock as Block>⟧.content_of block) ≡ block_bytes geometry.now.shape) device.parts.blocks.items }
    ensures meta { IfOk result (λ parts. parts.meta.kept.area ≡ device.parts.meta) }
    ensures addresses { IfOk result (λ parts. map (λ block. block.address) parts.blocks.items ≡ map ⟦<MemBlock as Block>⟧.address_of device.parts.blocks.items) }
    ensures contents { IfOk result (λ parts. map blocks.content_of parts.blocks.items ≡ map ⟦<MemBlock as Block>⟧.content_of device.parts.blocks.items) }
    ensures places { IfOk result (λ parts. All (λ block. blocks.place_of block ≡ block_place geometry.now block.address) parts.blocks.items) }
    ensures error { IfErr result (λ error. error ≡ NoMemory) }
{
    let site = Site::new(alloc, Arc::try_clone(&store)?, geometry)?;
    let Parts { meta, blocks } = device.split();
    let meta = FileMeta::of(meta, store, settled);
    let mut kept = Vec::with_capacity(alloc, blocks.len())?;
    for block in blocks {
        kept.push_reserved(keep(alloc, &site, &block)?);
    }
    Ok(Parts { meta, blocks: kept })
}

// A block with the bytes of one in memory.
fn keep<S: Store + Drop>(
    alloc: Global,
    site: &Arc<Site<S>>,
    block: &MemBlock,
) -> Result<FileBlock<S>, Error>
    requires { length (⟦<MemBlock as Block>⟧.content_of block.now) ≡ block_bytes (arc_value site.now).geometry.shape }
    ensures address { IfOk result (λ made. made.address ≡ ⟦<MemBlock as Block>⟧.address_of block.now) }
    ensures content { IfOk result (λ made. blocks.content_of made ≡ ⟦<MemBlock as Block>⟧.content_of block.now) }
    ensures place { IfOk result (λ made. blocks.place_of made ≡ block_place (arc_value site.now).geometry made.address) }
    ensures error { IfErr result (λ error. error ≡ NoMemory) }
{
    let address = block.address();
    let bytes = Vec::from_slice(alloc, block.as_slice())?;
    let kept = SharedBytes::new(site, Held::From(address), bytes)?;
    Ok(FileBlock::of(address, kept))
}

/// Where the block of an address begins in an image file.
pub(crate) fn place_of(geometry: &Geometry, address: u32) -> u64
    ensures { result ≡ block_place geometry.now address }
{
    let size = u64::from(geometry.shape.block_bytes());
    geometry.meta_bytes() + u64::from(address.saturating_sub(1)) * size
}
