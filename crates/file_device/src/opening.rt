//! The parts of a device over a file that is there: the blocks that its image names are read, and the others are shown as zeros.
ghost use Rattle.std.specs.Prelude.{◌≡◌, ◌+◌, ◌<◌, false, length, map, slice_index_or, IfOk};
ghost use Rattle.std.specs.Arc.{arc_value};
ghost use Rattle.device.specs.Parts.{HasSize, IsBlockRun};
ghost use Rattle.file_device.specs.Blocks.{content_of, is_kept};
ghost use Rattle.file_device.specs.Held.{geometry_of};
ghost use Rattle.file_device.specs.declared.held.Held.TheVariants.{Zeros};
ghost use Rattle.geometry.specs.Area.{block_count, meta_bytes};
ghost use Rattle.geometry.specs.Shape.{block_bytes};

use crate::block::FileBlock;
use crate::fault::FileFault;
use crate::held::Held;
use crate::kept::{SharedBytes, Site};
use crate::meta::FileMeta;
use crate::runs::Run;
use crate::store::{Asked, Settled};
use device::{Block, MemMeta, Meta, Parts};
use geometry::Geometry;
use std::alloc::Global;
use std::fs::File;
use std::sync::Arc;

/// The parts of a device over a file, whose meta area has these bytes, all of them settled. The blocks that are named are read.
pub(crate) fn parts_over(
    alloc: Global,
    geometry: &Geometry,
    area: Vec<u8>,
    named: &[bool],
    file: File,
    settled: Settled,
) -> Result<Parts<FileMeta<File>, FileBlock<File>>, FileFault>
    requires long { length area.items ≡ meta_bytes geometry.now }
    requires named { length named.now ≡ block_count geometry.now }
    ensures front { IfOk result (λ parts. ⟦<FileMeta<File> as Meta>⟧.seen parts.meta ≡ area.items) }
    ensures size { IfOk result (λ parts. HasSize ⟦<FileMeta<File> as Meta>⟧.seen ⟦<FileBlock<File> as Block>⟧.address_of ⟦<FileBlock<File> as Block>⟧.content_of geometry.now parts) }
    ensures read { IfOk result (λ parts. map is_kept parts.blocks.items ≡ named.now) }
{
    let file = Arc::new(alloc, Asked::of(file))?;
    let site = Site::new(alloc, Arc::try_clone(&file)?, geometry)?;
    let blocks = open_blocks(alloc, &site, named)?;
    let meta = FileMeta::of(MemMeta::new(area), file, settled);
    Ok(Parts { meta, blocks })
}

// All blocks in address order. Those that are named are read.
fn open_blocks(
    alloc: Global,
    site: &Arc<Site<File>>,
    named: &[bool],
) -> Result<Vec<FileBlock<File>>, FileFault>
    requires named { length named.now ≡ block_count (arc_value site.now).geometry }
    ensures count { IfOk result (λ blocks. length blocks.items ≡ block_count (arc_value site.now).geometry) }
    ensures run { IfOk result (λ blocks. IsBlockRun ⟦<FileBlock<File> as Block>⟧.address_of ⟦<FileBlock<File> as Block>⟧.content_of (block_bytes (arc_value site.now).geometry.shape) 1 blocks.items) }
    ensures read { IfOk result (λ blocks. map is_kept blocks.items ≡ named.now) }
{
    let count = site.geometry.blocks();
    let mut blocks = Vec::with_capacity(alloc, count as usize)?;
    let zeros = SharedBytes::new(site, Held::Zeros, Vec::new(alloc))?;
    let mut run = Run::none(alloc, site)?;
    for place in 0..count {
        blocks.push(open_block(alloc, site, named, place, &zeros, &mut run)?)?;
    }
    Ok(blocks)
}

// The block at a place. Where it is named its bytes are read, with those of its neighbours; the others share the zeros.
fn open_block(
    alloc: Global,
    site: &Arc<Site<File>>,
    named: &[bool],
    place: u32,
    zeros: &Arc<SharedBytes<File>>,
    run: &mut Run,
) -> Result<FileBlock<File>, FileFault>
    requires named { length named.now ≡ block_count (arc_value site.now).geometry }
    requires place { place < block_count (arc_value site.now).geometry }
    requires zeros { ((arc_value zeros.now).held ≡ Zeros) × (geometry_of (arc_value zeros.now) ≡ (arc_value site.now).geometry) }
    requires run { geometry_of (arc_value run.old.kept) ≡ (arc_value site.now).geometry }
    ensures run { geometry_of (arc_value run.new.kept) ≡ (arc_value site.now).geometry }
    ensures address { IfOk result (λ block. block.address ≡ place + 1) }
    ensures length { IfOk result (λ block. length (content_of block) ≡ block_bytes (arc_value site.now).geometry.shape) }
    ensures numbers { IfOk result (λ block. geometry_of (arc_value block.kept) ≡ (arc_value site.now).geometry) }
    ensures read { IfOk result (λ block. is_kept block ≡ slice_index_or named.now place false) }
{
    let kept = if named[place as usize] {
        run.reach(alloc, site, named, place)?;
        run.block(place)?
    } else {
        Arc::try_clone(zeros)?
    };
    Ok(FileBlock::of(place + 1, kept))
}
