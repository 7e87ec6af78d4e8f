//! The superblock of a device, and whether the device has the size that it tells.
ghost use Rattle.std.specs.Prelude.{◌≡◌, ◌⊎◌, ◌<◌, ◌≤◌, ℕ, true, false, length, map, IfOk, IfErr};
ghost use Rattle.device.specs.Disk.{IsQuiet};
ghost use Rattle.device.specs.Parts.{IsBlockRun};
ghost use Rattle.geometry.specs.declared.error.Error.TheVariants.{Device, BadGeometry};
ghost use Rattle.geometry.specs.declared.geometry.Geometry.{Geometry as Numbers};
ghost use Rattle.geometry.specs.Area.{block_count, meta_bytes};
ghost use Rattle.geometry.specs.Shape.{block_bytes};
ghost use Rattle.geometry.specs.Weights.{weigh};
ghost use Rattle.pack_tables.specs.Grammar.{HasSuper};

use device::{Block, Meta};
use geometry::{Error, Geometry, SUPER_BYTES};
use pack_tables::read_super;
use std::convert::AsSlice;

/// The geometry that the superblock of an area tells. The area stays as it is.
///
/// Answers BadGeometry where the area begins with no superblock of any geometry, also where it has fewer than 64 bytes, and
/// Device where it failed.
pub(crate) fn read_front<M: Meta>(meta: &mut M) -> Result<Geometry, Error>
    ensures front { IfOk result (λ geometry. HasSuper geometry (M.seen meta.old)) }
    ensures errors { IfErr result (λ e. (e ≡ Device) ⊎ ((e ≡ BadGeometry) × ((geometry : Numbers) → ¬ HasSuper geometry (M.seen meta.old)))) }
    ensures device { IfErr result (λ e. e ≡ Device → M.failed meta.old < M.failed meta.new) }
    ensures failures { M.failed meta.old ≤ M.failed meta.new }
    ensures quiet { IsQuiet M.seen M.may_leave M.moment M.left_since meta.old meta.new }
{
    if meta.len() < SUPER_BYTES as u64 {
        return Err(Error::BadGeometry);
    }
    let mut front = [0u8; SUPER_BYTES];
    meta.read(0, &mut front)?;
    read_super(&front)
}

/// Whether a meta area and blocks in address order have the size of a geometry. The blocks are all as long as the first of
/// them, and stay as they are.
///
/// The only error is Device, where the first block failed to be lent.
pub(crate) fn have_size<M: Meta, B: Block>(
    geometry: &Geometry,
    meta: &M,
    blocks: &mut Vec<B>,
) -> Result<bool, Error>
    requires run { (bytes : ℕ) × IsBlockRun B.address_of B.content_of bytes 1 blocks.old.items }
    ensures yes { IfOk result (λ found. found ≡ true → (length (M.seen meta.now) ≡ meta_bytes geometry.now)
        × (length blocks.old.items ≡ block_count geometry.now) × IsBlockRun B.address_of B.content_of (block_bytes geometry.now.shape) 1 blocks.old.items) }
    ensures no { IfOk result (λ found. found ≡ false → ¬ ((length (M.seen meta.now) ≡ meta_bytes geometry.now)
        × (length blocks.old.items ≡ block_count geometry.now) × IsBlockRun B.address_of B.content_of (block_bytes geometry.now.shape) 1 blocks.old.items)) }
    ensures errors { IfErr result (λ e. e ≡ Device) }
    ensures device { IfErr result (λ _. weigh B.failed blocks.old.items < weigh B.failed blocks.new.items) }
    ensures failures { weigh B.failed blocks.old.items ≤ weigh B.failed blocks.new.items }
    ensures addresses { map B.address_of blocks.new.items ≡ map B.address_of blocks.old.items }
    ensures contents { map B.content_of blocks.new.items ≡ map B.content_of blocks.old.items }
{
    if meta.len() != geometry.meta_bytes() || blocks.len() != geometry.blocks() as usize {
        return Ok(false);
    }
    if blocks.is_empty() {
        return Ok(true);
    }
    let lease = blocks[0].lend()?;
    Ok(lease.as_slice().len() == geometry.shape.block_bytes() as usize)
}
