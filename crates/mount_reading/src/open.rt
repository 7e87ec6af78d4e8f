//! The parts of a device are opened.
ghost use Rattle.std.specs.Prelude.{◌≡◌, ◌≢◌, ◌⊎◌, ◌<◌, ◌≤◌, ℕ, length, map, IfOk, IfErr};
ghost use Rattle.device.specs.Disk.{Leaves, IsQuiet};
ghost use Rattle.device.specs.Parts.{IsBlockRun, HasSize};
ghost use Rattle.geometry.specs.declared.error.Error.TheVariants.{Device, BadGeometry, BadImage};
ghost use Rattle.geometry.specs.declared.geometry.Geometry.{Geometry as Numbers};
ghost use Rattle.geometry.specs.Area.{block_count, meta_bytes};
ghost use Rattle.geometry.specs.Shape.{block_bytes};
ghost use Rattle.image.specs.Rules.{IsLawful};
ghost use Rattle.image.specs.View.{image_view};
ghost use Rattle.packs.specs.Device.{IsSameArea};
ghost use Rattle.checkpoint.specs.Holding.{AreWhole};
ghost use Rattle.geometry.specs.Weights.{weigh};
ghost use Rattle.pack_tables.specs.Grammar.{HasSuper};
ghost use Rattle.pack_tables.specs.Holding.{HoldsTables};
ghost use Rattle.image_codec.specs.Blocks.{AreBlocks, bytes_at};
ghost use Rattle.mount_reading.specs.Held.{HoldsImage, IsPartsRefusal, AreSameParts, KeepsPack, KeepsBetween};

use crate::front::{have_size, read_front};
use crate::held::read_image;
use checkpoint::ImagePacks;
use device::{Block, Meta, Parts};
use geometry::{Error, Geometry};
use image::Image;
use packs::Packs;
use std::alloc::Global;

/// A device that holds a lawful image: the packs of its meta area, its blocks in address order, and the image.
#[derive(Drop)]
pub struct OpenedDevice<M, B> {
    pub packs: ImagePacks<M>,
    pub blocks: Vec<B>,
    pub image: Image,
}

/// Why a device was not opened, with the device.
#[derive(Drop)]
pub struct OpenFault<M, B> {
    pub parts: Parts<M, B>,
    pub error: Error,
}

/// Opens the parts of a device with any bytes in them. A footer that was torn in its own write is cleared, so that the next pack
/// can be written; nothing else of them changes. The blocks are all of one length.
///
/// Answers BadGeometry where the meta area begins with no superblock, also where it has fewer than 64 bytes; then BadImage(1)
/// where the parts have another size than it tells, before anything is written; then NoPack where neither pack is sound; then
/// BadImage with the least fault that is there. Answers Device where the device failed, which counted it, and NoMemory where a
/// growth was refused. Each refusal hands the parts back, and after each but Device the pack that counted counts. Where a crash
/// left one pack or the next, a crash at any moment of the call does too.
pub fn open_device<M: Meta, B: Block>(
    alloc: Global,
    parts: Parts<M, B>,
) -> Result<OpenedDevice<M, B>, OpenFault<M, B>>
    requires run { (bytes : ℕ) × IsBlockRun B.address_of B.content_of bytes 1 parts.blocks.items }
    ensures front { IfOk result (λ opened. HasSuper opened.packs.geometry (M.seen parts.meta)) }
    ensures size { IfOk result (λ opened. HasSize M.seen B.address_of B.content_of opened.packs.geometry parts) }
    ensures image { IfOk result (λ opened. HoldsImage M.seen B.content_of opened.packs.geometry parts (image_view opened.image)) }
    ensures lawful { IfOk result (λ opened. IsLawful opened.packs.geometry (image_view opened.image)) }
    ensures version { IfOk result (λ opened. opened.image.version ≡ opened.packs.area.version) }
    ensures some_version { IfOk result (λ opened. 0 < opened.image.version) }
    ensures packs { IfOk result (λ opened. AreWhole M.seen M.may_leave opened.packs) }
    // A crash right after finds the same image.
    ensures held { IfOk result (λ opened. Leaves M.may_leave opened.packs.area.meta (HoldsTables opened.packs.geometry (image_view opened.image))) }
    ensures area { IfOk result (λ opened. IsSameArea (M.seen parts.meta) (M.seen opened.packs.area.meta)) }
    ensures blocks { IfOk result (λ opened. AreBlocks opened.packs.geometry (image_view opened.image) (bytes_at B.content_of parts.blocks.items)) }
    ensures run { IfOk result (λ opened. IsBlockRun B.address_of B.content_of (block_bytes opened.packs.geometry.shape) 1 opened.blocks.items) }
    ensures contents { IfOk result (λ opened. map B.content_of opened.blocks.items ≡ map B.content_of parts.blocks.items) }
    ensures refused { IfErr result (λ fault. IsPartsRefusal M.seen B.address_of B.content_of parts fault.error) }
    ensures device { IfErr result (λ fault. fault.error ≡ Device → (M.failed parts.meta < M.failed fault.parts.meta)
        ⊎ (weigh B.failed parts.blocks.items < weigh B.failed fault.parts.blocks.items)) }
    ensures back { IfErr result (λ fault. AreSameParts M.seen B.address_of B.content_of parts fault.parts) }
    ensures kept { IfErr result (λ fault. fault.error ≢ Device → KeepsPack M.seen parts.meta fault.parts.meta) }
    ensures any_moment { IfOk result (λ opened. KeepsBetween M.seen M.may_leave M.moment M.left_since parts.meta opened.packs.area.meta) }
    ensures any_moment_err { IfErr result (λ fault. KeepsBetween M.seen M.may_leave M.moment M.left_since parts.meta fault.parts.meta) }
{
    let Parts {
        mut meta,
        mut blocks,
    } = parts;
    let geometry = match read_geometry(&mut meta, &mut blocks) {
        Ok(geometry) => geometry,
        Err(error) => {
            let parts = Parts { meta, blocks };
            return Err(OpenFault { parts, error });
        }
    };
    let mut packs = match ImagePacks::open(meta, geometry) {
        Ok(packs) => packs,
        Err((error, meta)) => {
            let parts = Parts { meta, blocks };
            return Err(OpenFault { parts, error });
        }
    };
    match read_image(alloc, &mut packs, &mut blocks) {
        Ok(image) => Ok(OpenedDevice {
            packs,
            blocks,
            image,
        }),
        Err(error) => {
            let meta = into_meta(packs);
            let parts = Parts { meta, blocks };
            Err(OpenFault { parts, error })
        }
    }
}

// The geometry that the superblock tells, where the parts have its size.
fn read_geometry<M: Meta, B: Block>(meta: &mut M, blocks: &mut Vec<B>) -> Result<Geometry, Error>
    requires run { (bytes : ℕ) × IsBlockRun B.address_of B.content_of bytes 1 blocks.old.items }
    ensures front { IfOk result (λ geometry. HasSuper geometry (M.seen meta.old)) }
    ensures size { IfOk result (λ geometry. (length (M.seen meta.old) ≡ meta_bytes geometry) × (length blocks.old.items ≡ block_count geometry)
        × IsBlockRun B.address_of B.content_of (block_bytes geometry.shape) 1 blocks.old.items) }
    ensures errors { IfErr result (λ e. (e ≡ Device) ⊎ (((e ≡ BadGeometry) × ((geometry : Numbers) → ¬ HasSuper geometry (M.seen meta.old)))
        ⊎ ((e ≡ BadImage 1) × ((geometry : Numbers) × HasSuper geometry (M.seen meta.old)
        × ¬ ((length (M.seen meta.old) ≡ meta_bytes geometry) × (length blocks.old.items ≡ block_count geometry)
        × IsBlockRun B.address_of B.content_of (block_bytes geometry.shape) 1 blocks.old.items))))) }
    ensures device { IfErr result (λ e. e ≡ Device → (M.failed meta.old < M.failed meta.new) ⊎ (weigh B.failed blocks.old.items < weigh B.failed blocks.new.items)) }
    ensures failures { (M.failed meta.old ≤ M.failed meta.new) × (weigh B.failed blocks.old.items ≤ weigh B.failed blocks.new.items) }
    ensures quiet { IsQuiet M.seen M.may_leave M.moment M.left_since meta.old meta.new }
    ensures addresses { map B.address_of blocks.new.items ≡ map B.address_of blocks.old.items }
    ensures contents { map B.content_of blocks.new.items ≡ map B.content_of blocks.old.items }
{
    let geometry = read_front(meta)?;
    if have_size(&geometry, meta, blocks)? {
        Ok(geometry)
    } else {
        Err(Error::BadImage(1))
    }
}

// The meta area of packs.
fn into_meta<M>(packs: ImagePacks<M>) -> M
    ensures { result ≡ packs.area.meta }
{
    let ImagePacks { area, geometry: _ } = packs;
    let Packs {
        meta,
        geometry: _,
        version: _,
        known: _,
    } = area;
    meta
}

impl<M, B> OpenedDevice<M, B> {
    /// The parts of the device.
    pub fn into_parts(self) -> Parts<M, B>
        ensures { result ≡ record { meta = self.packs.area.meta; blocks = self.blocks } }
    {
        let OpenedDevice {
            packs,
            blocks,
            image: _,
        } = self;
        Parts {
            meta: into_meta(packs),
            blocks,
        }
    }
}
