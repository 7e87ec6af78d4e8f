//! The superblock and the first pack of a volume without files.
ghost use Rattle.std.specs.Prelude.{◌≡◌, ◌<◌, ◌≤◌, length, IfErr, IfOk};
ghost use Rattle.geometry.specs.Refusals.{IsOfRead};
ghost use Rattle.device.specs.Disk.{Leaves};
ghost use Rattle.device.specs.Parts.{HasSize};
ghost use Rattle.volume_format.specs.Mountable.{IsMountable};
ghost use Rattle.geometry.specs.Area.{meta_bytes};
ghost use Rattle.geometry.specs.declared.error.Error.TheVariants.{NoMemory, Device};
ghost use Rattle.image.specs.Empty.{empty_image};
ghost use Rattle.pack_tables.specs.Grammar.{HasSuper, SpellsTables};
ghost use Rattle.pack_tables.specs.Holding.{HoldsTables};

use crate::front::write_front;
use device::{Block, Meta, Parts};
use geometry::{Error, Geometry};
use image::Image;
use pack_tables::encode;
use packs::Packs;
use std::alloc::Global;

/// Why a device was not formatted, with the device.
#[derive(Drop)]
pub struct FormatFault<M, B> {
    pub parts: Parts<M, B>,
    pub error: Error,
}

/// Writes a volume without files to the parts of a device that has the size of the geometry (Linux `filesystems/f2fs`;
/// mkfs.f2fs): the superblock, zeros in both slots, and the pack of version 1, in which no block is valid, segments 0 to 5 are
/// open, one for each log, and the others are free. The main blocks are not touched. A mount of the parts, at once or after a
/// crash, opens that volume, and is refused for want of memory or where the device fails, and for nothing else. Nothing is
/// said of a crash in the call.
///
/// Answers NoMemory before any call of the device, and Device where the meta area failed, which counted it; both hand the
/// parts back, after Device with any bytes in the meta area.
pub fn format<M: Meta, B: Block>(
    alloc: Global,
    parts: Parts<M, B>,
    geometry: Geometry,
) -> Result<Parts<M, B>, FormatFault<M, B>>
    requires size { HasSize M.seen B.address_of B.content_of geometry parts }
    ensures mountable { IfOk result (λ written. IsMountable M.seen M.may_leave B.address_of B.content_of geometry (empty_image geometry) written) }
    ensures blocks { IfOk result (λ written. written.blocks ≡ parts.blocks) }
    ensures failures { IfOk result (λ written. M.failed parts.meta ≤ M.failed written.meta) }
    ensures errors { IfErr result (λ fault. IsOfRead fault.error) }
    ensures memory { IfErr result (λ fault. fault.error ≡ NoMemory → fault.parts ≡ parts) }
    ensures device { IfErr result (λ fault. fault.error ≡ Device → M.failed parts.meta < M.failed fault.parts.meta) }
    ensures size_back { IfErr result (λ fault. HasSize M.seen B.address_of B.content_of geometry fault.parts) }
    ensures blocks_back { IfErr result (λ fault. fault.parts.blocks ≡ parts.blocks) }
{
    let body = match first_body(alloc, &geometry) {
        Ok(body) => body,
        Err(error) => return Err(FormatFault { parts, error }),
    };
    let Parts { meta, blocks } = parts;
    match write_volume(meta, &geometry, body.as_slice()) {
        Ok(meta) => Ok(Parts { meta, blocks }),
        Err(meta) => {
            let parts = Parts { meta, blocks };
            let error = Error::Device;
            Err(FormatFault { parts, error })
        }
    }
}

// The body of the pack of the empty image.
fn first_body(alloc: Global, geometry: &Geometry) -> Result<Vec<u8>, Error>
    ensures spelled { IfOk result (λ body. SpellsTables geometry.now body.items (empty_image geometry.now)) }
    ensures error { IfErr result (λ error. error ≡ NoMemory) }
{
    let image = Image::empty(alloc, geometry)?;
    encode(alloc, geometry, &image)
}

// Writes the superblock, and the first pack. Hands the area back.
fn write_volume<M: Meta>(meta: M, geometry: &Geometry, body: &[u8]) -> Result<M, M>
    requires size { length (M.seen meta) ≡ meta_bytes geometry.now }
    requires spelled { SpellsTables geometry.now body.now (empty_image geometry.now) }
    ensures front { IfOk result (λ written. Leaves M.may_leave written (HasSuper geometry.now)) }
    ensures tables { IfOk result (λ written. Leaves M.may_leave written (HoldsTables geometry.now (empty_image geometry.now))) }
    ensures size { IfOk result (λ written. length (M.seen written) ≡ length (M.seen meta)) }
    ensures size_back { IfErr result (λ back. length (M.seen back) ≡ length (M.seen meta)) }
    ensures failures { IfOk result (λ written. M.failed meta ≤ M.failed written) }
    ensures device { IfErr result (λ back. M.failed meta < M.failed back) }
{
    let mut meta = meta;
    if write_front(&mut meta, geometry).is_err() {
        return Err(meta);
    }
    match Packs::begin(meta, geometry, body) {
        Ok((packs, _)) => Ok(into_meta(packs)),
        Err((_, meta)) => Err(meta),
    }
}

// The meta area of packs.
fn into_meta<M>(packs: Packs<M>) -> M
    ensures { result ≡ packs.meta }
{
    let Packs {
        meta,
        geometry: _,
        version: _,
        known: _,
    } = packs;
    meta
}
