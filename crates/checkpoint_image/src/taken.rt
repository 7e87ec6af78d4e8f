//! An image is taken.
ghost use Rattle.std.specs.Prelude.{◌≡◌, ◌≤◌, ◌<◌, map, length, IfOk, IfErr};
ghost use Rattle.geometry.specs.declared.error.Error.TheVariants.{NoMemory};
ghost use Rattle.image.specs.Pack.{body_bytes, pack_body};
ghost use Rattle.image_law.specs.Parts.{PartsLaw, Balanced, IsImageOf};
ghost use Rattle.checkpoint_image.specs.Cells.{CellsLaw, parts_of};
ghost use Rattle.checkpoint_image.specs.Taken.{AreSized};
ghost use Rattle.checkpoint_image.specs.PartsLaw.{IsFaithfulImage};
ghost use Rattle.checkpoint_image.specs.Held.{cells_in};
ghost use Rattle.checkpoint_image.specs.Kept.{AreNotedSegments, AreNotedShards};
ghost use Rattle.checkpoint_image.specs.Noting.{KeepsNumbers};
ghost use Rattle.checkpoint_image.specs.Touched.{AreTouched};
ghost use Rattle.checkpoint_image.specs.View.{taken_view};

use crate::free::free_of;
use crate::held::{HoldsFile, HoldsLog, HoldsSegment, HoldsShard};
use crate::kept_body::KeptBody;
use crate::row_log::RowLog;
use crate::shown::HeldRows;
use crate::tables::{places_of, total_of};
use crate::taken_image::TakenImage;
use device::Block;
use geometry::Error;
use image::Image;
use pack_tables::spell_head;
use std::marker::PhantomData;

/// Takes an image of this version of what is held, of which each row was noted in the kept body: header and logs are spelled in
/// front of them. Its nodes are those of each file's index tree, and take no memory. What is held keeps its laws and balances, so
/// the image keeps all ten rules, has the files' contents whatever the main blocks hold, and names exactly what is marked (Linux
/// `filesystems/f2fs`, checkpoint).
///
/// The only error is NoMemory, and then the kept body stays.
pub fn take_image<B: Block + Drop, S: HoldsSegment<B>, H: HoldsShard<B>, L: HoldsLog, F: HoldsFile>(
    kept: &mut KeptBody,
    version: u32,
    segments: &[S],
    shards: &[H],
    logs: &[L],
    files: &[F],
) -> Result<TakenImage, Error>
    requires version { 1 ≤ version }
    requires cells { CellsLaw kept.old.geometry (cells_in S.shown H.shown L.shown F.shown segments.now shards.now logs.now files.now) }
    requires balanced { Balanced (parts_of (cells_in S.shown H.shown L.shown F.shown segments.now shards.now logs.now files.now)) }
    requires there { 0 < length kept.old.body.bytes.items }
    requires noted_segments { AreNotedSegments kept.old.twins.items (map S.shown segments.now) }
    requires noted_shards { AreNotedShards kept.old.geometry.segments kept.old.twins.items (map H.shown shards.now) }
    ensures version { IfOk result (λ image. image.tables.version ≡ version) }
    ensures geometry { IfOk result (λ image. image.geometry ≡ kept.old.geometry) }
    ensures image { IfOk result (λ image. IsImageOf kept.old.geometry (parts_of (cells_in S.shown H.shown L.shown F.shown segments.now shards.now logs.now files.now)) (taken_view image)) }
    ensures faithful { IfOk result (λ image. IsFaithfulImage kept.old.geometry (parts_of (cells_in S.shown H.shown L.shown F.shown segments.now shards.now logs.now files.now)) (taken_view image)) }
    ensures spelled { IfOk result (λ image. kept.new.body.bytes.items ≡ pack_body kept.old.geometry.shape (taken_view image)) }
    ensures touched { AreTouched (body_bytes kept.old.geometry) kept.old.body kept.new.body }
    ensures numbers { KeepsNumbers kept.old kept.new }
    ensures err { IfErr result (λ error. error ≡ NoMemory) }
{
    let geometry = kept.geometry;
    let blocks = geometry.shape.segment_blocks();
    let tables = Image {
        version,
        total: total_of(blocks, segments),
        logs: places_of(kept.alloc, segments, logs)?,
        nat: Vec::new(kept.alloc),
        sit: Vec::new(kept.alloc),
        ssa: Vec::new(kept.alloc),
        nodes: Vec::new(kept.alloc),
    };
    let free = free_of(geometry.segments, blocks, segments, &tables.logs);
    let rows = RowLog::of(&HeldRows {
        count: geometry.nodes,
        shards,
        segments,
        files,
        block: PhantomData::<B>,
    });
    kept.put_head(version, tables.total, &tables.logs)?;
    Ok(TakenImage {
        geometry,
        tables,
        rows,
        free,
    })
}
