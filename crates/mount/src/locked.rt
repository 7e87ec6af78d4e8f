//! All that was loaded comes into its locks.
ghost use Rattle.std.specs.Prelude.{◌≡◌, ◌+◌, length, map, vec_len, vec_capacity};
ghost use Rattle.device.specs.Parts.{IsBlockRun};
ghost use Rattle.geometry.specs.Area.{block_count};
ghost use Rattle.geometry.specs.Shape.{block_bytes};
ghost use Rattle.image.specs.Files.{files as image_files};
ghost use Rattle.image.specs.Rules.{IsLawful};
ghost use Rattle.image.specs.View.{image_view};
ghost use Rattle.image_codec.specs.Blocks.{AreBlocks, bytes_at};
ghost use Rattle.pool.specs.Pools.{first_account};
ghost use Rattle.rights_permits.specs.Names.{layout_of};
ghost use Rattle.rights_permits.specs.Turns.{at_home};
ghost use Rattle.area.specs.Opening.{PartsFall};
ghost use Rattle.mount.specs.Made.{IsMemory};
ghost use Rattle.mount.specs.Pooled.{HasPutFree};

use crate::files::lock_loaded_files;
use crate::frames::LockFrames;
use crate::loading_all::{LoadedVolume, VolumeMemory, load_volume};
use crate::mounted_area::{NamedTables, lock_area};
use area::MainArea;
use device::Block;
use file_cells::{FileCell, FilePass};
use geometry::Geometry;
use image::Image;
use pool::PoolPass;
use rights_books::CallAccount;
use rights_permits::VolumeName;
use std::sync::{Mutex, Wait};

/// The main area and the files of a volume in their locks, a pass of each file, and the part of the pool's pass that no log has.
pub(crate) struct LockedVolume<V: VolumeName, B: Block + Drop> {
    pub(crate) area: MainArea<V, B>,
    pub(crate) files: Vec<Mutex<FileCell<V, B>>>,
    pub(crate) passes: Vec<FilePass<V>>,
    pub(crate) pool_pass: PoolPass<V::Words, V::Pool>,
}

/// The main area and the files of a lawful image come into their locks: the passes show what the image and the device's blocks
/// say. The hand has nothing before and nothing after. It takes no memory.
pub(crate) fn load_locks<V: VolumeName, B: Block + Drop, R: Wait>(
    rt: &R,
    geometry: Geometry,
    image: &Image,
    tables: NamedTables<V>,
    hand: &mut CallAccount,
    memory: VolumeMemory<B>,
    blocks: &mut Vec<B>,
    frames: LockFrames<V, B>,
) -> LockedVolume<V, B>
    requires geometry { geometry ≡ V.Numbers.geometry }
    requires lawful { IsLawful geometry (image_view image.now) }
    requires layout { V.Books.books.key ≡ layout_of V.Numbers.geometry }
    requires words { tables.words ≡ record { table = V.Words.words; segments = V.Numbers.geometry.segments } }
    requires slots { V.Pool.ordinary.slots ≡ V.Numbers.geometry.segments }
    requires pass { tables.pass ≡ first_account }
    requires hand { hand.old ≡ at_home V.Books.books.book }
    requires memory { IsMemory geometry (image_view image.now) V.Books.books.book V.Words.words memory }
    requires parts { PartsFall V.Books.rows (geometry.segments + 16) tables.parts.items }
    requires every_part { length tables.parts.items ≡ geometry.segments + 16 }
    requires run { IsBlockRun B.address_of B.content_of (block_bytes geometry.shape) 1 blocks.old.items }
    requires count { length blocks.old.items ≡ block_count geometry }
    requires nodes { AreBlocks geometry (image_view image.now) (bytes_at B.content_of blocks.old.items) }
    ensures every_file { vec_len result.files ≡ V.Numbers.geometry.files }
    ensures passes { map (λ pass. (pass.number, pass.file)) result.passes.items
        ≡ image_files geometry (image_view image.now) (bytes_at B.content_of blocks.old.items) }
    ensures hand { hand.new ≡ hand.old }
    ensures free { HasPutFree geometry (image_view image.now) result.pool_pass }
    ensures none { length blocks.new.items ≡ 0 }
    ensures capacity { vec_capacity blocks.new ≡ vec_capacity blocks.old }
{
    let LoadedVolume {
        area: loaded,
        accounts,
        files: states,
        stock,
    } = load_volume(
        &geometry,
        image,
        tables.turnstile.books(),
        &tables.words,
        hand,
        memory,
        blocks,
    );
    let LockFrames {
        area: area_frames,
        files: file_frames,
    } = frames;
    let (area, pool_pass) = lock_area(rt, geometry, image, tables, loaded, area_frames);
    let (files, passes) = lock_loaded_files(
        area.books(),
        &geometry,
        image,
        &stock,
        accounts,
        states,
        file_frames,
    );
    stock.end();
    LockedVolume {
        area,
        files,
        passes,
        pool_pass,
    }
}
