//! What was loaded of the main area comes into its locks.
ghost use Rattle.std.specs.Prelude.{◌≡◌, ◌+◌, ◌<◌, ◌≤◌, length, vec_len, vec_capacity};
ghost use Rattle.image.specs.Rules.{IsLawful};
ghost use Rattle.image.specs.View.{image_view};
ghost use Rattle.rights_permits.specs.Names.{layout_of};
ghost use Rattle.mount_blocks.specs.Goods.{AreShards};
ghost use Rattle.area.specs.Opening.{PartsFall};
ghost use Rattle.pool.specs.Pools.{first_account};
ghost use Rattle.mount_blocks.specs.States.{AreSegmentsFrom};
ghost use Rattle.mount.specs.Logs.{EachStands};
ghost use Rattle.mount.specs.Pooled.{HasPutFree, HasSameLists};

use crate::frames::AreaFrames;
use crate::loading_all::LoadedArea;
use area::{LogCell, MainArea, ShardCell, lock_segments, put_slips, take_row};
use device::Block;
use geometry::Geometry;
use image::Image;
use mount_blocks::LoadedSegments;
use nat::Shard;
use pool::{Pool, PoolPass};
use rights_books::PartAccount;
use rights_permits::{Turnstile, VolumeName};
use std::sync::{Mutex, Wait};
use words::{StoredOpenSlip, Words};

/// The tables of a volume that have its names, the whole right to what is in the pool, and the account of each part's row, the last
/// one first.
pub(crate) struct NamedTables<V: VolumeName> {
    pub(crate) turnstile: Turnstile<V::Books, V::Turns>,
    pub(crate) words: Words,
    pub(crate) pool: Pool<V::Words, V::Pool>,
    pub(crate) pass: PoolPass<V::Words, V::Pool>,
    pub(crate) parts: Vec<PartAccount>,
}

/// The main area of the segments and the shards that were loaded from a lawful image: each log stands where the image says, and
/// the slips of the free segments are in the pool, put in ascending order. The pass that comes with it has the part that no log
/// has. It takes no memory.
pub(crate) fn lock_area<V: VolumeName, B: Block + Drop, R: Wait>(
    rt: &R,
    geometry: Geometry,
    image: &Image,
    tables: NamedTables<V>,
    loaded: LoadedArea<B>,
    frames: AreaFrames<V, B>,
) -> (MainArea<V, B>, PoolPass<V::Words, V::Pool>)
    requires geometry { geometry ≡ V.Numbers.geometry }
    requires lawful { IsLawful geometry (image_view image.now) }
    requires layout { V.Books.books.key ≡ layout_of V.Numbers.geometry }
    requires words { tables.words ≡ record { table = V.Words.words; segments = V.Numbers.geometry.segments } }
    requires pool { V.Pool.ordinary.slots ≡ V.Numbers.geometry.segments }
    requires pass { tables.pass ≡ first_account }
    requires segments { AreSegmentsFrom geometry (image_view image.now) V.Books.books.book V.Words.words 0 loaded.segments.states.items loaded.segments.free.items loaded.segments.logs.items }
    requires shards { AreShards V.Books.books.book geometry.nodes loaded.shards.items }
    requires parts { PartsFall V.Books.rows (geometry.segments + 16) tables.parts.items }
    requires every_part { length tables.parts.items ≡ geometry.segments + 16 }
    ensures parts { result.1.ordinary.parts ≡ 1 }
    ensures free { HasPutFree geometry (image_view image.now) result.1 }
{
    let _image = image;
    let NamedTables {
        turnstile,
        words,
        pool,
        mut pass,
        mut parts,
    } = tables;
    let LoadedArea { segments, shards } = loaded;
    let LoadedSegments { states, free, logs } = segments;
    let AreaFrames {
        segments: segment_cells,
        logs: log_cells,
        shards: shard_cells,
    } = frames;
    put_slips(rt, &pool, &mut pass, free);
    let segments = lock_segments(states, &mut parts, segment_cells);
    let logs = lock_loaded_logs(&pool, &mut pass, logs, log_cells);
    let shards = lock_loaded_shards(shards, parts, shard_cells);
    let area = MainArea::new(geometry, turnstile, words, pool, segments, shards, logs);
    (area, pass)
}

// A lock for each log, in rising order, with the slip of its open segment, where it has one. Each has a part of the pass, which
// keeps the rest.
fn lock_loaded_logs<V: VolumeName>(
    pool: &Pool<V::Words, V::Pool>,
    pass: &mut PoolPass<V::Words, V::Pool>,
    slips: Vec<Option<StoredOpenSlip>>,
    mut cells: Vec<Mutex<LogCell<V>>>,
) -> Vec<Mutex<LogCell<V>>>
    requires slips { EachStands V.Words.words V.Numbers.geometry.segments slips.items }
    requires six { vec_len slips ≡ 6 }
    requires parts { 6 < pass.old.ordinary.parts }
    requires none { vec_len cells ≡ 0 }
    requires room { 6 ≤ vec_capacity cells }
    ensures six { vec_len result ≡ 6 }
    ensures parts { pass.new.ordinary.parts + 6 ≡ pass.old.ordinary.parts }
    ensures lists { HasSameLists pass.old pass.new }
{
    'slips: for slip in slips {
        let number = cells.len() as u32;
        let part = pool.share(pass);
        cells.push_reserved(Mutex::new(LogCell::new(number, slip, part)));
    }
    cells
}

// A lock for each shard, in rising order, with the account of its row. The accounts come in falling order.
fn lock_loaded_shards<V: VolumeName, B: Block + Drop>(
    shards: Vec<Shard<B>>,
    mut rows: Vec<PartAccount>,
    mut cells: Vec<Mutex<ShardCell<V, B>>>,
) -> Vec<Mutex<ShardCell<V, B>>>
    requires shards { AreShards V.Books.books.book V.Numbers.geometry.nodes shards.items }
    requires rows { PartsFall V.Books.rows (V.Numbers.geometry.segments + 16) rows.items }
    requires every_row { vec_len rows ≡ 16 }
    requires none { vec_len cells ≡ 0 }
    requires room { 16 ≤ vec_capacity cells }
    ensures { vec_len result ≡ 16 }
{
    'shards: for shard in shards {
        let number = cells.len() as u32;
        let row = take_row(&mut rows);
        cells.push_reserved(Mutex::new(ShardCell::new(number, shard, row)));
    }
    cells
}
