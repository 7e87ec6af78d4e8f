//! All locks of a main area are taken.
ghost use Rattle.std.specs.Prelude.{◌≡◌, ◌≤◌, length, vec_len, vec_capacity, IfErr};
ghost use Rattle.geometry.specs.declared.error.Error.TheVariants.{NoMemory};
ghost use Rattle.checkpoint_image.specs.Kept.{AreSegmentParts, AreShardParts};
ghost use Rattle.checkpoint_sync.specs.LocksHeld.{AreHeldSegments, AreHeldShards, AreHeldLogs};

use crate::locked_area::HeldArea;
use crate::log::HeldLog;
use crate::segment::HeldSegment;
use crate::shard::HeldShard;
use area::MainArea;
use device::Block;
use geometry::Error;
use rights_permits::VolumeName;
use std::alloc::Global;
use std::sync::Wait;

/// Takes all locks of a main area: those of the shards, then those of the logs, then those of the segments, each in
/// ascending order. The memory is taken first: the only error is NoMemory, and then no lock was taken.
pub fn lock_area<'a, V: VolumeName, B: Block + Drop + 'a, R: Wait>(
    rt: &R,
    alloc: Global,
    area: &'a MainArea<V, B>,
) -> Result<HeldArea<'a, V, B>, Error>
    ensures error { IfErr result (λ error. error ≡ NoMemory) }
{
    let segments = Vec::with_capacity(alloc, area.geometry().segments as usize)?;
    let shards = Vec::with_capacity(alloc, 16)?;
    let logs = Vec::with_capacity(alloc, 6)?;
    let shards = lock_shards(rt, area, shards);
    let logs = lock_logs(rt, area, logs);
    let segments = lock_segments(rt, area, segments);
    Ok(HeldArea {
        segments,
        shards,
        logs,
    })
}

fn lock_shards<'a, V: VolumeName, B: Block + Drop + 'a, R: Wait>(
    rt: &R,
    area: &'a MainArea<V, B>,
    mut shards: Vec<HeldShard<'a, V, B>>,
) -> Vec<HeldShard<'a, V, B>>
    requires none { vec_len shards ≡ 0 }
    requires room { 16 ≤ vec_capacity shards }
    ensures every { length result.items ≡ 16 }
    ensures shards { AreHeldShards V.Books.books.book V.Numbers.geometry.nodes result.items }
    ensures parts { AreShardParts V.Books.rows V.Numbers.geometry.segments result.items }
{
    for number in 0..16u32 {
        shards.push_reserved(HeldShard::lock(rt, area, number));
    }
    shards
}

fn lock_logs<'a, V: VolumeName, B: Block + Drop + 'a, R: Wait>(
    rt: &R,
    area: &'a MainArea<V, B>,
    mut logs: Vec<HeldLog<'a, V>>,
) -> Vec<HeldLog<'a, V>>
    requires none { vec_len logs ≡ 0 }
    requires room { 6 ≤ vec_capacity logs }
    ensures every { length result.items ≡ 6 }
    ensures logs { AreHeldLogs V.Words.words V.Numbers.geometry.segments result.items }
{
    for number in 0..6u32 {
        logs.push_reserved(HeldLog::lock(rt, area, number));
    }
    logs
}

fn lock_segments<'a, V: VolumeName, B: Block + Drop + 'a, R: Wait>(
    rt: &R,
    area: &'a MainArea<V, B>,
    mut segments: Vec<HeldSegment<'a, V, B>>,
) -> Vec<HeldSegment<'a, V, B>>
    requires none { vec_len segments ≡ 0 }
    requires room { V.Numbers.geometry.segments ≤ vec_capacity segments }
    ensures every { length result.items ≡ V.Numbers.geometry.segments }
    ensures segments { AreHeldSegments V.Numbers.geometry V.Books.books.book V.Words.words result.items }
    ensures parts { AreSegmentParts V.Books.rows result.items }
{
    for number in 0..area.geometry().segments {
        segments.push_reserved(HeldSegment::lock(rt, area, number));
    }
    segments
}
