//! What lay under the locks of a main area that no thread shares any more.
ghost use Rattle.std.specs.Prelude.{◌≡◌, ◌≤◌, vec_len, vec_capacity};
ghost use Rattle.nat.specs.Table.{IsShardAt};
ghost use Rattle.area.specs.Cells.{IsSegmentOf};
ghost use Rattle.area_emptying.specs.Rows.{AreSegments, AreShards};

use area::{SegmentCell, ShardCell};
use device::Block;
use nat::Shard;
use rights_permits::VolumeName;
use sit::SegmentState;
use std::sync::{Mutex, Wait};

/// The segments in the order of their numbers. There is room for them.
pub fn own_segments<V: VolumeName, B: Block + Drop, R: Wait>(
    rt: &R,
    cells: Vec<Mutex<SegmentCell<V, B>>>,
    mut segments: Vec<SegmentState<B>>,
) -> Vec<SegmentState<B>>
    requires every { vec_len cells ≡ V.Numbers.geometry.segments }
    requires none { vec_len segments ≡ 0 }
    requires room { vec_len cells ≤ vec_capacity segments }
    ensures segments { AreSegments V.Numbers.geometry V.Books.books.book V.Words.words result.items }
    ensures count { vec_len result ≡ vec_len cells }
{
    for cell in cells {
        let number = segments.len() as u32;
        segments.push_reserved(own_segment(rt, cell, number));
    }
    segments
}

fn own_segment<V: VolumeName, B: Block + Drop, R: Wait>(
    rt: &R,
    cell: Mutex<SegmentCell<V, B>>,
    number: u32,
) -> SegmentState<B>
    ensures { IsSegmentOf V.Numbers.geometry V.Books.books.book V.Words.words number result }
{
    // Nothing ties a lock's place to what is in it, so the number is compared; it is always the one.
    let cell = cell.into_inner();
    if cell.number == number {
        return cell.into_state();
    }
    for _ in rt.forever() {}
    unreachable!()
}

/// The shards in the order of their numbers. There is room for them.
pub fn own_shards<V: VolumeName, B: Block + Drop, R: Wait>(
    rt: &R,
    cells: Vec<Mutex<ShardCell<V, B>>>,
    mut shards: Vec<Shard<B>>,
) -> Vec<Shard<B>>
    requires every { vec_len cells ≡ 16 }
    requires none { vec_len shards ≡ 0 }
    requires room { vec_len cells ≤ vec_capacity shards }
    ensures shards { AreShards V.Books.books.book V.Numbers.geometry.nodes result.items }
    ensures count { vec_len result ≡ vec_len cells }
{
    for cell in cells {
        let number = shards.len() as u32;
        shards.push_reserved(own_shard(rt, cell, number));
    }
    shards
}

fn own_shard<V: VolumeName, B: Block + Drop, R: Wait>(
    rt: &R,
    cell: Mutex<ShardCell<V, B>>,
    number: u32,
) -> Shard<B>
    ensures { IsShardAt V.Books.books.book V.Numbers.geometry.nodes number result }
{
    // As for a segment.
    let cell = cell.into_inner();
    if cell.number == number {
        return cell.into_shard();
    }
    for _ in rt.forever() {}
    unreachable!()
}
