//! Where the rows of a pack's tables lie in its body.
ghost use Rattle.std.specs.Prelude.{◌≡◌, ◌≢◌, ◌<◌, ◌≤◌, ◌+◌, ◌*◌, ◌%◌, ℕ, length, take, drop};
ghost use Rattle.geometry.specs.Shape.{segment_blocks};
ghost use Rattle.device.specs.Disk.{part};
ghost use Rattle.image.specs.Pack.{body_bytes, entry_bytes};
ghost use Rattle.image_law.specs.Parts.{found};
ghost use Rattle.nat.specs.Shard.{HasOwnNodes};
ghost use Rattle.packs_journal.specs.Places.{IsBody};
ghost use Rattle.checkpoint_image.specs.Cells.{shard_part, IsShardAt};
ghost use Rattle.checkpoint_image.specs.Kept.{info_bytes, owners_bytes, infos_at, owners_at, row_in, IsRowPut};
ghost use Rattle.checkpoint_image.specs.Touched.{AreTouched};

use crate::shard::entry_of;
use crate::touched_body::TouchedBody;
use device::Block;
use geometry::Geometry;
use nat::{SHARDS, Shard};
use pack_tables::spell_entry;

// Where the first entry of the node address table lies.
const ENTRIES_AT: usize = 56;

// The bytes of such an entry.
const ENTRY: usize = 8;

/// Puts a segment's row of the segment information table, and behind it that of the segment summary area, into their places.
pub(crate) fn put_segment(body: &mut TouchedBody, geometry: &Geometry, number: usize, row: &[u8])
    requires long { length body.old.bytes.items ≡ body_bytes geometry.now }
    requires number { number < geometry.now.segments }
    requires row { length row.now ≡ info_bytes geometry.now.shape + owners_bytes geometry.now.shape }
    ensures info { row_in (infos_at geometry.now) (info_bytes geometry.now.shape) number body.new.bytes.items ≡ take (info_bytes geometry.now.shape) row.now }
    ensures owners { row_in (owners_at geometry.now) (owners_bytes geometry.now.shape) number body.new.bytes.items ≡ drop (info_bytes geometry.now.shape) row.now }
    ensures other_infos { (k : ℕ) → k < geometry.now.segments → k ≢ number
        → row_in (infos_at geometry.now) (info_bytes geometry.now.shape) k body.new.bytes.items ≡ row_in (infos_at geometry.now) (info_bytes geometry.now.shape) k body.old.bytes.items }
    ensures other_owners { (k : ℕ) → k < geometry.now.segments → k ≢ number
        → row_in (owners_at geometry.now) (owners_bytes geometry.now.shape) k body.new.bytes.items ≡ row_in (owners_at geometry.now) (owners_bytes geometry.now.shape) k body.old.bytes.items }
    ensures before { (p n : ℕ) → p + n ≤ infos_at geometry.now → part p n body.new.bytes.items ≡ part p n body.old.bytes.items }
    ensures long { length body.new.bytes.items ≡ length body.old.bytes.items }
    ensures touched { AreTouched (body_bytes geometry.now) body.old body.new }
{
    let blocks = geometry.shape.segment_blocks() as usize;
    let info = 12 + blocks / 8;
    let infos_at = ENTRIES_AT + ENTRY * geometry.nodes as usize;
    let owners_at = infos_at + geometry.segments as usize * info;
    let (entry, owners) = row.split_at(info);
    put_row(body, infos_at, number, entry);
    put_row(body, owners_at, number, owners);
}

// Puts a row of a table that begins at a byte, and whose rows are all as long.
fn put_row(body: &mut TouchedBody, base: usize, number: usize, row: &[u8])
    requires body { IsBody (length body.old.bytes.items) }
    requires behind { 56 ≤ base }
    requires within { base + number * length row.now + length row.now ≤ length body.old.bytes.items }
    ensures put { IsRowPut base (length row.now) number row.now body.old.bytes.items body.new.bytes.items }
    ensures touched { AreTouched (length body.old.bytes.items) body.old body.new }
{
    body.put(base + number * row.len(), row);
}

/// Puts the entries of a shard's node numbers into their places.
pub(crate) fn put_entries<B: Block + Drop>(
    body: &mut TouchedBody,
    geometry: &Geometry,
    number: usize,
    shard: &Shard<B>,
)
    requires long { length body.old.bytes.items ≡ body_bytes geometry.now }
    requires number { number < 16 }
    requires shard { IsShardAt geometry.now number shard.now }
    ensures own { (k : ℕ) → k < geometry.now.nodes → (k + 1) % 16 ≡ number
        → row_in 56 8 k body.new.bytes.items ≡ entry_bytes (found (k + 1) (shard_part shard.now)) }
    ensures others { (k : ℕ) → k < geometry.now.nodes → (k + 1) % 16 ≢ number → row_in 56 8 k body.new.bytes.items ≡ row_in 56 8 k body.old.bytes.items }
    ensures behind { (p n : ℕ) → infos_at geometry.now ≤ p → part p n body.new.bytes.items ≡ part p n body.old.bytes.items }
    ensures long { length body.new.bytes.items ≡ length body.old.bytes.items }
    ensures touched { AreTouched (body_bytes geometry.now) body.old body.new }
{
    for round in 0..geometry.nodes / SHARDS + 1 {
        put_entry(body, geometry.nodes, SHARDS * round + number as u32, shard);
    }
}

// Puts the entry of a node number into its place, if there is such a number.
fn put_entry<B: Block + Drop>(body: &mut TouchedBody, nodes: u32, number: u32, shard: &Shard<B>)
    requires body { IsBody (length body.old.bytes.items) }
    requires long { 56 + 8 * nodes ≤ length body.old.bytes.items }
    requires home { number % 16 ≡ shard.now.shard }
    requires own { HasOwnNodes shard.now }
    ensures own { (k : ℕ) → k < nodes → k + 1 ≡ number → row_in 56 8 k body.new.bytes.items ≡ entry_bytes (found number (shard_part shard.now)) }
    ensures others { (k : ℕ) → k < nodes → k + 1 ≢ number → row_in 56 8 k body.new.bytes.items ≡ row_in 56 8 k body.old.bytes.items }
    ensures behind { (p n : ℕ) → 56 + 8 * nodes ≤ p → part p n body.new.bytes.items ≡ part p n body.old.bytes.items }
    ensures long { length body.new.bytes.items ≡ length body.old.bytes.items }
    ensures touched { AreTouched (length body.old.bytes.items) body.old body.new }
{
    if number == 0 || number > nodes {
        return;
    }
    let row = spell_entry(&entry_of(shard, number));
    put_row(body, ENTRIES_AT, number as usize - 1, &row);
}
