//! Room that is made when a volume is opened, so that leaving it takes no memory.
ghost use Rattle.std.specs.Prelude.{◌≡◌, ◌≤◌, [], vec_len, vec_capacity, IfOk, IfErr};
ghost use Rattle.geometry.specs.Area.{block_count};
ghost use Rattle.geometry.specs.declared.error.Error.TheVariants.{NoMemory};

use device::Block;
use geometry::{Error, Geometry};
use nat::Shard;
use rights_permits::VolumeName;
use sit::SegmentState;
use std::alloc::Global;
use std::marker::PhantomData;

/// Rows without anything in them, with room for all that lies in the locks of a volume's main area, and for all its blocks.
#[derive(Drop)]
pub struct CloseRows<V: VolumeName, B: Block + Drop> {
    pub(crate) blocks: Vec<B>,
    pub(crate) segments: Vec<SegmentState<B>>,
    pub(crate) shards: Vec<Shard<B>>,
    pub(crate) volume: PhantomData<V>,
    ghost no_blocks: { vec_len blocks ≡ 0 },
    ghost blocks_fit: { block_count V.Numbers.geometry ≤ vec_capacity blocks },
    ghost no_segments: { vec_len segments ≡ 0 },
    ghost segments_fit: { V.Numbers.geometry.segments ≤ vec_capacity segments },
    ghost no_shards: { vec_len shards ≡ 0 },
    ghost shards_fit: { 16 ≤ vec_capacity shards },
}

/// The same before the blocks of the device have moved, whose row has the room for them.
#[derive(Drop)]
pub struct SpareRows<B: Block + Drop> {
    pub segments: Vec<SegmentState<B>>,
    pub shards: Vec<Shard<B>>,
    pub ghost no_segments: { vec_len segments ≡ 0 },
    pub ghost no_shards: { vec_len shards ≡ 0 },
    pub ghost shards_fit: { 16 ≤ vec_capacity shards },
}

impl<B: Block + Drop> SpareRows<B> {
    /// The only error is NoMemory, and then nothing is kept.
    pub fn new(alloc: Global, geometry: &Geometry) -> Result<SpareRows<B>, Error>
        ensures room { IfOk result (λ rows. geometry.now.segments ≤ vec_capacity rows.segments) }
        ensures error { IfErr result (λ error. error ≡ NoMemory) }
    {
        let segments = Vec::with_capacity(alloc, geometry.segments as usize)?;
        let shards = Vec::with_capacity(alloc, 16)?;
        Ok(SpareRows { segments, shards })
    }

    /// With the row that the blocks of the device came in.
    pub fn with_blocks<V: VolumeName>(self, blocks: Vec<B>) -> CloseRows<V, B>
        requires room { V.Numbers.geometry.segments ≤ vec_capacity self.segments }
        requires none { vec_len blocks ≡ 0 }
        requires fit { block_count V.Numbers.geometry ≤ vec_capacity blocks }
    {
        let SpareRows { segments, shards } = self;
        CloseRows {
            blocks,
            segments,
            shards,
            volume: PhantomData,
        }
    }
}
