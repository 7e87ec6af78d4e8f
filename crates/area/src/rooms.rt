//! The memory of the segments of a volume, and the slips of all of them.
ghost use Rattle.std.specs.Prelude.{◌≡◌, ◌≤◌, [], vec_len, vec_capacity, IfOk, IfErr};
ghost use Rattle.geometry.specs.declared.error.Error.TheVariants.{NoMemory};
ghost use Rattle.words.specs.Tokens.{fresh_slips};
ghost use Rattle.area.specs.Rooms.{AreRooms, SlipsFallFrom};

use device::Block;
use geometry::{Error, Geometry};
use sit::EmptySegment;
use std::alloc::Global;
use words::{FreeSlip, StoredSlip, Words};

/// The memory of each segment. The only error is NoMemory.
pub fn new_rooms<B: Block + Drop>(
    alloc: Global,
    geometry: &Geometry,
) -> Result<Vec<EmptySegment<B>>, Error>
    ensures ok { IfOk result (λ rooms. AreRooms geometry.now.shape rooms.items) }
    ensures count { IfOk result (λ rooms. vec_len rooms ≡ geometry.now.segments) }
    ensures err { IfErr result (λ error. error ≡ NoMemory) }
{
    let count = geometry.segments;
    let mut rooms = Vec::with_capacity(alloc, count as usize)?;
    for number in 0..count {
        rooms.push_reserved(EmptySegment::new(alloc, geometry, number)?);
    }
    Ok(rooms)
}

/// The slips of all segments as they are stored, the first one last. It takes no memory.
pub fn store_slips(
    words: &Words,
    mut slips: Vec<FreeSlip>,
    mut free: Vec<StoredSlip>,
) -> Vec<StoredSlip>
    requires slips { slips.items ≡ fresh_slips words.now.table 0 (vec_len slips) }
    requires none { free.items ≡ [] }
    requires room { vec_len slips ≤ vec_capacity free }
    ensures slips { SlipsFallFrom words.now.table (vec_len slips) result.items }
    ensures all { vec_len result ≡ vec_len slips }
{
    'slips: while let Some(slip) = slips.pop() {
        free.push_reserved(slip.store());
    }
    slips.destroy_empty();
    free
}
