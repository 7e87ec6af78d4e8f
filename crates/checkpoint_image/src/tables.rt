//! The tables of an image.
ghost use Rattle.std.specs.Prelude.{◌≡◌, ◌<◌, ◌≤◌, length, IfOk, IfSome};
ghost use Rattle.checkpoint_image.specs.Cells.{place_in};
ghost use Rattle.checkpoint_image.specs.Held.{segments_in, total_in, HaveBlocks, places_in, AreWithin};

use crate::held::{HoldsLog, HoldsSegment};
use crate::segment::valid_of;
use device::Block;
use image::LogHead;
use std::alloc::{AllocError, Global};

/// How many blocks are valid.
pub(crate) fn total_of<B: Block + Drop, S: HoldsSegment<B>>(blocks: u32, segments: &[S]) -> u32
    requires blocks { HaveBlocks S.shown blocks segments.now }
    requires few { (blocks ≤ 512) × (length segments.now ≤ 4096) }
    ensures { result ≡ total_in S.shown segments.now }
{
    let mut total = 0;
    for held in segments {
        total += valid_of(held.segment(), blocks);
    }
    total
}

/// Where each log appends.
pub(crate) fn places_of<B: Block + Drop, S: HoldsSegment<B>, L: HoldsLog>(
    alloc: Global,
    segments: &[S],
    logs: &[L],
) -> Result<Vec<Option<LogHead>>, AllocError>
    requires { AreWithin L.shown (length segments.now) logs.now }
    ensures { IfOk result (λ places. places.items ≡ places_in L.shown (segments_in S.shown segments.now) logs.now) }
{
    let mut places = Vec::with_capacity(alloc, logs.len())?;
    for held in logs {
        places.push(place_of(segments, held.open_segment()))?;
    }
    Ok(places)
}

// The place of the next block, in the segment that is open.
fn place_of<B: Block + Drop, S: HoldsSegment<B>>(
    segments: &[S],
    number: Option<u32>,
) -> Option<LogHead>
    requires { IfSome number (λ n. n < length segments.now) }
    ensures { result ≡ place_in (segments_in S.shown segments.now) number }
{
    match number {
        Some(segment) => Some(LogHead {
            segment,
            next: segments[segment as usize].segment().next(),
        }),
        None => None,
    }
}
