//! Which segments are free.
ghost use Rattle.std.specs.Prelude.{◌≡◌, ◌==◌, ◌&&◌, not, length, count_by};
ghost use Rattle.std.specs.List.{list_any};
ghost use Rattle.geometry.specs.Shape.{segment_blocks};
ghost use Rattle.image.specs.Files.{below};
ghost use Rattle.image.specs.Free.{is_free, stands_in};
ghost use Rattle.image.specs.Image.{Image};
ghost use Rattle.image_law.specs.Parts.{info};
ghost use Rattle.checkpoint_image.specs.Cells.{segment_part};
ghost use Rattle.checkpoint_image.specs.Held.{HaveBlocks, infos_in};

use crate::held::HoldsSegment;
use crate::segment::valid_of;
use device::Block;
use image::LogHead;
use sit::SegmentState;

/// How many segments a mount finds free of an image of what is held.
pub(crate) fn free_of<B: Block + Drop, S: HoldsSegment<B>>(
    count: u32,
    blocks: u32,
    segments: &[S],
    logs: &[Option<LogHead>],
) -> u32
    requires every { length segments.now ≡ count }
    requires blocks { HaveBlocks S.shown blocks segments.now }
    ensures { (image : Image) → image.segments ≡ infos_in S.shown segments.now → image.logs ≡ logs.now → result ≡ count_by (is_free image) (below count) }
{
    let mut free = 0;
    for number in 0..count {
        let segment = segments[number as usize].segment();
        if is_unused(segment, blocks, logs, number) {
            free += 1;
        }
    }
    free
}

// Whether a segment has no valid block, and no log appends to it.
fn is_unused<B: Block + Drop>(
    segment: &SegmentState<B>,
    blocks: u32,
    logs: &[Option<LogHead>],
    number: u32,
) -> bool
    requires { blocks ≡ segment_blocks segment.now.segment.shape }
    ensures { result ≡ (((info (segment_part segment.now.segment)).count == 0) && not (list_any (stands_in number) logs.now)) }
{
    valid_of(segment, blocks) == 0 && !is_named(logs, number)
}

// Whether a log appends to a segment.
fn is_named(logs: &[Option<LogHead>], segment: u32) -> bool
    ensures { result ≡ list_any (stands_in segment) logs.now }
{
    logs.iter().any(|log| match log {
        Some(place) => place.segment == segment,
        None => false,
    })
}
