//! A segment's rows of an image.
ghost use Rattle.std.specs.Prelude.{◌≡◌, ◌++◌, ◌≤◌, OnOk};
ghost use Rattle.std.specs.List.{flat_map};
ghost use Rattle.geometry.specs.Shape.{segment_blocks};
ghost use Rattle.image.specs.Pack.{segment_bytes, summary_bytes};
ghost use Rattle.image_law.specs.Parts.{info, summaries_in};
ghost use Rattle.sit.specs.Noted.{segment_row};
ghost use Rattle.checkpoint_image.specs.Cells.{segment_part};
ghost use Rattle.checkpoint_image.specs.Kept.{IsSmallRow};

use device::Block;
use geometry::Shape;
use pack_tables::{spell_info, spell_summaries};
use sit::SegmentState;
use std::alloc::AllocError;

/// Spells what a pack has of it, in place of what was there: its entry of the segment information table, in the words that its
/// bits lie in, and then its part of the segment summary area. The only error is that memory is out.
pub(crate) fn spell_row<B: Block + Drop>(
    row: &mut Vec<u8>,
    shape: Shape,
    segment: &SegmentState<B>,
) -> Result<(), AllocError>
    requires shape { segment_blocks segment.now.segment.shape ≡ segment_blocks shape }
    ensures row { OnOk result (row.new.items ≡ segment_bytes shape (info (segment_part segment.now.segment)) ++ flat_map summary_bytes (summaries_in (segment_part segment.now.segment))) }
    ensures small { OnOk result (IsSmallRow (segment_row segment.now.segment)) }
{
    row.clear();
    let entry = segment.row();
    spell_info(row, shape, entry.valid, entry.mtime, segment.valid_words())?;
    spell_summaries(row, segment.rows())
}

/// How many of its blocks are valid.
pub(crate) fn valid_of<B: Block + Drop>(segment: &SegmentState<B>, blocks: u32) -> u32
    requires { blocks ≡ segment_blocks segment.now.segment.shape }
    ensures count { result ≡ (info (segment_part segment.now.segment)).count }
    ensures most { result ≤ blocks }
{
    segment.law();
    segment.count()
}
