//! What a segment lends as it lies in memory.
ghost use Rattle.std.specs.Prelude.{◌≡◌, map};
ghost use Rattle.geometry.specs.Bits.{bits_of};
ghost use Rattle.geometry.specs.Shape.{segment_blocks};
ghost use Rattle.geometry.specs.Summary.{owner_in};
ghost use Rattle.sit.specs.Summaries.{is_set, summary_in};

use crate::segment::SegmentState;
use device::Block;
use geometry::Summary;

impl<B: Block + Drop> SegmentState<B> {
    /// What stands for each block in the segment summary area, in their order: both numbers 0 where nobody names it.
    pub fn rows(&self) -> &[Summary]
        ensures rows { result.now ≡ map summary_in self.now.segment.summaries }
        ensures owners { map owner_in result.now ≡ self.now.segment.summaries }
    {
        self.body.rows()
    }

    /// Words that have a bit for each block in their order, 64 a word, the lowest first: it is set where somebody names the block.
    pub fn valid_words(&self) -> &[u64]
        ensures { bits_of result.now (segment_blocks self.now.segment.shape) ≡ map is_set self.now.segment.summaries }
    {
        self.body.law();
        self.body.valid_words()
    }
}
