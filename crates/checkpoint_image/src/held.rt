//! What holds the parts of a volume, as the guards of its locks do.
ghost use Rattle.std.specs.Prelude.{◌≡◌, ℕ, Option};
ghost use Rattle.checkpoint_image.specs.Cells.{Filed};
ghost use Rattle.sit.specs.Registered.{Registered};
ghost use Rattle.nat.specs.Shard.{ShardNodes};

use device::Block;
use nat::Shard;
use sit::SegmentState;

/// What holds a segment.
pub trait HoldsSegment<B: Block + Drop> {
    ghost shown: { Self → Registered };

    /// The segment.
    fn segment(&self) -> &SegmentState<B>
        ensures { result.now ≡ shown self.now };
}

impl<B: Block + Drop> HoldsSegment<B> for SegmentState<B> {
    ghost shown = { λ s. s };

    fn segment(&self) -> &SegmentState<B> {
        self
    }
}

/// What holds a shard of the node numbers.
pub trait HoldsShard<B: Block + Drop> {
    ghost shown: { Self → ShardNodes };

    /// The shard.
    fn shard(&self) -> &Shard<B>
        ensures { result.now ≡ shown self.now };
}

impl<B: Block + Drop> HoldsShard<B> for Shard<B> {
    ghost shown = { λ s. s };

    fn shard(&self) -> &Shard<B> {
        self
    }
}

/// What holds a log.
pub trait HoldsLog {
    ghost shown: { Self → Option ℕ };

    /// The number of its open segment, where it has one.
    fn open_segment(&self) -> Option<u32>
        ensures { result ≡ shown self.now };
}

/// What holds a file.
pub trait HoldsFile {
    ghost shown: { Self → Filed };
}
