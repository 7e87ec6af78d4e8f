//! The two shapes of a volume.
ghost use Rattle.std.specs.Prelude.{◌≡◌, ℕ};
ghost use Rattle.geometry.specs.Shape.{block_bytes, segment_blocks, inode_head};
ghost use Rattle.geometry.specs.Path.{node_entries, inode_entries, largest_length};

/// How large blocks and segments are, and the head of an inode.
///
/// The kernel's is that of F2FS (Linux `filesystems/f2fs`): blocks of 4096 bytes, 512 of them a segment. The tiny one
/// has the same structure at a size that a test can look through.
#[derive(Clone, Copy, Debug, PartialEq, Eq)]
pub enum Shape {
    /// Blocks of 64 bytes, 8 of them a segment.
    Tiny,
    /// Blocks of 4096 bytes, 512 of them a segment.
    Kernel,
}

impl Shape {
    pub const TINY: Shape = Shape::Tiny;

    pub const KERNEL: Shape = Shape::Kernel;

    /// The bytes of a block.
    pub fn block_bytes(self) -> u32
        ensures { result ≡ block_bytes self }
    {
        match self {
            Shape::Tiny => 64,
            Shape::Kernel => 4096,
        }
    }

    /// The blocks of a segment.
    pub fn segment_blocks(self) -> u32
        ensures { result ≡ segment_blocks self }
    {
        match self {
            Shape::Tiny => 8,
            Shape::Kernel => 512,
        }
    }

    /// The bytes of an inode in front of its addresses.
    pub fn inode_head(self) -> u32
        ensures { result ≡ inode_head self }
    {
        match self {
            Shape::Tiny => 8,
            Shape::Kernel => 360,
        }
    }

    /// The entries of a direct or an indirect node.
    pub fn node_entries(self) -> u32
        ensures { result ≡ node_entries self }
    {
        match self {
            Shape::Tiny => 10,
            Shape::Kernel => 1018,
        }
    }

    /// The data addresses of an inode.
    pub fn inode_entries(self) -> u32
        ensures { result ≡ inode_entries self }
    {
        match self {
            Shape::Tiny => 3,
            Shape::Kernel => 923,
        }
    }

    /// The most blocks that a file may have.
    pub fn largest_length(self) -> u32
        ensures { result ≡ largest_length self }
    {
        match self {
            Shape::Tiny => 1_223,
            Shape::Kernel => 1_057_053_439,
        }
    }
}
