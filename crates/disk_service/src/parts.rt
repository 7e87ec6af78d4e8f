//! The parts of an access, each of them within one block.
ghost use Rattle.std.specs.Prelude.{◌≡◌, ◌≤◌, ◌<◌, ◌+◌, ◌*◌, ◌^◌};

/// Bytes of an access to a disk that lie in one block.
#[derive(Clone, Copy, PartialEq, Eq)]
pub struct BlockPart {
    /// The block of the disk.
    pub block: u64,
    /// The byte of the block with which it begins.
    pub from: usize,
    /// How many bytes it has.
    pub size: usize,
    /// The byte of the access with which it begins.
    pub at: usize,
}

/// The part of an access that begins at its byte `at`: all that is left of the access, or up to the end of the block. Whoever goes on where
/// a part ends, from 0 on, has the whole access, each byte once.
pub fn part_at(offset: u64, length: usize, at: usize, block_bytes: u32) -> BlockPart
    requires sized { 0 < block_bytes }
    requires fits { offset + length < 2 ^ 64 }
    requires left { at < length }
    ensures begins { result.at ≡ at }
    ensures place { result.block * block_bytes + result.from ≡ offset + at }
    ensures some { 0 < result.size }
    ensures in_block { result.from + result.size ≤ block_bytes }
    ensures in_access { at + result.size ≤ length }
    ensures full { at + result.size < length → result.from + result.size ≡ block_bytes }
{
    let place = offset + at as u64;
    let size = u64::from(block_bytes);
    let from = (place % size) as usize;
    let room = block_bytes as usize - from;
    BlockPart {
        block: place / size,
        from,
        size: room.min(length - at),
        at,
    }
}
