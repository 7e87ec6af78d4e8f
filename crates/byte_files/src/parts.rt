//! Parts of an access, each of which lies in one block.
ghost use Rattle.std.specs.Prelude.{◌≡◌, ◌<◌, ◌≤◌, ◌+◌, ◌-◌, ◌*◌, ◌^◌};

/// A part that lies in one block.
#[derive(Clone, Copy, PartialEq, Eq)]
pub(crate) struct Part {
    /// The index of its block.
    pub index: u64,
    /// Where it begins in the block.
    pub from: usize,
    /// How many bytes it has.
    pub size: usize,
}

/// The part in front of so many bytes at a place, where a block has `block_bytes`.
pub(crate) fn part_at(place: u64, count: usize, block_bytes: usize) -> Part
    requires some { 0 < count }
    requires bytes { 0 < block_bytes }
    ensures place { result.index * block_bytes + result.from ≡ place }
    ensures some { 0 < result.size }
    ensures within { result.from + result.size ≤ block_bytes }
    ensures least { result.size ≤ count }
{
    let index = place / block_bytes as u64;
    let from = (place % block_bytes as u64) as usize;
    let room = block_bytes - from;
    Part {
        index,
        from,
        size: room.min(count),
    }
}

/// Where so many bytes end.
#[derive(Clone, Copy, PartialEq, Eq)]
pub(crate) struct End {
    /// How many blocks they lie in.
    pub blocks: u64,
    /// How many of them lie in the last block, or 0 where it is full.
    pub from: u64,
}

/// Where so many bytes end, if they begin at the front of a block of `block_bytes`.
pub(crate) fn end_of(count: u64, block_bytes: u64) -> End
    requires { 0 < block_bytes }
    ensures full { result.from ≡ 0 → result.blocks * block_bytes ≡ count }
    ensures part { 0 < result.from → (0 < result.blocks) × ((result.blocks - 1) * block_bytes + result.from ≡ count) }
    ensures within { result.from < block_bytes }
{
    let full = count / block_bytes;
    let from = count % block_bytes;
    if from == 0 {
        End { blocks: full, from }
    } else {
        End {
            blocks: full + 1,
            from,
        }
    }
}
