//! How checkpoint packs lie in the meta area.

/// How the two checkpoint packs lie in the meta area (Linux `filesystems/f2fs`, checkpoint area; how the bytes lie is this project's
/// own). The superblock tells it.
#[derive(Clone, Copy, Debug, PartialEq, Eq)]
pub enum Packing {
    /// Each pack in a slot of its own. The tables may lie in parts in either slot, and the summaries are written whole: formats 1 and 2.
    Slots,
    /// A head for each pack, and two copies of each page of 4,096 bytes; what has changed since the pages were written stands in the head:
    /// format 3.
    Pages,
}
