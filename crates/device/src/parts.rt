//! A device taken apart.

/// A device taken apart: its meta area, and its blocks in address order (Linux `filesystems/f2fs`: the checkpoint areas
/// in front, the main area behind).
///
/// Parts have the size of a geometry where the meta area has as many bytes as two packs and the superblock take, and
/// the block at place k has address k + 1 and a block's bytes.
#[derive(Drop)]
pub struct Parts<M, B> {
    pub meta: M,
    pub blocks: Vec<B>,
}
