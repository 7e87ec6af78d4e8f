//! What a block holds.

/// What a block holds: a file's bytes, or a node of its index tree (Linux `filesystems/f2fs`, index structure).
#[derive(Clone, Copy, PartialEq, Eq)]
pub enum Class {
    /// Bytes of a file.
    Data,
    /// The root of a file's index tree.
    Inode,
    /// A node whose entries are data addresses.
    Direct,
    /// A node whose entries are node numbers.
    Indirect,
}
