//! Where a file's block stands in its index tree.

/// Where a file's block stands, from the inode down. The last number is the slot in the last node, and each number
/// before it an entry of the node before (Linux `filesystems/f2fs`, index structure).
#[derive(Clone, Copy, PartialEq, Eq)]
pub enum Path {
    /// A slot of the inode.
    Inode(u32),
    /// The pointer 0 or 1 of the inode, and a slot of the direct node there.
    Direct(u32, u32),
    /// The pointer 2 or 3 of the inode, an entry of the indirect node there, and a slot of a direct node.
    Indirect(u32, u32, u32),
    /// An entry of the node at pointer 4, an entry of an indirect node, and a slot of a direct node.
    Double(u32, u32, u32),
}
