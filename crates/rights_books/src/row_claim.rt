//! What each holder of the rows claims. These types have no values when a program runs: they are for the proofs alone.
use geometry::Owner;
use std::collections::LinkedList;

/// What a pack spells of a taken node number (Linux `filesystems/f2fs`, node address table).
pub struct NodeRow {
    /// The node's number.
    pub number: u32,
    /// The number of the inode at the root of the node's file.
    pub inode: u32,
    /// The address of the node's block, 0 where it has none yet.
    pub address: u32,
}

/// What a pack spells of a part: of a segment its time and who names each of its blocks (Linux `filesystems/f2fs`, segment
/// information table and segment summary area), of a shard its taken node numbers. What a part does not have is 0 or empty.
pub struct Row {
    /// The largest time of an append.
    pub mtime: u64,
    /// Who names each block.
    pub owners: LinkedList<Option<Owner>>,
    /// The taken node numbers.
    pub nodes: LinkedList<NodeRow>,
}

/// What a holder has.
pub enum RowClaim {
    /// A part by its number, and its row, in the part's lock.
    Part(u32, Row),
    /// The same, in the packs' lock.
    Kept(u32, Row),
}
