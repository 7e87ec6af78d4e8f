//! What a checkpoint records.
use geometry::{Class, Kind, Summary};

/// Where a log appends: its open segment, and the next block's place in it.
#[derive(Clone, Copy, PartialEq, Eq)]
pub struct LogHead {
    pub segment: u32,
    pub next: u32,
}

/// An entry of the node address table: the inode number of the node's file, and the address of the node's block. Both
/// are 0 where there is no node.
#[derive(Clone, Copy, PartialEq, Eq)]
pub struct NodeEntry {
    pub inode: u32,
    pub address: u32,
}

/// A segment's entry of the segment information table.
#[derive(Drop)]
pub struct SegmentInfo {
    /// How many of its blocks are valid.
    pub count: u32,
    /// The largest time of an append.
    pub mtime: u64,
    /// Whether each block is valid.
    pub bits: Vec<bool>,
}

/// A node of an index tree. An entry of 0 names nothing.
#[derive(Drop)]
pub struct Node {
    pub nid: u32,
    /// The inode number of the node's file.
    pub inode: u32,
    pub class: Class,
    /// The file's blocks; 0 but in an inode.
    pub length: u32,
    /// What the file is; an ordinary one but in an inode.
    pub kind: Kind,
    /// The addresses of data blocks, of an inode and of a direct node.
    pub addresses: Vec<u32>,
    /// The numbers of nodes, of an inode and of an indirect node.
    pub children: Vec<u32>,
}

/// What a checkpoint records: its tables, and the nodes that the node address table names.
#[derive(Drop)]
pub struct Image {
    /// At least 1, and one more at each checkpoint.
    pub version: u32,
    /// How many blocks are valid.
    pub total: u32,
    /// Where each of the six logs appends, if it has an open segment.
    pub logs: Vec<Option<LogHead>>,
    /// The node address table, from node number 1 on.
    pub nat: Vec<NodeEntry>,
    /// The segment information table.
    pub sit: Vec<SegmentInfo>,
    /// The segment summary area: who names each block, from address 1 on.
    pub ssa: Vec<Summary>,
    /// The node of each entry of the node address table.
    pub nodes: Vec<Option<Node>>,
}
