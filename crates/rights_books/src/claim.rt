//! What each holder of the books claims. Of these types only `Layout` has values when a program runs: the others are for
//! the proofs alone.
use geometry::{Kind, Mark};
use std::collections::LinkedList;

/// A taken node number, the inode of the file that it is of, and its node's block (Linux `filesystems/f2fs`, node address
/// table).
pub struct TakenNumber {
    /// The node's number.
    pub number: u32,
    /// The number of the inode at the root of the node's file.
    pub inode: u32,
    /// The address of the node's block, 0 where it has none yet.
    pub address: u32,
    /// The bytes of the node's block, none where it has no block yet.
    pub bytes: LinkedList<u8>,
}

/// What a file is, as its pass shows it.
pub struct FileContent {
    /// What the file is for.
    pub kind: Kind,
    /// Its length, in blocks.
    pub length: u64,
    /// Its blocks, each with its index.
    pub blocks: LinkedList<(u64, LinkedList<u8>)>,
}

/// What a holder has.
pub enum Claim {
    /// A segment by its number, and its marked blocks.
    Segment(u32, LinkedList<Mark>),
    /// A call, with the tickets and the node numbers that it has in hand.
    Hand(LinkedList<Mark>, LinkedList<TakenNumber>),
    /// A file by its inode's number, with the tickets and the node numbers that are lodged in it, and, while its pass is
    /// out, what the pass shows.
    File(u32, LinkedList<Mark>, LinkedList<TakenNumber>, Option<FileContent>),
    /// A shard of the node numbers, with those that are taken. Where an entry has an address, its node's ticket is lodged
    /// here.
    Shard(u32, LinkedList<TakenNumber>),
    /// The one right to change a file, and what the file is.
    Pass(u32, FileContent),
    /// All hands, with nothing in them, and what some accounts have. That is so for as long as no call has a hand.
    Census(LinkedList<Copied>),
}

/// What an account was seen to have.
pub enum Copied {
    /// A segment, and its marked blocks.
    SegmentCopy(u32, LinkedList<Mark>),
    /// A file, with the tickets and the node numbers that are lodged in it.
    FileCopy(u32, LinkedList<Mark>, LinkedList<TakenNumber>),
    /// A shard, with its taken numbers.
    ShardCopy(u32, LinkedList<TakenNumber>),
}

/// How many accounts the books of a volume have. There are 16 shards.
#[derive(Clone, Copy, PartialEq, Eq)]
pub struct Layout {
    /// The segments, numbered from 0 on.
    pub segments: u32,
    /// The blocks of a segment.
    pub blocks: u32,
    /// The files, whose inodes are numbered from 1 on.
    pub files: u32,
}
