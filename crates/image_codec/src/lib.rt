//! Node blocks: the one block of bytes that spells a node, and the node that a block spells.
//!
//! A node of a file's index tree fills a block: what an inode says of its file, then addresses and node numbers, and at
//! the end which node it is (Linux `filesystems/f2fs`, node structure; how the bytes lie is this project's own).
//! The nodes of an image, read from the blocks of a device on which they stand.
#![tactic(auto)]

mod decode;
mod encode;
mod kind;
mod reading_nodes;

pub use decode::decode_node;
pub use encode::{LentNode, encode_lent, encode_node};
pub use reading_nodes::read_nodes;
