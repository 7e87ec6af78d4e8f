//! The node address table over the books (Linux `filesystems/f2fs`, node address table): which node numbers are taken, for
//! which inode, and the block of each node, with its ticket. A taken number has one entry and one token, whoever has it.
//! A table has 16 shards, each with the numbers that leave its own by 16.
#![tactic(auto)]

mod noted;
mod shard;
mod slot;
mod table;

pub use shard::{SHARDS, Shard};
pub use table::NodeTable;
