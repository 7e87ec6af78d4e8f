//! Walks over a file's nodes, and over the tree below an inode, of any depth. Over marked nodes: each is lent to a writer, the
//! inode first, parents before children. Over data: the least index at or past one at which a block stands (Linux `lseek`,
//! SEEK_DATA). And a node is found by its number, and a block by the node and the entry that name it: what a cleaner knows of
//! a block is its summary (Linux `filesystems/f2fs`, segment summary area).
#![tactic(auto)]

mod data_walk;
mod entries;
mod file;
mod index;
mod marked_entries;
mod seek;
mod seek_entries;
mod subtree_walk;
mod visit;
mod visitor;
mod walk;
mod writer;

pub use data_walk::{LentBlock, SeekData};
pub use entries::{lend_next_in, next_in};
pub use file::{lend_next, next_data};
pub use index::index_of;
pub use marked_entries::{flush_entries, spell_entries};
pub use seek::Seek;
pub use seek_entries::{index_in, is_named_at, visit_in};
pub use subtree_walk::Walk;
pub use visit::visit_node;
pub use visitor::NodeVisitor;
pub use walk::flush_next;
pub use writer::{NodeBlock, NodeWriter};
