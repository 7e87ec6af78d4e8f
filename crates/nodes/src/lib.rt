//! A file's index tree in memory: its inode, and below it the nodes and the tickets of its blocks.
//! The tree below an inode, of any depth, is written and proved once for all depths: what stands at each index, and which
//! nodes a call changes and marks. The nodes on the way to an index are made beside the tree, and come into it once nothing
//! can be refused.
#![tactic(auto)]

mod branch;
mod change;
mod changing;
mod entries;
mod file;
mod look;
mod migrate;
mod owner;
mod path;
mod place;
mod planting;
mod reading;
mod slots;
mod spare;
mod spare_entries;
mod spare_path;
mod subtree;

pub use branch::Branch;
pub use changing::Changing;
pub use entries::{Entries, Pruned};
pub use file::FileState;
pub use planting::{Planting, SpareNodes};
pub use reading::Reading;
pub use slots::Slots;
pub use spare::Spare;
pub use spare_entries::{is_ready_in, plant_in, prepare_in};
pub use spare_path::SparePath;
pub use subtree::Subtree;
