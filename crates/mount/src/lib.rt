//! How a volume comes to be on the parts of a device that holds one (Linux `filesystems/f2fs`, mount).
//!
//! A volume's tables are known by the names in their types, and a name is picked by the one that calls with it, once its table
//! is there. So a volume is mounted in three steps: `mount` reads the image and makes what has no name,
//! `Mounted::name` makes the queues whose types have the names of the books, the words and the numbers, and
//! `MountedQueues::name` puts all together under the names of the queues too. Each step may find no memory, and then it hands the
//! device back. Nothing is refused once the first block has moved.
//!
//! In the last step the device's blocks come into the segments, the shards and the files, as the lawful image shows them
//! (`loading_all`, `states`), over memory that was made before (`rooms`); nothing is left in the stock. Each file then is stored
//! as a volume stores its files, and is what the image and the blocks say (`law`); its account has lodged its tickets and
//! tokens (`held`).
#![tactic(auto)]

mod files;
mod frames;
mod goods;
mod held;
mod law;
mod loading_all;
mod locked;
mod made;
mod mounted;
mod mounted_area;
mod named;
mod rooms;
mod shards;
mod states;

pub use made::{MountTables, free_memory};
pub use mounted::{Mounted, MountedQueues, NamedMount, mount};
