//! A device is opened: its superblock, its size, the packs of its meta area and the nodes in its blocks are read, and the image
//! that they hold is checked (Linux `filesystems/f2fs`, superblock, checkpoint area and main area).
#![tactic(auto)]

mod front;
mod held;
mod open;

pub use open::{OpenFault, OpenedDevice, open_device};
