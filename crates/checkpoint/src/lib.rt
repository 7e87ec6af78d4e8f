//! A checkpoint: the image of a volume is taken, and written as the pack that counts (Rosenblum and Ousterhout 1991,
//! checkpoint regions; Lee and others, FAST 2015).
//! The packs of a volume in their lock, with the right to advance its version (Linux `filesystems/f2fs`, checkpoint area).
#![tactic(auto)]

mod cell;
mod image_packs;
mod opening;
mod reading;
mod recorded;
mod slips;
mod stored;
mod taken;
mod writing;

pub use cell::PacksCell;
pub use image_packs::ImagePacks;
pub use recorded::Recorded;
pub use stored::Stored;
pub use taken::Taken;
