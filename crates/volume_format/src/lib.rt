//! A volume without files is written to a device, as mkfs.f2fs does (Linux `filesystems/f2fs`, on-disk layout). A mount opens it.
#![tactic(auto)]

mod front;
mod writing;

pub use writing::{FormatFault, format};
