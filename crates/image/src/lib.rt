//! What a checkpoint records: an image of the tables and of the nodes that they name, with the rules that it keeps, the
//! bytes that spell it and the files that it holds (Linux `filesystems/f2fs`, on-disk layout).
#![tactic(auto)]

pub mod class;
mod empty;
pub mod free;
pub mod image;
pub mod lookup;

pub use empty::empty_law;
pub use image::{Image, LogHead, Node, NodeEntry, SegmentInfo};
