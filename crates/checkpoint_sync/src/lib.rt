//! The image of a volume that many threads use: it is taken while all permits are in one hand and all locks are held (Linux
//! `filesystems/f2fs`: a checkpoint blocks all operations). Before it the marked nodes of each file are written under the
//! file's lock, which is kept.
//!
//! What the locks hold keeps the laws from which an image of it is lawful: of the main area its segments, shards and logs
//! (`locking`, `locked_area`, `taking_image`); of each file its state, seen as the plain index tree that an image is assembled
//! from, whose nodes, tickets and tokens are those of the state (`seeing`, `law`).
#![tactic(auto)]

mod apart;
mod area_image;
mod flushing;
mod held;
pub mod law;
mod lent;
mod locked_area;
mod locking;
mod log;
mod opened;
mod rows;
mod seeing;
mod segment;
mod shard;
mod taking_image;
mod volume;

pub use area_image::take_image;
pub use flushing::flush_cell;
pub use held::HeldFile;
pub use law::file_parts_law;
pub use locked_area::HeldArea;
pub use locking::lock_area;
pub use log::HeldLog;
pub use rows::{flush_files, release_files};
pub use seeing::seen_as_tree;
pub use segment::HeldSegment;
pub use shard::HeldShard;
pub use volume::take_volume;
