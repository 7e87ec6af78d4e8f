//! The main area of a volume, which threads share: its segments, each in a lock of its own, the six logs that append to them,
//! the free segments, and the node numbers.
//!
//! A call has a permit of the books in hand. What it writes or takes is in hand from then on, and what it gives back is in
//! hand no more. Locks are taken in this order: a log's, a segment's; a shard's is taken alone.
//! How retired segments become free once a later version is complete, and how their slips come into the pool.
#![tactic(auto)]

mod append;
mod cells;
mod freed_area;
mod hole_reuse;
mod log;
mod main_area;
mod node_room;
mod numbered;
mod numbers;
mod opening;
mod release;
mod rooms;
mod rows;
mod segment;
mod slips;
mod threads;
mod unsettled;

pub use append::Who;
pub use cells::{LogCell, SegmentCell, ShardCell};
pub use freed_area::free_retired;
pub use hole_reuse::HoleReuse;
pub use log::{Log, log_for};
pub use main_area::MainArea;
pub use node_room::{CheckpointRoom, MarkedNodes};
pub use numbered::{Numbered, lock_numbered};
pub use opening::{lock_segments, put_slips, take_row};
pub use rooms::{new_rooms, store_slips};
pub use rows::SectionRow;
pub use segment::free_segment;
pub use unsettled::{SegmentTask, Unsettled};
