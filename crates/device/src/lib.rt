//! The right to one block, the meta area with its disk model, and devices: in memory, and one that fails when told to.
//!
//! A device is a meta area, whose bytes are read and written in place and settled by a sync, and blocks, each of which
//! is written whole. What a crash may leave is said of the meta area alone.
#![tactic(auto)]

pub mod block;
pub mod failures;
pub mod faulty;
pub mod log;
pub mod memory;
pub mod meta;
pub mod parts;
mod waiting;

pub use block::{Block, DeviceError};
pub use failures::Failures;
pub use faulty::{Faulty, Fuse, FuseAction};
pub use memory::{MemBlock, MemDevice, MemLease, MemMeta};
pub use meta::Meta;
pub use parts::Parts;
