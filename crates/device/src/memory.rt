//! A device in memory.

pub mod block;
pub mod device;
pub mod meta;

pub use block::{MemBlock, MemLease};
pub use device::MemDevice;
pub use meta::MemMeta;
