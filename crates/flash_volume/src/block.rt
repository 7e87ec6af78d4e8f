//! The blocks that threads share.
use device::Block;

/// A block that threads may use side by side, and whose leases they may hand on.
pub trait SharedBlock: Block<Lease: Send> + Drop + Send {}

impl<B: Block<Lease: Send> + Drop + Send> SharedBlock for B {}
