//! Cleaning: a section is chosen, and its valid blocks are moved to the logs, so that its segments come free (Rosenblum and
//! Ousterhout 1991; Lee and others, FAST 2015). No move changes a byte of a file.
//!
//! A segment's lock is let go before the lock of a file is taken. How a file is locked is its keeper's: see `Files`.
#![tactic(auto)]

mod block;
mod fate;
mod keeper;
mod node;
mod place;
mod policy;
mod section;
mod survey;

pub use block::{DataBlock, migrate_block};
pub use fate::{Fate, MovedBlocks};
pub use keeper::{Files, migrate};
pub use node::migrate_node;
pub use policy::{Policy, choose};
pub use section::{Cleaned, clean};
pub use survey::Survey;
