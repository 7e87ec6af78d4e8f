//! A volume's numbers and names, and the definitions that two crates or more speak of. Nothing here takes memory.
//!
//! A volume is a device of equal blocks. A segment is a run of blocks, a section a run of segments. Blocks have
//! addresses from 1 on, and address 0 means none.
//!
//! For laws that count there are sums over lists too: what a list weighs when each of its items has a weight.
#![tactic(auto)]

pub mod class;
pub mod error;
pub mod geometry;
pub mod index;
pub mod kind;
pub mod owner;
mod packing;
pub mod path;
pub mod shape;
pub mod state;

pub use class::Class;
pub use error::Error;
pub use geometry::{Geometry, SUPER_BYTES};
pub use kind::Kind;
pub use owner::{Mark, Owner, Summary};
pub use packing::Packing;
pub use path::Path;
pub use shape::Shape;
pub use state::State;
