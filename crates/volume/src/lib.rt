//! A volume, which many threads share: files whose blocks are appended to logs over segments, and are never written in place
//! while a file names them (Rosenblum and Ousterhout 1991; Lee and others, FAST 2015).
#![tactic(auto)]

mod cells;
mod change;
mod clean;
mod closing_volume;
mod leaving;
mod look;
mod queues;
mod sync;
mod volume;
mod volume_names;

pub use cells::SpareCell;
pub use closing_volume::Closed;
pub use leaving::CloseFault;
pub use queues::open_queues;
pub use volume::{Base, Volume};
pub use volume_names::SharedName;
