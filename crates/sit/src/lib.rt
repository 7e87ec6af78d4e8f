//! One segment of a volume: the segment information table's entry and its part of the segment summary area, with the
//! blocks that are at home (Linux `filesystems/f2fs`, SIT and SSA). Its blocks are in `body`; the lock's value in `segment`
//! adds the rights to it, which the books and the words keep.
#![tactic(auto)]

mod bits;
mod blocks;
mod body;
mod lent;
pub mod loading;
mod noted;
pub mod room;
pub mod segment;
mod standing;
mod thread;
mod valid;

pub use loading::Loading;
pub use room::EmptySegment;
pub use segment::{Released, SegmentRow, SegmentState};
