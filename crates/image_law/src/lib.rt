//! Two laws of images. The image that a sync assembles, with all locks in hand, is lawful, and its files are those that
//! were written. And the core machine, a volume without threads over a disk that keeps nothing for certain until it is
//! synced, has the law of its crashes.
#![tactic(auto)]

pub mod assembly;
pub mod crash;

pub use assembly::assembly_law;
pub use crash::crash_law;
