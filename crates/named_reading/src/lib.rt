//! Named files, read out of an image file where they stand: what a tool's `get`, `ls` and `dump` do.
//!
//! The folder (`named_folder`) is the file of number 1. Nothing is written, and no block is kept.
#![tactic(auto)]

mod listing;
mod refusal;
mod volume;

pub use listing::{Listing, NumberedFile};
pub use refusal::NameRefusal;
pub use volume::OpenVolume;
