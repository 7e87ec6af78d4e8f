//! The marked nodes of a file are written: each goes to the log of its class, and its number then stands for the new block
//! (Linux `filesystems/f2fs`: a checkpoint writes the dirty node blocks).
#![tactic(auto)]

mod buffer;
mod flushing;
mod node;
mod writer;

pub use buffer::FlushBuffer;
pub use flushing::flush_file;
