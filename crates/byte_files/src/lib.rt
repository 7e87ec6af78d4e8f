//! Files of bytes over files of blocks: reads, writes, appends and truncations at any byte of a file, over the calls of a volume on its
//! blocks. How many bytes a file has is the caller's to know: a volume counts blocks.
#![tactic(auto)]

mod laws;
mod open;
mod parts;
mod reading;
mod truncating;
mod writing;

pub use laws::{append_law, read_law, truncate_law, write_law};
pub use open::Open;
