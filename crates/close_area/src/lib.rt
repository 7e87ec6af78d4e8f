//! A volume that no thread shares any more is closed: its files come out of their locks, and go back into them after a refusal; the
//! last checkpoint is written (Linux `filesystems/f2fs`, checkpoint: it writes the dirty node blocks), and all that a file has comes
//! home into the main area: each of its blocks is where it was, with the bytes that the file's tickets and tokens show.
//! Then the blocks come out in the order of their addresses. Over them, an image that was taken of the files before has exactly what
//! the files' passes showed.
#![tactic(auto)]

mod closing_area;
mod counting;
mod file;
mod last;
mod locks;
mod node;
mod returning;
mod rows;
mod telling;
mod written;

pub use closing_area::close_area;
pub use counting::count_living;
pub use file::return_file;
pub use last::{Last, write_last};
pub use locks::{own_file, share_files};
pub use node::return_node;
pub use rows::own_files;
pub use written::WrittenFile;
