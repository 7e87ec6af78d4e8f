//! The folder of a tool's volume: names of files, as rows and as bytes.
//!
//! The folder has a row for each name: the number of the file that has its bytes, and how many bytes that file has. Of rows with one
//! name the first counts.
#![tactic(auto)]

mod entry;
mod folder;
mod rows;

pub use entry::{FolderRow, is_name};
pub use folder::{FOLDER, decode, encode, folder_law};
pub use rows::{put_row, rename_row, row_at, take_row};
