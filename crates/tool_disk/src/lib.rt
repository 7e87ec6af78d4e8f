//! A disk on a volume of named files: its files are found or made, and it is served to a client.
#![tactic(auto)]

mod disk_files;
mod disk_parts;
mod fault;
mod serving;
mod stripes;

pub use disk_files::{DiskFiles, find_or_make};
pub use fault::DiskFault;
pub use serving::{DiskOptions, Served, serve_disk};
