//! Work on named files.
mod append;
mod make_folder;
mod put;
mod put_all;
mod read_folder;
mod remove;
mod rename;

pub use append::Append;
pub use make_folder::MakeFolder;
pub use put::Put;
pub use put_all::{NewFile, PutAll};
pub use read_folder::{FolderRows, ReadFolder};
pub use remove::{DeleteFile, Remove};
pub use rename::Rename;
