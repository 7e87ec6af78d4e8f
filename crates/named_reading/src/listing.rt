//! What files there are.
use named_folder::FolderRow;

/// A file by its number, and its length in blocks.
#[derive(Clone, Copy, PartialEq, Eq)]
pub struct NumberedFile {
    pub number: u32,
    pub blocks: u32,
}

/// The rows of the folder, if there is one, and all files by their numbers, the folder among them.
#[derive(Drop)]
pub struct Listing {
    pub named: Option<Vec<FolderRow>>,
    pub files: Vec<NumberedFile>,
}
