//! What a file is.

/// What a file is; data blocks of each kind have a log of their own (Linux `filesystems/f2fs`, multi-head logging).
#[derive(Clone, Copy, Debug, PartialEq, Eq)]
pub enum Kind {
    /// An ordinary file, whose data is warm.
    File,
    /// A directory, whose data and direct nodes are hot.
    Dir,
    /// Media data, which is written once and is cold.
    Media,
}
