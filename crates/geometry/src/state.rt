//! The states of a segment's life.

/// Where a segment is in its life: free, open, sealed, retired, and free again (Linux `filesystems/f2fs`, prefree
/// segments).
#[derive(Clone, Copy, PartialEq, Eq)]
pub enum State {
    /// No block is valid, and it may be opened.
    Free,
    /// A log appends to it.
    Open,
    /// Some block is valid, and none is appended.
    Sealed,
    /// No block is valid, but the last checkpoint may still name some.
    Prefree,
}
