//! How the blocks of a disk are spread over files.
use std::alloc::{AllocError, Global};

/// The most files that a disk is spread over: writes to one file take turns.
pub(crate) const STRIPES: u32 = 16;

/// How many files a disk of so many blocks is spread over.
pub(crate) fn stripes_of(blocks: u64) -> u32 {
    blocks.min(u64::from(STRIPES)) as u32
}

/// How many blocks of a disk lie in one of its files: the blocks are dealt to the files in turn, to the first one first.
pub(crate) fn blocks_in(blocks: u64, stripes: u32, stripe: u32) -> u64 {
    let stripes = u64::from(stripes.max(1));
    let whole = blocks / stripes;
    let left = blocks % stripes;
    if u64::from(stripe) < left {
        whole + 1
    } else {
        whole
    }
}

/// The name of one of the files of a disk.
pub(crate) fn stripe_name(alloc: Global, disk: &str, stripe: u32) -> Result<String, AllocError> {
    format!(in alloc; "{disk}.{stripe:02}")
}
