//! What a checkpoint wrote.

/// The numbers of the image that a checkpoint wrote.
#[derive(Clone, Copy)]
pub struct Synced {
    pub version: u32,
    /// How many blocks are valid.
    pub total: u32,
    /// How many segments a mount of the image finds free.
    pub free: u32,
}
