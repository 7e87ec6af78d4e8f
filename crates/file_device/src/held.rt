//! Whose the bytes are that are kept.

/// Whose the bytes are that are kept.
#[derive(Clone, Copy, PartialEq, Eq)]
pub enum Held {
    /// Those of neighbouring blocks, from that of an address on. A block that was written has its bytes to itself.
    From(u32),
    /// Nobody's: what is held are zeros, which take no memory.
    Zeros,
}
