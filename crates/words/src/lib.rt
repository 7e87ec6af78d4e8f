//! The words of the segments: each segment's state, incarnation and pins in one atomic word, and the completed version in
//! one more.
//!
//! A segment's life is that of f2fs (Linux `filesystems/f2fs`; Lee and others, "F2FS: A New File System for Flash
//! Storage", FAST 2015): free, open, sealed, prefree, and free again. Incarnations and pins are this project's own. The
//! incarnation counts how often a segment was opened. A reader's pin keeps it: a pinned segment is not freed, so it is not
//! opened again. A prefree segment is freed only once a version later than its retirement is complete.
//!
//! Who may take which step is known by tokens without bytes. Each segment has one `Standing`, with which alone its state
//! is moved; while it is free one `FreeSlip`, with which alone it is opened; and while it is open one `OpenSlip`, with
//! which alone it is sealed. A reader has a `SeatToken`, and the checkpoint has the one `CheckpointSeat`.
//!
//! Every step is one load, `fetch_add` or `fetch_sub`, and no step is tried twice. Nothing here waits, and only
//! `Words::new` takes memory.
#![tactic(auto)]

pub mod claim;
mod deal;
mod moves;
mod plays;
mod reading;
mod table;
mod tokens;

pub use claim::{Life, Pins, SeatClaim};
pub use deal::Dealt;
pub use moves::{Move, Moved};
pub use table::Words;
pub use tokens::{
    CheckpointSeat, FreeSlip, OpenSlip, SEATS, SeatToken, Standing, StoredOpenSlip, StoredSlip,
};
