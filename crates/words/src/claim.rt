//! What the seats of the table claim. No value of a claim is made: claims are what the seats know, for the proof.
use geometry::State;
use std::collections::LinkedList;

/// What a standing knows of its segment.
pub struct Life {
    pub segment: u64,
    pub state: State,
    /// How often the segment was opened.
    pub incarnation: u64,
    /// The version that was complete when the segment was retired.
    pub stamp: u64,
    /// The version that the standing loaded last.
    pub seen: u64,
    /// How often it has loaded the completed version.
    pub version_loads: u64,
    /// How often it has loaded its segment's pins.
    pub pin_loads: u64,
    /// The pins that the standing's last step on the segment's word found.
    pub pins: u64,
}

/// What a reader's seat knows.
pub struct Pins {
    /// The pins that it holds, each a segment and its incarnation.
    pub held: LinkedList<(u64, u64)>,
    /// The version that was loaded last, and 1, the first of all versions, while none was.
    pub seen: u64,
    /// The segment whose pins were loaded last, and how many there were.
    pub load: (u64, u64),
    /// How often the seat has loaded the completed version or a segment's word.
    pub loads: u64,
}

/// One claim of a seat.
pub enum SeatClaim {
    /// The one right to move a segment's state.
    Stands(Life),
    /// The one right to open a free segment.
    Slip(u64),
    /// The one right to append to an open segment, and to seal it.
    Appends(u64),
    /// A reader's pins.
    Reads(Pins),
    /// The one right to advance the completed version, which this is.
    Checkpoint(u64),
}

/// What is fixed when the words are made.
#[derive(Clone, Copy)]
pub struct Plan {
    pub segments: u64,
    pub seats: u64,
    pub version: u64,
}
