//! What a choice of a victim sees of a section.
ghost use Rattle.std.specs.Prelude.{◌≡◌, ◌+◌, ◌/◌, ◌^◌, ◌<◌, ◌≤◌};
ghost use Rattle.geometry.specs.Shape.{segment_blocks};
ghost use Rattle.area.specs.Rows.{IsRowOf};

use crate::main_area::MainArea;
use device::Block;
use geometry::State;
use rights_permits::VolumeName;
use sit::SegmentRow;
use std::sync::Wait;

/// What a choice of a victim looks at in a section (Rosenblum and Ousterhout 1991).
#[derive(Clone, Copy, PartialEq, Eq)]
pub struct SectionRow {
    /// Its number, from 0 on.
    pub section: u32,
    /// How many of its blocks are valid.
    pub valid: u32,
    /// How many blocks it has.
    pub size: u32,
    /// The largest time of an append into its segments, 0 where there was none.
    pub mtime: u64,
    /// Whether it may be cleaned: one of its segments is sealed, all are sealed or free, no log fills holes of one, and
    /// not all blocks are valid.
    pub ready: bool,
}

// What is seen of the segments of a section that were looked at.
#[derive(Drop)]
struct Tally {
    valid: u32,
    mtime: u64,
    // One of them is sealed.
    sealed: bool,
    // Each is sealed and no log fills its holes, or it is free.
    settled: bool,
}

impl Tally {
    // One more segment was looked at.
    fn with(self, row: &SegmentRow) -> Tally
        requires few { self.valid + row.now.valid < 2 ^ 32 }
        ensures valid { result.valid ≡ self.valid + row.now.valid }
    {
        let settled = match row.state {
            State::Sealed => self.settled && !row.threaded,
            State::Free => self.settled,
            State::Open | State::Prefree => false,
        };
        Tally {
            valid: self.valid + row.valid,
            mtime: self.mtime.max(row.mtime),
            sealed: self.sealed || row.state == State::Sealed,
            settled,
        }
    }
}

impl<V: VolumeName, B: Block + Drop> MainArea<V, B> {
    /// The row of a section. Its segments are looked at one after another, each under its own lock.
    pub fn row<R: Wait>(&self, rt: &R, section: u32) -> SectionRow
        requires { section < V.Numbers.geometry.segments / V.Numbers.geometry.per_section }
        ensures { IsRowOf V.Numbers.geometry section result }
    {
        let geometry = self.geometry();
        let first = section * geometry.per_section;
        let mut tally = Tally {
            valid: 0,
            mtime: 0,
            sealed: false,
            settled: true,
        };
        for index in 0..geometry.per_section {
            tally = tally.with(&self.segment_row(rt, first + index));
        }
        let size = geometry.per_section * geometry.shape.segment_blocks();
        SectionRow {
            section,
            valid: tally.valid,
            size,
            mtime: tally.mtime,
            ready: tally.sealed && tally.settled && tally.valid < size,
        }
    }

    // The row of a segment.
    fn segment_row<R: Wait>(&self, rt: &R, number: u32) -> SegmentRow
        requires { number < V.Numbers.geometry.segments }
        ensures { result.valid ≤ segment_blocks V.Numbers.geometry.shape }
    {
        let cell = self.lock_segment(rt, number);
        cell.row()
    }
}
