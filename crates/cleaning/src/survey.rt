//! What a clean sees of all sections before it chooses one.
ghost use Rattle.std.specs.Prelude.{◌≡◌, ◌*◌, ◌+◌, ◌<◌, ◌≤◌, vec_len, length, IfOk, IfErr};
ghost use Rattle.geometry.specs.declared.error.Error.TheVariants.{NoMemory};
ghost use Rattle.geometry.specs.Shape.{segment_blocks};
ghost use Rattle.cleaning.specs.Cleaning.{AreRows, IsRowOf, section_count};

use area::MainArea;
use device::Block;
use geometry::{Error, State};
use rights_permits::VolumeName;
use sit::SegmentRow;
use std::alloc::Global;
use std::sync::Wait;
use victim::Candidate;

/// The rows of all sections, and which segments were sealed when these were taken.
#[derive(Drop)]
pub struct Survey {
    pub rows: Vec<Candidate>,
    pub sealed: Vec<bool>,
}

impl Survey {
    /// Looks at all segments, each under its own lock, one after another: one row for each section, ascending. A section is
    /// ready where one of its segments is sealed, all are sealed or free, no log fills holes of one, and not all of its blocks are
    /// valid. The only error is NoMemory.
    pub fn take<V: VolumeName, B: Block + Drop, R: Wait>(
        rt: &R,
        alloc: Global,
        area: &MainArea<V, B>,
    ) -> Result<Survey, Error>
        ensures rows { IfOk result (λ survey. AreRows V.Numbers.geometry survey.rows.items) }
        ensures sealed { IfOk result (λ survey. vec_len survey.sealed ≡ V.Numbers.geometry.segments) }
        ensures error { IfErr result (λ error. error ≡ NoMemory) }
    {
        let geometry = area.geometry();
        let mut sealed = new_flags(alloc, geometry.segments as usize)?;
        let sections = geometry.segments / geometry.per_section;
        let mut rows = Vec::with_capacity(alloc, sections as usize)?;
        for section in 0..sections {
            rows.push_reserved(row_of(rt, area, section, &mut sealed));
        }
        Ok(Survey { rows, sealed })
    }
}

// So many flags that are down.
fn new_flags(alloc: Global, count: usize) -> Result<Vec<bool>, Error>
    ensures flags { IfOk result (λ flags. vec_len flags ≡ count) }
    ensures error { IfErr result (λ error. error ≡ NoMemory) }
{
    let mut flags = Vec::with_capacity(alloc, count)?;
    for _i in 0..count {
        flags.push_reserved(false);
    }
    Ok(flags)
}

// The row of a section, whose sealed segments are marked.
fn row_of<V: VolumeName, B: Block + Drop, R: Wait>(
    rt: &R,
    area: &MainArea<V, B>,
    section: u32,
    sealed: &mut Vec<bool>,
) -> Candidate
    requires section { section < section_count V.Numbers.geometry }
    requires flags { vec_len sealed.old ≡ V.Numbers.geometry.segments }
    ensures row { IsRowOf V.Numbers.geometry section result }
    ensures flags { vec_len sealed.new ≡ V.Numbers.geometry.segments }
{
    let geometry = area.geometry();
    let first = section * geometry.per_section;
    let mut valid = 0;
    let mut mtime = 0;
    let mut some = false;
    let mut all = true;
    for place in 0..geometry.per_section {
        let segment = look(rt, area, first + place);
        let is_sealed = segment.state == State::Sealed;
        sealed[(first + place) as usize] = is_sealed;
        valid += segment.valid;
        mtime = segment.mtime.max(mtime);
        some = some || is_sealed;
        let is_threaded = segment.threaded;
        all = all && !is_threaded && (is_sealed || segment.state == State::Free);
    }
    let size = geometry.per_section * geometry.shape.segment_blocks();
    Candidate {
        section,
        valid,
        size,
        mtime,
        ready: some && all && valid < size,
    }
}

// What is seen of a segment under its lock.
fn look<V: VolumeName, B: Block + Drop, R: Wait>(
    rt: &R,
    area: &MainArea<V, B>,
    number: u32,
) -> SegmentRow
    requires { number < V.Numbers.geometry.segments }
    ensures { result.valid ≤ segment_blocks V.Numbers.geometry.shape }
{
    let cell = area.lock_segment(rt, number);
    cell.row()
}
