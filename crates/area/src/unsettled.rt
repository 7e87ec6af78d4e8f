//! What a checkpoint has to do with segments, once it is complete.
ghost use Rattle.std.specs.Prelude.{◌≡◌, true, slice_index_or, slice_set, replicate, IfOk, IfErr};
ghost use Rattle.geometry.specs.declared.error.Error.TheVariants.{NoMemory};

use geometry::Error;
use std::alloc::Global;

/// What a completed checkpoint has to do with a segment.
#[derive(Clone, Copy)]
pub struct SegmentTask {
    /// To tell it its bits: they are not those that the last checkpoint marked.
    pub keep: bool,
    /// To free it, where it may be: it is retired.
    pub free: bool,
}

// All that there is to do.
const ALL: SegmentTask = SegmentTask {
    keep: true,
    free: true,
};

/// What there is to do with each segment, as a checkpoint found them while it held their locks. No other call changes them before
/// it is complete.
#[derive(Drop)]
pub struct Unsettled {
    pub turns: Vec<SegmentTask>,
}

impl Unsettled {
    /// All with each of so many segments. The only error is NoMemory.
    pub fn new(alloc: Global, segments: u32) -> Result<Unsettled, Error>
        ensures all { IfOk result (λ unsettled. unsettled.turns.items ≡ replicate segments ALL) }
        ensures error { IfErr result (λ error. error ≡ NoMemory) }
    {
        let turns = vec![in alloc; ALL; segments as usize]?;
        Ok(Unsettled { turns })
    }

    /// What there is to do with a segment was found.
    pub fn find(&mut self, number: u32, turn: SegmentTask)
        ensures { self.new.turns.items ≡ slice_set self.old.turns.items number turn }
    {
        let at = number as usize;
        if at < self.turns.len() {
            self.turns[at] = turn;
        }
    }

    /// What there is to do with a segment.
    pub fn turn(&self, number: u32) -> SegmentTask
        ensures { result ≡ slice_index_or self.now.turns.items number ALL }
    {
        match self.turns.get(number as usize) {
            Some(turn) => *turn,
            None => ALL,
        }
    }
}
