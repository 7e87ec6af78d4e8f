//! In which states the segments are.
ghost use Rattle.std.specs.Prelude.{◌≡◌, ◌+◌, ◌<◌};
ghost use Rattle.file_cells.specs.Status.{all};

use area::MainArea;
use device::Block;
use geometry::State;
use rights_permits::VolumeName;
use std::sync::Wait;

/// How many segments are in each state. Each was counted in a state that it had while its lock was held, one segment after
/// another.
#[derive(Clone, Copy, Debug, PartialEq, Eq)]
pub struct Status {
    pub free: u32,
    pub prefree: u32,
    pub opened: u32,
    pub sealed: u32,
}

impl Status {
    // One more segment of this state.
    fn add(&mut self, state: State)
        requires { all self.old < 4096 }
        ensures { all self.new ≡ all self.old + 1 }
    {
        match state {
            State::Free => self.free += 1,
            State::Prefree => self.prefree += 1,
            State::Open => self.opened += 1,
            State::Sealed => self.sealed += 1,
        }
    }
}

/// Counts all segments of the volume.
pub fn count_states<V: VolumeName, B: Block + Drop, R: Wait>(
    rt: &R,
    area: &MainArea<V, B>,
) -> Status
    ensures { all result ≡ V.Numbers.geometry.segments }
{
    let mut status = Status {
        free: 0,
        prefree: 0,
        opened: 0,
        sealed: 0,
    };
    for number in 0..area.geometry().segments {
        let cell = area.lock_segment(rt, number);
        status.add(cell.state.state());
    }
    status
}

/// How many blocks are valid, of the data of all files and of their nodes that have one. Each segment's were counted while its lock was
/// held, one segment after another.
pub fn count_valid<V: VolumeName, B: Block + Drop, R: Wait>(rt: &R, area: &MainArea<V, B>) -> u32 {
    let mut valid = 0u32;
    for number in 0..area.geometry().segments {
        let cell = area.lock_segment(rt, number);
        valid = valid.saturating_add(cell.row().valid);
    }
    valid
}
