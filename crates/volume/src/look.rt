//! The calls that look at the volume and change nothing in it.
ghost use Rattle.std.specs.Prelude.{◌≡◌, IfOk, IfErr};
ghost use Rattle.geometry.specs.Refusals.{IsOfRead};
ghost use Rattle.file_cells.specs.Reader.{IsPinned};
ghost use Rattle.file_cells.specs.Status.{all};

use crate::volume::Volume;
use area::CheckpointRoom;
use device::{Block, Meta};
use file_cells::{FilePass, Reader, Seat, Status, count_states, count_valid};
use geometry::Error;
use rights_permits::VolumeName;
use std::sync::Wait;

impl<V: VolumeName, M: Meta, B: Block + Drop> Volume<V, M, B> {
    /// A reader of a file as it is now, whatever is written, cleaned or synced later. The reader's seat has a pin on the segment
    /// of each block of the file, until the reader is closed. A wounded volume is looked at as any other.
    ///
    /// Answers NoMemory where a growth was refused, and Device where the device failed to lend a block. Then the seat comes back
    /// as it was, without a pin.
    pub fn snapshot<R: Wait>(
        &self,
        rt: &R,
        pass: &FilePass<V>,
        seat: Seat<V>,
    ) -> Result<Reader<'_, V, B>, (Seat<V>, Error)>
        ensures file { IfOk result (λ reader. reader.file ≡ pass.now.file) }
        ensures pins { IfOk result (λ reader. IsPinned reader) }
        ensures seat { IfErr result (λ refused. refused.0 ≡ seat) }
        ensures error { IfErr result (λ refused. IsOfRead refused.1) }
    {
        let mut cell = self.lock_file(rt, pass.number());
        cell.snapshot(rt, self.alloc, &self.area, pass, seat)
    }

    /// How many segments are in each state. Each of them is counted once, in a state that it had at a moment of the call.
    pub fn status<R: Wait>(&self, rt: &R) -> Status
        ensures { all result ≡ V.Numbers.geometry.segments }
    {
        count_states(rt, &self.area)
    }

    /// How many blocks are valid: the data of all files, and their nodes but for those that were never written. Each segment's are
    /// counted at a moment of the call.
    pub fn valid_blocks<R: Wait>(&self, rt: &R) -> u32 {
        count_valid(rt, &self.area)
    }

    /// At most how many nodes the next checkpoint has to write, and for how many there are places now. Both are counted beside the
    /// volume, and other threads go on meanwhile, so no promise rests on them.
    pub fn checkpoint_room(&self) -> CheckpointRoom {
        self.area.checkpoint_room()
    }
}
