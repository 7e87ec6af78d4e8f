//! A snapshot of the file in its lock.
ghost use Rattle.std.specs.Prelude.{◌≡◌, IfOk, IfErr};
ghost use Rattle.geometry.specs.Refusals.{IsOfRead};
ghost use Rattle.file_cells.specs.Reader.{IsPinned};

use crate::cell::FileCell;
use crate::pass::FilePass;
use crate::{Reader, Seat, take_reader};
use area::MainArea;
use device::Block;
use geometry::Error;
use rights_permits::VolumeName;
use std::alloc::Global;
use std::sync::Wait;

impl<V: VolumeName, B: Block + Drop> FileCell<V, B> {
    /// A reader of the file as it is now, whose seat has a pin on the segment of each of its blocks. The file and its pass stay
    /// as they are.
    ///
    /// Answers NoMemory where a growth was refused, and Device where the device failed to lend a block. Then the seat comes back
    /// as it was.
    pub fn snapshot<'a, R: Wait>(
        &mut self,
        rt: &R,
        alloc: Global,
        area: &'a MainArea<V, B>,
        pass: &FilePass<V>,
        seat: Seat<V>,
    ) -> Result<Reader<'a, V, B>, (Seat<V>, Error)>
        requires number { self.old.number ≡ pass.now.number }
        ensures file { IfOk result (λ reader. reader.file ≡ pass.now.file) }
        ensures pins { IfOk result (λ reader. IsPinned reader) }
        ensures seat { IfErr result (λ refused. refused.0 ≡ seat) }
        ensures error { IfErr result (λ refused. IsOfRead refused.1) }
        ensures same { self.new ≡ self.old }
    {
        area.books().compare(&self.account, &pass.account);
        let Some(file) = &mut self.state else {
            unreachable!();
        };
        take_reader(alloc, rt, area, file, &mut self.account, seat)
    }
}
