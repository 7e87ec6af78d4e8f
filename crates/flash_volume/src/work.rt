//! What is done on a volume.
use crate::rights::Rights;
use device::{Block, Meta};
use geometry::Error;
use rights_permits::VolumeName;
use std::alloc::Global;
use std::sync::Wait;
use volume::Volume;

/// Work on a volume, over any device.
pub trait Work<M: Meta, B: Block + Drop> {
    ghost use Rattle.std.specs.Prelude.{List, IfOk, IfErr};
    ghost use Rattle.file_cells.specs.Pass.{Pass};
    ghost use Rattle.geometry.specs.declared.error.Error.{Error as Reason};
    ghost use Rattle.geometry.specs.declared.geometry.Geometry.{Geometry};

    /// What the work answers.
    type Output: Drop;

    // What the work promises: of itself, the volume's numbers, the passes that it begins with, what it answers, and the passes that
    // it ends with. It promises nothing unless it says so.
    ghost post: { Self → Geometry → List Pass → Self.Output → List Pass → Type 0 } = { λ _ _ _ _ _. Unit {0} };

    // Why the work may end with an error: of itself, the volume's numbers, the passes that it begins with, and the error. Any may be,
    // unless it says which.
    ghost failed: { Self → Geometry → List Pass → Reason → Type 0 } = { λ _ _ _ _. Unit {0} };

    /// Does the work, in this thread alone. It begins with the 64 seats, and a pass of each file in the order of their numbers; beside
    /// other works with as many seats as any of them, and the passes of its files. The pass of a file that it makes goes to the
    /// rights, and that of a file which it deletes comes out of there: where one is missing the volume can't be closed.
    ///
    /// An error ends it. Then the volume is given up, and what was not synced is lost.
    fn run<V: VolumeName, R: Wait>(
        self,
        rt: &R,
        alloc: Global,
        volume: &Volume<V, M, B>,
        rights: &mut Rights<V>,
    ) -> Result<Self::Output, Error>
        ensures done { IfOk result (λ output. post self V.Numbers.geometry rights.old.passes.items output rights.new.passes.items) }
        ensures refused { IfErr result (λ error. failed self V.Numbers.geometry rights.old.passes.items error) };
}
