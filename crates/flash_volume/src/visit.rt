//! What is done with a volume that was mounted.
use crate::rights::Rights;
use device::{Block, Meta};
use geometry::Error;
use rights_permits::VolumeName;
use std::alloc::Global;
use std::sync::Wait;
use volume::Volume;

/// What is done with a volume that was mounted, over any device. A visit is a work that also says of the image that was mounted.
pub trait Visit<M: Meta, B: Block + Drop> {
    ghost use Rattle.std.specs.Prelude.{List, IfOk, IfErr};
    ghost use Rattle.file_cells.specs.Pass.{Pass};
    ghost use Rattle.geometry.specs.declared.error.Error.{Error as Reason};
    ghost use Rattle.geometry.specs.declared.geometry.Geometry.{Geometry};
    ghost use Rattle.volume.specs.declared.volume.Base.{Base};

    /// What the visit answers.
    type Output: Drop;

    // What the visit promises: of itself, the volume's numbers, the image that was mounted, the passes that it begins with, what it
    // answers, and the passes that it ends with.
    ghost did: { Self → Geometry → Base → List Pass → Self.Output → List Pass → Type 0 };

    // Why the visit may end with an error, as of a work. Any may be, unless it says which.
    ghost failed: { Self → Geometry → Base → List Pass → Reason → Type 0 } = { λ _ _ _ _ _. Unit {0} };

    /// Does what is to be done, as a work does.
    fn visit<V: VolumeName, R: Wait>(
        self,
        rt: &R,
        alloc: Global,
        volume: &Volume<V, M, B>,
        rights: &mut Rights<V>,
    ) -> Result<Self::Output, Error>
        ensures done { IfOk result (λ output. did self V.Numbers.geometry volume.now.base rights.old.passes.items output rights.new.passes.items) }
        ensures refused { IfErr result (λ error. failed self V.Numbers.geometry volume.now.base rights.old.passes.items error) };
}
