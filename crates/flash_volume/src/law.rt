//! The law of work on what a closed volume left.
ghost use Rattle.std.specs.Prelude.{◌≡◌, List, map};
ghost use Rattle.device.specs.declared.parts.Parts.{Parts};
ghost use Rattle.file_cells.specs.Pass.{Pass};
ghost use Rattle.flash_volume.specs.Worked.{AreClosed, AreSamePasses};
ghost use Rattle.geometry.specs.declared.geometry.Geometry.{Geometry};
ghost use Rattle.image.specs.Files.{files};
ghost use Rattle.image.specs.Image.{Image};
ghost use Rattle.image_codec.specs.Blocks.{bytes_at};
ghost use Rattle.volume_law.specs.Found.{IsFound};
ghost use Rattle.volume_law.specs.Lawful.{HoldsLawfulVolume};

use device::{Block, Meta};

/// Of parts that a volume left when it was closed with these passes, of what is found of them later, at once or after a crash, and
/// of the work that is done on that next (the clauses `done` of both calls, `held` and `began` of the later one): it has the same
/// numbers, and begins with the passes of the same files.
///
/// It runs nothing: its contract is the law.
pub fn work_law<M: Meta, B: Block>()
    ensures follows { (geometry other : Geometry) (passes before : List Pass) (image : Image) (parts found : Parts M B)
        → AreClosed M.seen M.may_leave B.address_of B.content_of geometry passes parts
        → IsFound M.seen M.may_leave B.address_of B.content_of geometry parts found
        → HoldsLawfulVolume M.seen B.address_of B.content_of other image found
        → map (λ pass. (pass.number, pass.file)) before ≡ files other image (bytes_at B.content_of found.blocks.items)
        → (other ≡ geometry) × AreSamePasses passes before }
{}
