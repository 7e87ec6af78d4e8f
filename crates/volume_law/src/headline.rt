//! The law of closing a volume and mounting what it leaves.
ghost use Rattle.std.specs.Prelude.{◌≡◌, List};
ghost use Rattle.geometry.specs.declared.geometry.Geometry.{Geometry};
ghost use Rattle.image.specs.Files.{files};
ghost use Rattle.image.specs.Image.{Image};
ghost use Rattle.device.specs.declared.parts.Parts.{Parts};
ghost use Rattle.mount_reading.specs.Held.{HoldsImage};
ghost use Rattle.file_cells.specs.Pass.{Pass};
ghost use Rattle.volume_format.specs.Mountable.{IsMountable};
ghost use Rattle.image_codec.specs.Blocks.{bytes_at};
ghost use Rattle.pack_tables.specs.Grammar.{HasSuper};
ghost use Rattle.close_area.specs.Shown.{AreShown};
ghost use Rattle.volume_law.specs.Found.{IsFound};

use device::{Block, Meta};

/// Of the parts that `close` hands back (its clauses `mountable` and `files`), and of what is found of them later, at once or
/// after a crash. Where a mount of what is found is answered Ok (`front`, `image`), the files of the volume, which the passes of
/// the mount show (`passes`), are exactly those that the passes showed at the close. `mount_law` tells that it has the same numbers
/// and the same image, and why a mount is refused.
///
/// It runs nothing: its contract is the law.
pub fn headline_law<M: Meta, B: Block>()
    ensures files { (geometry other : Geometry) (image image' : Image) (closed found : Parts M B) (passes : List Pass)
        → IsMountable M.seen M.may_leave B.address_of B.content_of geometry image closed
        → IsFound M.seen M.may_leave B.address_of B.content_of geometry closed found
        → AreShown (files geometry image (bytes_at B.content_of closed.blocks.items)) passes
        → HasSuper other (M.seen found.meta) → HoldsImage M.seen B.content_of other found image'
        → AreShown (files other image' (bytes_at B.content_of found.blocks.items)) passes }
{}
