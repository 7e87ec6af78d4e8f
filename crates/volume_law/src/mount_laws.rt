//! The laws of mounting what a format or a close left.
ghost use Rattle.std.specs.Prelude.{◌≡◌, []};
ghost use Rattle.geometry.specs.Refusals.{IsOfRead};
ghost use Rattle.device.specs.declared.parts.Parts.{Parts};
ghost use Rattle.mount_reading.specs.Held.{HoldsImage, IsPartsRefusal};
ghost use Rattle.volume_format.specs.Mountable.{IsMountable};
ghost use Rattle.geometry.specs.declared.error.Error.{Error};
ghost use Rattle.geometry.specs.declared.geometry.Geometry.{Geometry};
ghost use Rattle.image.specs.Empty.{empty_image};
ghost use Rattle.image.specs.Files.{files};
ghost use Rattle.image.specs.Image.{Image};
ghost use Rattle.volume_law.specs.Found.{IsFound};
ghost use Rattle.image_codec.specs.Blocks.{bytes_at};
ghost use Rattle.pack_tables.specs.Grammar.{HasSuper};

use device::{Block, Meta};

/// Of mountable parts, as `close` and `format` leave them (their clauses `mountable`), and of what is found of them later, at once
/// or after a crash. A mount of what is found is refused for want of memory or where the device failed, and for nothing else
/// (the mount's clause `refused`). Where it is answered Ok (`front`, `image`), the volume has the same numbers and the same image.
///
/// It runs nothing: its contract is the law.
pub fn mount_law<M: Meta, B: Block>()
    ensures at_once { (geometry : Geometry) (image : Image) (left : Parts M B)
        → IsMountable M.seen M.may_leave B.address_of B.content_of geometry image left
        → IsFound M.seen M.may_leave B.address_of B.content_of geometry left left }
    ensures refused { (geometry : Geometry) (image : Image) (left found : Parts M B) (error : Error)
        → IsMountable M.seen M.may_leave B.address_of B.content_of geometry image left
        → IsFound M.seen M.may_leave B.address_of B.content_of geometry left found
        → IsPartsRefusal M.seen B.address_of B.content_of found error
        → IsOfRead error }
    ensures same { (geometry other : Geometry) (image image' : Image) (left found : Parts M B)
        → IsMountable M.seen M.may_leave B.address_of B.content_of geometry image left
        → IsFound M.seen M.may_leave B.address_of B.content_of geometry left found
        → HasSuper other (M.seen found.meta) → HoldsImage M.seen B.content_of other found image'
        → (other ≡ geometry) × (image' ≡ image) }
{}

/// A mount of what `format` left, at once or after a crash, finds a volume of the same numbers, of version 1, in which no block
/// is valid, and no file: so it hands out no pass.
///
/// It runs nothing: its contract is the law.
pub fn format_law<M: Meta, B: Block>()
    ensures numbers { (geometry other : Geometry) (image : Image) (left found : Parts M B)
        → IsMountable M.seen M.may_leave B.address_of B.content_of geometry (empty_image geometry) left
        → IsFound M.seen M.may_leave B.address_of B.content_of geometry left found
        → HasSuper other (M.seen found.meta) → HoldsImage M.seen B.content_of other found image
        → (other ≡ geometry) × (image.version ≡ 1) × (image.total ≡ 0) }
    ensures no_file { (geometry other : Geometry) (image : Image) (left found : Parts M B)
        → IsMountable M.seen M.may_leave B.address_of B.content_of geometry (empty_image geometry) left
        → IsFound M.seen M.may_leave B.address_of B.content_of geometry left found
        → HasSuper other (M.seen found.meta) → HoldsImage M.seen B.content_of other found image
        → files other image (bytes_at B.content_of found.blocks.items) ≡ [] }
{}
