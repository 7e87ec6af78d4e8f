//! What was put is what is got, by whichever later run.
ghost use Rattle.std.specs.Prelude.{◌≡◌, ◌≢◌, ℕ, List, []};
ghost use Rattle.close_area.specs.Shown.{AreShown};
ghost use Rattle.device.specs.declared.parts.Parts.{Parts};
ghost use Rattle.file_cells.specs.Pass.{Pass};
ghost use Rattle.flash_volume.specs.Visited.{ArePassesOf};
ghost use Rattle.flash_volume.specs.Worked.{AreClosed, AreSamePasses};
ghost use Rattle.geometry.specs.File.{Block};
ghost use Rattle.geometry.specs.declared.geometry.Geometry.{Geometry};
ghost use Rattle.image.specs.Files.{files};
ghost use Rattle.image.specs.Image.{Image};
ghost use Rattle.image_reading.specs.Held.{HoldsVolume, files_in};
ghost use Rattle.named_files.specs.Files.{HasFolder, WasPut};
ghost use Rattle.named_files.specs.Kept.{HasNamed, IsOrderly, IsRunOn};
ghost use Rattle.named_files.specs.Left.{IsLeftIn};
ghost use Rattle.named_reading.specs.Named.{HasFile};

use flash_volume::{Block, Meta};

/// Of the parts that a close left (`AreClosed`, of `work_on`), and of the bytes of the image file in which they are kept, at once or
/// after a crash (`IsLeftIn`): the file holds a volume, and whatever image is read out of it (`HoldsVolume`, of `OpenVolume::open`)
/// has the same numbers, and the files that the passes showed.
///
/// It runs nothing: its contract is the law.
pub fn file_law<M: Meta, B: Block>()
    ensures holds { (geometry : Geometry) (passes : List Pass) (parts : Parts M B) (bytes : List ℕ)
        → AreClosed M.seen M.may_leave B.address_of B.content_of geometry passes parts
        → IsLeftIn M.may_leave B.content_of geometry parts bytes
        → (image : Image) × HoldsVolume geometry image bytes }
    ensures shown { (geometry other : Geometry) (passes : List Pass) (parts : Parts M B) (bytes : List ℕ) (image : Image)
        → AreClosed M.seen M.may_leave B.address_of B.content_of geometry passes parts
        → IsLeftIn M.may_leave B.content_of geometry parts bytes
        → HoldsVolume other image bytes
        → (other ≡ geometry) × AreShown (files_in other image bytes) passes }
{}

/// Of a run that put a file (`WasPut`, of `Put`), and of an image whose files are those with which it ended (`AreShown`, of a close
/// that is answered Ok): what is got out of this image under the name (`HasFile`, of `OpenVolume::get`) is what was put.
///
/// It runs nothing: its contract is the law.
pub fn put_get_law()
    ensures { (size : ℕ) (name bytes : List ℕ) (number : ℕ) (before after : List Pass) (geometry : Geometry) (image : Image) (blocks : ℕ → Block) (got : List ℕ)
        → WasPut size name bytes number before after
        → AreShown (files geometry image blocks) after
        → HasFile size (files geometry image blocks) name got
        → got ≡ bytes }
{}

/// What was put under a name stays there while later runs put, remove, rename or delete what has other names, and is then what is got.
///
/// A run begins with the passes of the files that the one before left (`work_law` of `flash_volume`). That no other file is this one
/// rests on a folder whose rows have numbers of their own: a new folder's have, and each run leaves it so.
///
/// It runs nothing: its contract is the law.
pub fn put_kept_law()
    ensures put { (size : ℕ) (name bytes : List ℕ) (number : ℕ) (before after : List Pass) → WasPut size name bytes number before after → HasNamed size name bytes after }
    ensures kept { (size : ℕ) (name bytes : List ℕ) (before after : List Pass)
        → HasNamed size name bytes before
        → IsOrderly size before
        → IsRunOn (λ other. other ≢ name) size before after
        → HasNamed size name bytes after }
    ensures next { (size : ℕ) (name bytes : List ℕ) (geometry : Geometry) (image : Image) (blocks : ℕ → Block) (left begun : List Pass)
        → AreSamePasses left begun
        → ArePassesOf geometry image blocks begun
        → HasNamed size name bytes left
        → HasNamed size name bytes begun }
    ensures got { (size : ℕ) (name bytes : List ℕ) (geometry : Geometry) (image : Image) (blocks : ℕ → Block) (passes : List Pass) (got : List ℕ)
        → HasNamed size name bytes passes
        → AreShown (files geometry image blocks) passes
        → HasFile size (files geometry image blocks) name got
        → got ≡ bytes }
    // The premise of `kept`.
    ensures orderly_new { (size : ℕ) (passes : List Pass) → HasFolder size passes [] → IsOrderly size passes }
    ensures orderly_kept { (size : ℕ) (before after : List Pass) → IsOrderly size before → IsRunOn (λ name. Unit {0}) size before after → IsOrderly size after }
    ensures orderly_next { (size : ℕ) (geometry : Geometry) (image : Image) (blocks : ℕ → Block) (left begun : List Pass)
        → AreSamePasses left begun
        → ArePassesOf geometry image blocks begun
        → IsOrderly size left
        → IsOrderly size begun }
{}
