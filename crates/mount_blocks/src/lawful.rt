//! What a lawful image has of a file.
ghost use Rattle.std.specs.Prelude.{◌≡◌, ◌≢◌, ◌<◌, ◌≤◌, ℕ, true};
ghost use Rattle.geometry.specs.Weights.{weigh};
ghost use Rattle.geometry.specs.declared.owner.Mark.{Mark};
ghost use Rattle.image.specs.Image.{node_of};
ghost use Rattle.image.specs.Walk.{is_taken, walk};
ghost use Rattle.image.specs.Files.{data_address};
ghost use Rattle.image.specs.Rules.{IsLawful};
ghost use Rattle.image.specs.View.{image_view};
ghost use Rattle.mount_blocks.specs.FileLoaded.{FitsFile, file_names};
ghost use Rattle.std.specs.Prelude.{◌+◌, All, MatchOption};
ghost use Rattle.rights_books.specs.Lists.{sum_below};
ghost use Rattle.geometry.specs.Area.{block_count};
ghost use Rattle.geometry.specs.Owner.{IsOwner};
ghost use Rattle.image.specs.Walk.{names};
ghost use Rattle.mount_blocks.specs.Marked.{marked_owner, owned_weight};

use geometry::Geometry;
use image::Image;

/// Tells of an inode of a lawful image that all it names fits its place, that the blocks that are loaded with it are those
/// of its walk, each as often, and that no address of its stands past the length.
pub fn tell_lawful(geometry: &Geometry, image: &Image, inode: u32)
    requires lawful { IsLawful geometry.now (image_view image.now) }
    requires taken { is_taken (image_view image.now) inode ≡ true }
    requires inode { (1 ≤ inode) × (inode ≤ geometry.now.files) }
    ensures fits { FitsFile (image_view image.now) geometry.now.shape inode }
    ensures names { (h : Mark → ℕ) → file_names (image_view image.now) h inode ≡ weigh h (walk (image_view image.now) inode) }
    ensures lengths { (index : ℕ) → data_address geometry.now.shape (image_view image.now) inode index ≢ 0 → index < (node_of (image_view image.now) inode).length }
{
    let _geometry = geometry;
    let _image = image;
    let _inode = inode;
}

/// Tells that the blocks which the files of a lawful image name are those that it marks, each once, with the owner that the
/// summary tells.
pub fn tell_marks(geometry: &Geometry, image: &Image)
    requires { IsLawful geometry.now (image_view image.now) }
    ensures marks { (h : Mark → ℕ) → weigh h (names geometry.now (image_view image.now))
        ≡ sum_below (block_count geometry.now) (λ k. owned_weight h (k + 1) (marked_owner geometry.now (image_view image.now) (k + 1))) }
    ensures owners { All (λ (n : Mark). IsOwner n.owner) (names geometry.now (image_view image.now)) }
    ensures marked { (address : ℕ) → MatchOption (marked_owner geometry.now (image_view image.now) address) (Unit {0}) IsOwner }
{
    let _geometry = geometry;
    let _image = image;
}
