//! An image that was taken of a volume, and is not written yet.
ghost use Rattle.std.specs.Prelude.{◌≡◌, ℕ, [], ◌∷◌};
ghost use Rattle.geometry.specs.File.{Block as Bytes};
ghost use Rattle.image.specs.Files.{file_of as image_file};
ghost use Rattle.nodes.specs.File.{IsFile, file_of};
ghost use Rattle.checkpoint_image.specs.View.{taken_view};
ghost use Rattle.checkpoint.specs.Files.{IsStateOf, HoldContents, files_of};

use crate::recorded::Recorded;
use checkpoint_image::TakenImage;
use device::Block;
use nodes::FileState;
use rights_books::Audit;

/// What a checkpoint is to record, as long as it is not written. It borrows the audit in which it was taken, and so all permits:
/// as long as it is there none is given back, and nothing that it names is released (Linux `filesystems/f2fs`: a checkpoint
/// blocks all operations). Otherwise a segment that lost its last block meanwhile came free with the pack that names its blocks.
#[derive(Drop)]
pub struct Taken<'g, B: Block> {
    pub(crate) recorded: Recorded<B>,
    pub(crate) audit: &'g Audit,
}

impl<'g, B: Block> Taken<'g, B> {
    /// An image that was taken in an audit, and no file of it.
    pub fn of(audit: &'g Audit, image: TakenImage) -> Taken<'g, B>
        ensures audit { result.audit.now ≡ audit.now }
        ensures image { result.recorded.image ≡ image }
        ensures files { files_of result.recorded.added.items ≡ [] }
    {
        let recorded = Recorded::of(image);
        Taken { recorded, audit }
    }

    /// Adds the file that a state's tickets show. Its kind, its length and the address at each index are those that the
    /// image has for its number, so it is the image's file wherever the main blocks hold what the tickets show.
    pub fn add(&mut self, file: &FileState<B>)
        requires { IsStateOf (taken_view self.old.recorded.image) file.now }
        ensures audit { self.new.audit ≡ self.old.audit }
        ensures image { self.new.recorded.image ≡ self.old.recorded.image }
        ensures of_image { IsFile file.now → (blocks : ℕ → Bytes) → HoldContents blocks file.now
            → image_file file.now.shape (taken_view self.old.recorded.image) blocks file.now.token.number ≡ file_of file.now }
        ensures files { files_of self.new.recorded.added.items ≡ (file.now.token.number, file_of file.now) ∷ files_of self.old.recorded.added.items }
    {
        self.recorded.add(file);
    }
}
