//! What a checkpoint records.
ghost use Rattle.std.specs.Prelude.{◌≡◌, ℕ, [], ◌∷◌, All};
ghost use Rattle.geometry.specs.File.{Block as Bytes};
ghost use Rattle.image.specs.Files.{file_of as image_file};
ghost use Rattle.nodes.specs.File.{IsFile, file_of};
ghost use Rattle.checkpoint_image.specs.View.{taken_view};
ghost use Rattle.checkpoint.specs.Files.{IsStateOf, HoldContents, files_of};

use checkpoint_image::TakenImage;
use device::Block;
use device::log::History;
use image::Image;
use nodes::FileState;

/// An image of a volume, with files of it that only clauses see: `files_of` gives each with its inode number, the latest first.
/// They take no memory.
#[derive(Drop)]
pub struct Recorded<B: Block> {
    pub(crate) image: TakenImage,
    pub(crate) added: History<u32, FileState<B>>,
    ghost of_image: { All (λ entry. IsStateOf (taken_view image) entry.1) added.items },
}

impl<B: Block> Recorded<B> {
    /// An image, and no file of it.
    pub(crate) fn of(image: TakenImage) -> Recorded<B>
        ensures image { result.image ≡ image }
        ensures files { files_of result.added.items ≡ [] }
    {
        let added = History::new();
        Recorded { image, added }
    }

    // Adds the file that a state's tickets show, which is the image's wherever the main blocks hold what the tickets show.
    pub(crate) fn add(&mut self, file: &FileState<B>)
        requires { IsStateOf (taken_view self.old.image) file.now }
        ensures image { self.new.image ≡ self.old.image }
        ensures of_image { IsFile file.now → (blocks : ℕ → Bytes) → HoldContents blocks file.now
            → image_file file.now.shape (taken_view self.old.image) blocks file.now.token.number ≡ file_of file.now }
        ensures files { files_of self.new.added.items ≡ (file.now.token.number, file_of file.now) ∷ files_of self.old.added.items }
    {
        let number = file.number();
        self.added = self.added.and(&number, file);
    }

    /// The tables that were taken.
    pub fn tables(&self) -> &Image
        ensures { result.now ≡ self.now.image.tables }
    {
        &self.image.tables
    }
}
