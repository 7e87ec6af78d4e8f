//! The files of the passes that are lent to a checkpoint.
ghost use Rattle.std.specs.Prelude.{◌≡◌, map, reverse, vec_len};
ghost use Rattle.rights_books.specs.Accounts.{AreFiles};
ghost use Rattle.checkpoint_image.specs.View.{taken_view};
ghost use Rattle.checkpoint_sync.specs.FileParts.{filed_of};
ghost use Rattle.checkpoint_sync.specs.LocksHeld.{HasTrees};
ghost use Rattle.checkpoint.specs.Files.{files_of};
ghost use Rattle.checkpoint_sync.specs.Lent.{shown_by};

use crate::HeldFile;
use checkpoint::Taken;
use checkpoint_image::TakenImage;
use device::Block;
use file_cells::FilePass;
use rights_books::{Audit, Books};
use rights_permits::VolumeName;

// An image, which has the trees of all files, and with it the file of each pass, the last one first.
pub(crate) fn add_files<'a, 'g, V: VolumeName + 'a, B: Block + Drop + 'a>(
    books: &Books,
    audit: &'g Audit,
    image: TakenImage,
    files: &Vec<HeldFile<'a, V, B>>,
    passes: &[&FilePass<V>],
) -> Taken<'g, B>
    requires books { books.now ≡ V.Books.books }
    requires every { vec_len files.now ≡ V.Numbers.geometry.files }
    requires accounts { AreFiles V.Books.books.book (map (λ file. file.account) files.now.items) }
    requires trees { HasTrees (taken_view image) (map (λ file. filed_of file.account file.state) files.now.items) }
    ensures audit { result.audit.now ≡ audit.now }
    ensures image { result.recorded.image ≡ image }
    ensures files { files_of result.recorded.added.items ≡ reverse (map (λ pass. shown_by pass.now) passes.now) }
{
    let mut taken = Taken::of(audit, image);
    for k in 0..passes.len() {
        let pass = passes[k];
        let file = &files[pass.number() as usize - 1];
        file.law();
        taken.add(file.find(books, pass));
    }
    taken
}
