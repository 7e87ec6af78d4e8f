//! The image of a main area and of files.
ghost use Rattle.std.specs.Prelude.{◌≡◌, ◌≤◌, [], map, vec_len, IfOk, IfErr};
ghost use Rattle.geometry.specs.declared.error.Error.TheVariants.{NoMemory};
ghost use Rattle.rights_books.specs.Accounts.{AreFiles};
ghost use Rattle.rights_permits.specs.Names.{layout_of};
ghost use Rattle.image.specs.Rules.{IsInRange, IsLawful};
ghost use Rattle.image.specs.Pack.{body_bytes, pack_body};
ghost use Rattle.image_law.specs.Parts.{IsImageOf};
ghost use Rattle.checkpoint_image.specs.Cells.{parts_of};
ghost use Rattle.checkpoint_image.specs.Noting.{KeepsNumbers};
ghost use Rattle.checkpoint_image.specs.PartsLaw.{ArePartsOf, IsFaithfulImage};
ghost use Rattle.checkpoint_image.specs.Touched.{AreTouched};
ghost use Rattle.checkpoint_image.specs.View.{taken_view};
ghost use Rattle.checkpoint_sync.specs.LocksHeld.{AreHeldFiles, held_cells, HasTrees};

use crate::apart::show_apart;
use crate::locked_area::HeldArea;
use crate::opened::show_open;
use checkpoint_image::{AuditedFile, KeptBody, TakenImage, take_audited};
use device::Block;
use geometry::Error;
use rights_books::{Audit, Books};
use rights_permits::VolumeName;
use words::Words;

impl<'a, V: VolumeName, B: Block + Drop + 'a> HeldArea<'a, V, B> {
    /// Takes an image of this version of all that is held, and of the files, whose locks are held too: first the words show
    /// that each log's open segment is open, and that no two logs have the same; then the audit, which all permits are in,
    /// learns each account, so nothing is in flight; then what has changed is spelled into the kept body, which has this image then. The image keeps all ten rules, so each number in it
    /// is in its range; it has each file's index tree, and names exactly what is marked (Linux `filesystems/f2fs`,
    /// checkpoint). What is held stays as it was.
    ///
    /// The only error is NoMemory.
    pub fn take_image<F: AuditedFile>(
        &mut self,
        books: &Books,
        words: &Words,
        audit: &mut Audit,
        kept: &mut KeptBody,
        version: u32,
        files: &mut Vec<F>,
    ) -> Result<TakenImage, Error>
        requires version { 1 ≤ version }
        requires books { books.now ≡ V.Books.books }
        requires layout { V.Books.books.key ≡ layout_of V.Numbers.geometry }
        requires words { words.now ≡ record { table = V.Words.words; segments = V.Numbers.geometry.segments } }
        requires kept { (kept.old.geometry ≡ V.Numbers.geometry) × (kept.old.rows ≡ V.Books.rows) }
        requires audit { audit.old ≡ record { book = V.Books.books.book; copies = [] } }
        requires accounts { AreFiles V.Books.books.book (map F.account files.old.items) }
        requires every_file { vec_len files.old ≡ V.Numbers.geometry.files }
        requires files { AreHeldFiles V.Numbers.geometry (map F.shown files.old.items) }
        ensures book { audit.new.book ≡ audit.old.book }
        ensures same { self.new ≡ self.old }
        ensures files { map F.shown files.new.items ≡ map F.shown files.old.items }
        ensures accounts { map F.account files.new.items ≡ map F.account files.old.items }
        ensures parts { ArePartsOf V.Numbers.geometry (held_cells F.shown self.old files.old.items) }
        ensures version { IfOk result (λ image. image.tables.version ≡ version) }
        ensures geometry { IfOk result (λ image. image.geometry ≡ V.Numbers.geometry) }
        ensures image { IfOk result (λ image. IsImageOf V.Numbers.geometry (parts_of (held_cells F.shown self.old files.old.items)) (taken_view image)) }
        ensures faithful { IfOk result (λ image. IsFaithfulImage V.Numbers.geometry (parts_of (held_cells F.shown self.old files.old.items)) (taken_view image)) }
        ensures lawful { IfOk result (λ image. IsLawful V.Numbers.geometry (taken_view image)) }
        ensures in_range { IfOk result (λ image. IsInRange V.Numbers.geometry (taken_view image)) }
        ensures trees { IfOk result (λ image. HasTrees (taken_view image) (map F.shown files.old.items)) }
        ensures spelled { IfOk result (λ image. kept.new.body.bytes.items ≡ pack_body V.Numbers.geometry.shape (taken_view image)) }
        ensures touched { AreTouched (body_bytes V.Numbers.geometry) kept.old.body kept.new.body }
        ensures kept { KeepsNumbers kept.old kept.new }
        ensures error { IfErr result (λ error. error ≡ NoMemory) }
    {
        show_open(words, &mut self.segments, &mut self.logs);
        show_apart(words, &mut self.logs);
        take_audited(
            books,
            audit,
            kept,
            version,
            &mut self.segments,
            &mut self.shards,
            &self.logs,
            files,
        )
    }
}
