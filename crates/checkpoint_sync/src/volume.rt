//! The image of a whole volume.
ghost use Rattle.std.specs.Prelude.{◌≡◌, ◌≤◌, [], map, reverse, vec_len, IfOk, IfErr};
ghost use Rattle.geometry.specs.declared.error.Error.TheVariants.{NoMemory};
ghost use Rattle.image.specs.Pack.{body_bytes, pack_body};
ghost use Rattle.image.specs.Rules.{IsLawful};
ghost use Rattle.checkpoint_image.specs.Noting.{KeepsNumbers};
ghost use Rattle.checkpoint_image.specs.Touched.{AreTouched};
ghost use Rattle.checkpoint_image.specs.View.{taken_view};
ghost use Rattle.checkpoint.specs.Files.{files_of};
ghost use Rattle.checkpoint_sync.specs.WrittenFiles.{AreWritten};
ghost use Rattle.checkpoint_sync.specs.Lent.{shown_by};

use crate::area_image::take_image;
use crate::lent::add_files;
use crate::{HeldFile, release_files};
use area::{MainArea, Unsettled};
use checkpoint::Taken;
use checkpoint_image::KeptBody;
use device::Block;
use file_cells::FilePass;
use geometry::Error;
use rights_permits::{Auditing, VolumeName};
use std::sync::Wait;

/// Takes an image of this version of the whole volume, whose files' locks are held and whose nodes are all written, and with it the
/// file of each pass lent, the last one first. A fresh audit has all permits, so no call is under way; the image borrows it, so none
/// begins before the image is written. With it comes what there is to do with each segment. The locks are let go.
///
/// Answers NoMemory where a growth was refused. What the files are stays.
pub fn take_volume<'a, 'g, V: VolumeName + 'a, B: Block + Drop + 'a, R: Wait>(
    rt: &R,
    area: &MainArea<V, B>,
    files: Vec<HeldFile<'a, V, B>>,
    auditing: &'g mut Auditing<V::Books, V::Turns>,
    version: u32,
    passes: &[&FilePass<V>],
    kept: &mut KeptBody,
    unsettled: &mut Unsettled,
) -> Result<Taken<'g, B>, Error>
    requires fresh { auditing.old.audit ≡ record { book = V.Books.books.book; copies = [] } }
    requires files { AreWritten V.Books.books.book V.Numbers.geometry files.items }
    requires every { vec_len files ≡ V.Numbers.geometry.files }
    requires version { 1 ≤ version }
    requires kept { (kept.old.geometry ≡ V.Numbers.geometry) × (kept.old.rows ≡ V.Books.rows) }
    ensures permits { IfOk result (λ taken. taken.audit.now.book ≡ V.Books.books.book) }
    ensures version { IfOk result (λ taken. taken.recorded.image.tables.version ≡ version) }
    ensures geometry { IfOk result (λ taken. taken.recorded.image.geometry ≡ V.Numbers.geometry) }
    ensures lawful { IfOk result (λ taken. IsLawful V.Numbers.geometry (taken_view taken.recorded.image)) }
    ensures files { IfOk result (λ taken. files_of taken.recorded.added.items ≡ reverse (map (λ pass. shown_by pass.now) passes.now)) }
    ensures spelled { IfOk result (λ taken. kept.new.body.bytes.items ≡ pack_body V.Numbers.geometry.shape (taken_view taken.recorded.image)) }
    ensures touched { AreTouched (body_bytes V.Numbers.geometry) kept.old.body kept.new.body }
    ensures kept { KeepsNumbers kept.old kept.new }
    ensures error { IfErr result (λ error. error ≡ NoMemory) }
{
    let mut files = files;
    let taken = match take_image(rt, area, &mut files, auditing, version, kept, unsettled) {
        Ok(image) => Ok(add_files(area.books(), &auditing.audit, image, &files, passes)),
        Err(error) => Err(error),
    };
    release_files(files);
    taken
}
