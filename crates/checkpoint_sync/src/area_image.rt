//! The image of a main area and of files.
ghost use Rattle.std.specs.Prelude.{◌≡◌, ◌≤◌, [], map, vec_len, IfOk, IfErr};
ghost use Rattle.geometry.specs.declared.error.Error.TheVariants.{NoMemory};
ghost use Rattle.image.specs.Pack.{body_bytes, pack_body};
ghost use Rattle.image.specs.Rules.{IsLawful};
ghost use Rattle.rights_books.specs.Accounts.{AreFiles};
ghost use Rattle.checkpoint_image.specs.Noting.{KeepsNumbers};
ghost use Rattle.checkpoint_image.specs.Touched.{AreTouched};
ghost use Rattle.checkpoint_image.specs.View.{taken_view};
ghost use Rattle.checkpoint_sync.specs.LocksHeld.{AreHeldFiles, HasTrees};
ghost use Rattle.checkpoint_sync.specs.TakenFrom.{IsTakenFrom};

use crate::lock_area;
use area::{MainArea, Unsettled};
use checkpoint_image::{AuditedFile, KeptBody, TakenImage};
use device::Block;
use geometry::Error;
use rights_permits::{Auditing, VolumeName};
use std::sync::Wait;

/// Takes an image of this version, which the kept body spells then, of the main area and of all files, whose nodes are written, and which nobody changes
/// meanwhile. A fresh audit has all permits, so no call is under way, and all locks of the main area are held until the image is
/// whole. With it comes what there is to do with each segment. The files stay as they were.
///
/// The only error is NoMemory.
pub fn take_image<V: VolumeName, B: Block + Drop, F: AuditedFile, R: Wait>(
    rt: &R,
    area: &MainArea<V, B>,
    files: &mut Vec<F>,
    auditing: &mut Auditing<V::Books, V::Turns>,
    version: u32,
    kept: &mut KeptBody,
    unsettled: &mut Unsettled,
) -> Result<TakenImage, Error>
    requires fresh { auditing.old.audit ≡ record { book = V.Books.books.book; copies = [] } }
    requires accounts { AreFiles V.Books.books.book (map F.account files.old.items) }
    requires files { AreHeldFiles V.Numbers.geometry (map F.shown files.old.items) }
    requires every { vec_len files.old ≡ V.Numbers.geometry.files }
    requires version { 1 ≤ version }
    requires kept { (kept.old.geometry ≡ V.Numbers.geometry) × (kept.old.rows ≡ V.Books.rows) }
    ensures accounts { map F.account files.new.items ≡ map F.account files.old.items }
    ensures files { map F.shown files.new.items ≡ map F.shown files.old.items }
    ensures taken { IfOk result (λ image. IsTakenFrom V.Numbers.geometry (map F.shown files.old.items) (taken_view image)) }
    ensures trees { IfOk result (λ image. HasTrees (taken_view image) (map F.shown files.old.items)) }
    ensures version { IfOk result (λ image. image.tables.version ≡ version) }
    ensures geometry { IfOk result (λ image. image.geometry ≡ V.Numbers.geometry) }
    ensures lawful { IfOk result (λ image. IsLawful V.Numbers.geometry (taken_view image)) }
    ensures spelled { IfOk result (λ image. kept.new.body.bytes.items ≡ pack_body V.Numbers.geometry.shape (taken_view image)) }
    ensures touched { AreTouched (body_bytes V.Numbers.geometry) kept.old.body kept.new.body }
    ensures kept { KeepsNumbers kept.old kept.new }
    ensures error { IfErr result (λ error. error ≡ NoMemory) }
{
    let mut held = lock_area(rt, kept.alloc, area)?;
    held.find_unsettled(unsettled);
    held.take_image(
        area.books(),
        area.words(),
        &mut auditing.audit,
        kept,
        version,
        files,
    )
}
