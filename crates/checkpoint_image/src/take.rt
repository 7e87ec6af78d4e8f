//! The audit, and the image.
ghost use Rattle.std.specs.Prelude.{◌≡◌, ◌≤◌, [], map, IfOk, IfErr};
ghost use Rattle.geometry.specs.declared.error.Error.TheVariants.{NoMemory};
ghost use Rattle.rights_books.specs.Accounts.{AreFiles};
ghost use Rattle.image.specs.Pack.{body_bytes, pack_body};
ghost use Rattle.image_law.specs.Parts.{IsImageOf};
ghost use Rattle.checkpoint_image.specs.Cells.{CellsLaw, parts_of};
ghost use Rattle.checkpoint_image.specs.PartsLaw.{ArePartsOf, IsFaithfulImage};
ghost use Rattle.checkpoint_image.specs.Held.{cells_in};
ghost use Rattle.checkpoint_image.specs.Kept.{AreSegmentParts, AreShardParts};
ghost use Rattle.checkpoint_image.specs.Learning.{AreSegmentsOf, AreShardsOf};
ghost use Rattle.checkpoint_image.specs.Noting.{KeepsNumbers};
ghost use Rattle.checkpoint_image.specs.Touched.{AreTouched};
ghost use Rattle.checkpoint_image.specs.View.{taken_view};

use crate::{
    AuditedFile, AuditedSegment, AuditedShard, HoldsLog, KeptBody, TakenImage, learn_all,
    take_image,
};
use device::Block;
use geometry::Error;
use rights_books::{Audit, Books};

/// Takes an image of this version of all that is held: the audit, which all permits are in, learns each account, so nothing
/// is in flight; then what has changed since the last image is spelled into the kept body, which is the body of a pack with this
/// image from then on. The image keeps all ten rules, has the files' contents whatever the main blocks hold,
/// and names exactly what is marked (Linux `filesystems/f2fs`, checkpoint). What is held stays as it was.
///
/// The only error is NoMemory: then the kept body may spell some parts as they are, and others as they were.
pub fn take_audited<
    B: Block + Drop,
    S: AuditedSegment<B>,
    H: AuditedShard<B>,
    L: HoldsLog,
    F: AuditedFile,
>(
    books: &Books,
    audit: &mut Audit,
    kept: &mut KeptBody,
    version: u32,
    segments: &mut Vec<S>,
    shards: &mut Vec<H>,
    logs: &Vec<L>,
    files: &mut Vec<F>,
) -> Result<TakenImage, Error>
    requires version { 1 ≤ version }
    requires audit { audit.old ≡ record { book = books.now.book; copies = [] } }
    requires layout { (books.now.key.segments ≡ kept.old.geometry.segments) × (books.now.key.files ≡ kept.old.geometry.files) }
    requires segments { AreSegmentsOf books.now.book (map S.shown segments.old.items) }
    requires shards { AreShardsOf books.now.book (map H.shown shards.old.items) }
    requires files { AreFiles books.now.book (map F.account files.old.items) }
    requires segment_parts { AreSegmentParts kept.old.rows (map S.shown segments.old.items) }
    requires shard_parts { AreShardParts kept.old.rows kept.old.geometry.segments (map H.shown shards.old.items) }
    requires cells { CellsLaw kept.old.geometry (cells_in S.shown H.shown L.shown F.shown segments.old.items shards.old.items logs.now.items files.old.items) }
    ensures book { audit.new.book ≡ audit.old.book }
    ensures same_segments { map S.shown segments.new.items ≡ map S.shown segments.old.items }
    ensures same_shards { map H.shown shards.new.items ≡ map H.shown shards.old.items }
    ensures same_files { map F.shown files.new.items ≡ map F.shown files.old.items }
    ensures accounts { map F.account files.new.items ≡ map F.account files.old.items }
    ensures parts { ArePartsOf kept.old.geometry (cells_in S.shown H.shown L.shown F.shown segments.old.items shards.old.items logs.now.items files.old.items) }
    ensures version { IfOk result (λ image. image.tables.version ≡ version) }
    ensures geometry { IfOk result (λ image. image.geometry ≡ kept.old.geometry) }
    ensures image { IfOk result (λ image. IsImageOf kept.old.geometry (parts_of (cells_in S.shown H.shown L.shown F.shown segments.old.items shards.old.items logs.now.items files.old.items)) (taken_view image)) }
    ensures faithful { IfOk result (λ image. IsFaithfulImage kept.old.geometry (parts_of (cells_in S.shown H.shown L.shown F.shown segments.old.items shards.old.items logs.now.items files.old.items)) (taken_view image)) }
    ensures spelled { IfOk result (λ image. kept.new.body.bytes.items ≡ pack_body kept.old.geometry.shape (taken_view image)) }
    ensures touched { AreTouched (body_bytes kept.old.geometry) kept.old.body kept.new.body }
    ensures numbers { KeepsNumbers kept.old kept.new }
    ensures err { IfErr result (λ error. error ≡ NoMemory) }
{
    learn_all(books, audit, segments, shards, files);
    kept.note_all(segments, shards)?;
    take_image(
        kept,
        version,
        segments.as_slice(),
        shards.as_slice(),
        logs.as_slice(),
        files.as_slice(),
    )
}
