//! The audit learns all accounts, and settles.
ghost use Rattle.std.specs.Prelude.{◌≡◌, [], map, length};
ghost use Rattle.rights_books.specs.Accounts.{AreFiles};
ghost use Rattle.rights_books.specs.Rules.{Balanced};
ghost use Rattle.checkpoint_image.specs.Learning.{AreSegmentsOf, AreShardsOf, AreLearned};

use crate::audited::{AuditedFile, AuditedSegment, AuditedShard};
use crate::files::learn_files;
use crate::segments::learn_segments;
use crate::shards::learn_shards;
use device::Block;
use rights_books::{Audit, Books};

/// The audit, which has learned nothing yet, learns all accounts in ascending order, and settles: the marks are exactly the
/// tickets that are lodged, and the taken numbers those whose tokens are lodged. Nothing changes.
pub fn learn_all<B: Block + Drop, S: AuditedSegment<B>, H: AuditedShard<B>, F: AuditedFile>(
    books: &Books,
    audit: &mut Audit,
    segments: &mut Vec<S>,
    shards: &mut Vec<H>,
    files: &mut Vec<F>,
)
    requires audit { audit.old ≡ record { book = books.now.book; copies = [] } }
    requires segments { AreSegmentsOf books.now.book (map S.shown segments.old.items) }
    requires every_segment { length segments.old.items ≡ books.now.key.segments }
    requires shards { AreShardsOf books.now.book (map H.shown shards.old.items) }
    requires every_shard { length shards.old.items ≡ 16 }
    requires files { AreFiles books.now.book (map F.account files.old.items) }
    requires every_file { length files.old.items ≡ books.now.key.files }
    ensures book { audit.new.book ≡ audit.old.book }
    ensures balanced { Balanced audit.new.copies }
    ensures copies { AreLearned (map S.shown segments.old.items) (map H.shown shards.old.items) (map F.account files.old.items) audit.new.copies }
    ensures same_segments { map S.shown segments.new.items ≡ map S.shown segments.old.items }
    ensures same_shards { map H.shown shards.new.items ≡ map H.shown shards.old.items }
    ensures same_files { map F.shown files.new.items ≡ map F.shown files.old.items }
    ensures accounts { map F.account files.new.items ≡ map F.account files.old.items }
{
    learn_segments(books, audit, segments);
    learn_shards(books, audit, shards);
    learn_files(books, audit, files);
    books.settle(audit);
}
