//! The audit learns all segments.
ghost use Rattle.std.specs.Prelude.{◌≡◌, ℕ, map};
ghost use Rattle.geometry.specs.Weights.{weigh};
ghost use Rattle.rights_books.specs.Weights.{segment_copy};
ghost use Rattle.checkpoint_image.specs.Learning.{AreSegmentsOf, HaveLearnedSegments};

use crate::audited::AuditedSegment;
use device::Block;
use rights_books::{Audit, Books};

/// The audit learns the valid blocks of all segments. It has learned of no segment before.
pub fn learn_segments<B: Block + Drop, S: AuditedSegment<B>>(
    books: &Books,
    audit: &mut Audit,
    segments: &mut Vec<S>,
)
    requires book { audit.old.book ≡ books.now.book }
    requires segments { AreSegmentsOf books.now.book (map S.shown segments.old.items) }
    requires none { weigh (segment_copy (λ n. 1)) audit.old.copies ≡ 0 }
    ensures same { map S.shown segments.new.items ≡ map S.shown segments.old.items }
    ensures audit { HaveLearnedSegments (map S.shown segments.old.items) audit.old audit.new }
{
    for i in 0..segments.len() {
        segments[i].learn(books, audit);
    }
}
