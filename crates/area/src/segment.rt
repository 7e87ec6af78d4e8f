//! One segment is freed.
ghost use Rattle.std.specs.Prelude.{◌≡◌, MatchOption, IfSome};
ghost use Rattle.area.specs.Freed.{HasFreed, HasStayed};

use crate::SegmentCell;
use device::Block;
use geometry::State;
use rights_permits::VolumeName;
use words::{FreeSlip, Words};

/// Frees a segment that is retired, in its lock, and answers its one free slip. It answers `None`, and the segment stays in
/// its state, where it is not retired, where a pin is out, or where no version is complete that is later than the one in
/// which it was retired. It takes no memory.
pub fn free_segment<V: VolumeName, B: Block + Drop>(
    words: &Words,
    cell: &mut SegmentCell<V, B>,
) -> Option<FreeSlip>
    requires words { words.now.table ≡ V.Words.words }
    ensures words { IfSome result (λ slip. slip.table ≡ V.Words.words) }
    ensures freed { MatchOption result (HasStayed cell.old.state cell.new.state) (λ slip. HasFreed cell.old.state slip cell.new.state) }
    ensures number { cell.new.number ≡ cell.old.number }
{
    match cell.state.state() {
        State::Prefree => cell.state.free(words),
        State::Free | State::Open | State::Sealed => None,
    }
}
