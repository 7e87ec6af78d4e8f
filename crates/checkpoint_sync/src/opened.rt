//! The open segment of each log is open.
ghost use Rattle.std.specs.Prelude.{◌≡◌, map, All, IfSome, length};
ghost use Rattle.checkpoint_image.specs.Cells.{IsOpenAt};
ghost use Rattle.checkpoint_sync.specs.LocksHeld.{AreHeldSegments, AreHeldLogs, open_in};

use crate::log::HeldLog;
use crate::segment::HeldSegment;
use checkpoint_image::HoldsLog;
use device::Block;
use rights_permits::VolumeName;
use words::Words;

/// Shows it of all logs. Nothing changes, and it takes no memory.
pub(crate) fn show_open<'a, V: VolumeName, B: Block + Drop + 'a>(
    words: &Words,
    segments: &mut Vec<HeldSegment<'a, V, B>>,
    logs: &mut Vec<HeldLog<'a, V>>,
)
    requires words { words.now.table ≡ V.Words.words }
    requires segments { AreHeldSegments V.Numbers.geometry V.Books.books.book V.Words.words segments.old.items }
    requires every { length segments.old.items ≡ V.Numbers.geometry.segments }
    requires logs { AreHeldLogs V.Words.words V.Numbers.geometry.segments logs.old.items }
    ensures open_there { All (λ log. IfSome log (IsOpenAt (map (λ r. r.segment) segments.old.items))) (map open_in logs.old.items) }
    ensures segments { segments.new.items ≡ segments.old.items }
    ensures logs { logs.new.items ≡ logs.old.items }
{
    for k in 0..logs.len() {
        match logs[k].open_segment() {
            Some(number) => segments[number as usize].show_open(words, &mut logs[k]),
            None => {}
        }
    }
}
