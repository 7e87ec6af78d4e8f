//! A main area whose locks are all held.
ghost use Rattle.std.specs.Prelude.{◌≡◌, vec_len};
ghost use Rattle.checkpoint_sync.specs.Turned.{AreTurnsOf};

use crate::log::HeldLog;
use crate::segment::HeldSegment;
use crate::shard::HeldShard;
use area::Unsettled;
use device::Block;
use rights_permits::VolumeName;
use std::marker::Model;

/// All that lies under the locks of a main area: its segments, the shards of the node numbers, and its logs, each in the
/// order of their numbers and under its law. To contracts it is these rows. All locks are let go where this is dropped.
pub struct HeldArea<'a, V: VolumeName, B: Block + Drop + 'a> {
    pub(crate) segments: Vec<HeldSegment<'a, V, B>>,
    pub(crate) shards: Vec<HeldShard<'a, V, B>>,
    pub(crate) logs: Vec<HeldLog<'a, V>>,
}

impl<'a, V: VolumeName, B: Block + Drop + 'a> Model for HeldArea<'a, V, B> {
    ghost use Rattle.checkpoint_sync.specs.LocksHeld.{AreaView, IsHeldArea};

    ghost Value = { AreaView };

    ghost view = { λ a. record { segments = a.segments.items; shards = a.shards.items; logs = a.logs.items } };

    ghost invariant = { λ a. IsHeldArea V.Numbers.geometry V.Books.books.book V.Books.rows V.Words.words a.segments.items a.shards.items a.logs.items };
}

impl<'a, V: VolumeName, B: Block + Drop + 'a> HeldArea<'a, V, B> {
    /// Finds what a completed checkpoint has to do with each segment.
    pub fn find_unsettled(&self, unsettled: &mut Unsettled)
        ensures found { AreTurnsOf self.now.segments unsettled.new.turns.items }
        ensures count { vec_len unsettled.new.turns ≡ vec_len unsettled.old.turns }
    {
        for number in 0..self.segments.len() {
            unsettled.find(number as u32, self.segments[number].turn());
        }
    }
}

impl<'a, V: VolumeName, B: Block + Drop + 'a> Drop for HeldArea<'a, V, B> {
    fn drop(self) {
        let HeldArea {
            segments,
            shards,
            logs,
        } = self;
        drop(segments);
        drop(shards);
        drop(logs);
    }
}
