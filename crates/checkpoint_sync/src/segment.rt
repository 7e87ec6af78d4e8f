//! A segment whose lock is held.
ghost use Rattle.std.specs.Prelude.{◌≡◌, ◌≢◌, ◌<◌, ◌↔◌, IsTrue, map, Some};
ghost use Rattle.geometry.specs.declared.state.State.TheVariants.{Open, Prefree};
ghost use Rattle.sit.specs.Summaries.{is_set};
ghost use Rattle.sit.specs.Registered.{slip_of};
ghost use Rattle.checkpoint_sync.specs.LocksHeld.{IsHeldSegment};

use crate::log::HeldLog;
use area::{MainArea, SegmentCell, SegmentTask};
use checkpoint_image::{AuditedSegment, HoldsSegment};
use device::Block;
use geometry::State;
use rights_books::{Audit, Books, KeptAccount, Rows};
use rights_permits::VolumeName;
use sit::SegmentState;
use std::marker::Model;
use std::sync::{MutexGuard, Wait};
use words::Words;

/// A segment whose lock is held, to contracts the segment with its rights. It is let go where this is dropped.
pub struct HeldSegment<'a, V: VolumeName, B: Block + Drop + 'a> {
    cell: MutexGuard<'a, SegmentCell<V, B>>,
}

impl<'a, V: VolumeName, B: Block + Drop + 'a> Model for HeldSegment<'a, V, B> {
    ghost use Rattle.std.specs.Sync.Mutex.{mutex_guard_value};
    ghost use Rattle.sit.specs.Registered.{Registered};

    ghost Value = { Registered };

    ghost view = { λ held. (mutex_guard_value held.cell).state };
}

impl<'a, V: VolumeName, B: Block + Drop + 'a> Drop for HeldSegment<'a, V, B> {
    fn drop(self) {
        let HeldSegment { cell } = self;
        drop(cell);
    }
}

impl<'a, V: VolumeName, B: Block + Drop + 'a> HeldSegment<'a, V, B> {
    /// Locks the segment of this number.
    pub fn lock<R: Wait>(rt: &R, area: &'a MainArea<V, B>, number: u32) -> HeldSegment<'a, V, B>
        requires { number < V.Numbers.geometry.segments }
        ensures held { IsHeldSegment V.Numbers.geometry V.Books.books.book V.Words.words number result }
        ensures part { result.part ≡ Some (record { book = V.Books.rows; number = number }) }
    {
        let cell = area.lock_segment(rt, number);
        cell.state.law();
        HeldSegment { cell }
    }

    /// Shows that the segment is open, where a log has its slip. Nothing changes.
    pub fn show_open(&mut self, words: &Words, log: &mut HeldLog<'a, V>)
        requires words { words.now.table ≡ self.old.table }
        requires slip { log.old.slip ≡ Some (slip_of self.old) }
        ensures state { self.old.segment.state ≡ Open }
        ensures same { self.new ≡ self.old }
        ensures log { log.new ≡ log.old }
    {
        self.cell.state.show_open(words, &mut log.cell.slip);
    }

    /// What a completed checkpoint has to do with it.
    pub fn turn(&self) -> SegmentTask
        ensures keep { IsTrue result.keep ↔ (self.now.segment.thread.kept ≢ map is_set self.now.segment.summaries) }
        ensures free { IsTrue result.free ↔ (self.now.segment.state ≡ Prefree) }
    {
        let state = &self.cell.state;
        SegmentTask {
            keep: !state.is_kept(),
            free: state.state() == State::Prefree,
        }
    }
}

impl<'a, V: VolumeName, B: Block + Drop + 'a> HoldsSegment<B> for HeldSegment<'a, V, B> {
    ghost shown = { λ held. held };

    fn segment(&self) -> &SegmentState<B> {
        &self.cell.state
    }
}

impl<'a, V: VolumeName, B: Block + Drop + 'a> AuditedSegment<B> for HeldSegment<'a, V, B> {
    fn learn(&mut self, books: &Books, audit: &mut Audit) {
        self.cell.state.learn(books, audit);
    }

    fn note(&mut self, rows: &Rows, kept: &mut KeptAccount) {
        self.cell.state.note(rows, kept);
    }
}
