//! A log whose lock is held.
ghost use Rattle.std.specs.Prelude.{◌≡◌, ◌<◌};
ghost use Rattle.checkpoint_image.specs.Cells.{OpenApart};
ghost use Rattle.area.specs.Cells.{LogStands};
ghost use Rattle.checkpoint_sync.specs.LocksHeld.{IsHeldLog, open_in, opened_by};

use area::{LogCell, MainArea};
use checkpoint_image::HoldsLog;
use device::Block;
use rights_permits::VolumeName;
use std::marker::Model;
use std::sync::{MutexGuard, Wait};
use words::{StoredOpenSlip, Words};

/// A log whose lock is held, `{ number; slip }` to contracts: the slip is that of its open segment, where it has one. It is
/// let go where this is dropped.
pub struct HeldLog<'a, V: VolumeName> {
    pub(crate) cell: MutexGuard<'a, LogCell<V>>,
}

impl<'a, V: VolumeName> Model for HeldLog<'a, V> {
    ghost use Rattle.std.specs.Sync.Mutex.{mutex_guard_value};
    ghost use Rattle.checkpoint_sync.specs.LocksHeld.{LogView};

    ghost Value = { LogView };

    ghost view = { λ held. record { number = (mutex_guard_value held.cell).number; slip = (mutex_guard_value held.cell).slip } };
}

impl<'a, V: VolumeName> Drop for HeldLog<'a, V> {
    fn drop(self) {
        let HeldLog { cell } = self;
        drop(cell);
    }
}

impl<'a, V: VolumeName> HeldLog<'a, V> {
    /// Locks the log of this number.
    pub fn lock<B: Block + Drop + 'a, R: Wait>(
        rt: &R,
        area: &'a MainArea<V, B>,
        number: u32,
    ) -> HeldLog<'a, V>
        requires { number < 6 }
        ensures { IsHeldLog V.Words.words V.Numbers.geometry.segments number result }
    {
        HeldLog {
            cell: area.lock_log(rt, number),
        }
    }

    /// Shows that the open segments of two logs, where each has one, are two. Nothing changes.
    pub fn differ(&mut self, words: &Words, other: &mut HeldLog<'a, V>)
        requires words { words.now ≡ record { table = V.Words.words; segments = V.Numbers.geometry.segments } }
        ensures apart { OpenApart (open_in self.old) (open_in other.old) }
        ensures same { self.new ≡ self.old }
        ensures other { other.new ≡ other.old }
    {
        differ(words, &mut self.cell.slip, &mut other.cell.slip);
    }
}

impl<V: VolumeName> HoldsLog for HeldLog<'_, V> {
    ghost shown = { open_in };

    fn open_segment(&self) -> Option<u32> {
        match &self.cell.slip {
            Some(slip) => Some(slip.segment()),
            None => None,
        }
    }
}

// Shows that two slips of open segments, where they are there, are of two segments.
fn differ(words: &Words, one: &mut Option<StoredOpenSlip>, other: &mut Option<StoredOpenSlip>)
    requires one { LogStands words.now.table words.now.segments one.old }
    requires other { LogStands words.now.table words.now.segments other.old }
    ensures apart { OpenApart (opened_by one.old) (opened_by other.old) }
    ensures one { one.new ≡ one.old }
    ensures other { other.new ≡ other.old }
{
    if let Some(first) = one.take() {
        let mut first = first.restore();
        if let Some(second) = other.take() {
            let mut second = second.restore();
            words.differ(&mut first, &mut second);
            *other = Some(second.store());
        }
        *one = Some(first.store());
    }
}
