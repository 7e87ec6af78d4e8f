//! What the meta area of an image file holds, which changes only by what was written there.
ghost use Rattle.std.specs.Prelude.{◌≡◌, ◌+◌, ◌≤◌, length, true, false};
ghost use Rattle.device.specs.Disk.{Elapses, Follows, Holds, IsQuiet, Only, Torn};

use crate::store::{Settled, StoredRange};
use device::{MemMeta, Meta};

/// What the meta area holds that stands at the front of the file.
#[derive(Drop)]
pub struct KeptArea {
    pub area: MemMeta,
    /// Whether a write or a sync failed. Then no sync settles anything: the system may have dropped what was written, and tells
    /// that once.
    pub lost: bool,
}

impl KeptArea {
    /// The area holds what was written there.
    pub(crate) fn take(&mut self, written: StoredRange<'_>)
        requires { written.at + length written.bytes.now ≤ length (⟦<MemMeta as Meta>⟧.seen self.old.area) }
        ensures lost { self.new.lost ≡ self.old.lost }
        ensures written { Holds (⟦<MemMeta as Meta>⟧.seen self.old.area) written.entry.at written.entry.bytes.now (⟦<MemMeta as Meta>⟧.seen self.new.area) }
        ensures others { Torn written.entry.at (length written.entry.bytes.now) (⟦<MemMeta as Meta>⟧.seen self.old.area) (⟦<MemMeta as Meta>⟧.seen self.new.area) }
        ensures crash { Follows (Torn written.entry.at (length written.entry.bytes.now)) (⟦<MemMeta as Meta>⟧.may_leave self.old.area) (⟦<MemMeta as Meta>⟧.may_leave self.new.area) }
        ensures time { Elapses (⟦<MemMeta as Meta>⟧.moment self.old.area) (⟦<MemMeta as Meta>⟧.moment self.new.area) (⟦<MemMeta as Meta>⟧.left_since self.old.area) (⟦<MemMeta as Meta>⟧.left_since self.new.area) (⟦<MemMeta as Meta>⟧.may_leave self.new.area) }
    {
        let _done = self.area.write(written.at, written.bytes);
    }

    /// A write there failed: nobody knows what it left.
    pub(crate) fn spoil(&mut self, at: u64, bytes: &[u8])
        requires { at + length bytes.now ≤ length (⟦<MemMeta as Meta>⟧.seen self.old.area) }
        ensures lost { self.new.lost ≡ true }
        ensures others { Torn at (length bytes.now) (⟦<MemMeta as Meta>⟧.seen self.old.area) (⟦<MemMeta as Meta>⟧.seen self.new.area) }
        ensures crash { Follows (Torn at (length bytes.now)) (⟦<MemMeta as Meta>⟧.may_leave self.old.area) (⟦<MemMeta as Meta>⟧.may_leave self.new.area) }
        ensures time { Elapses (⟦<MemMeta as Meta>⟧.moment self.old.area) (⟦<MemMeta as Meta>⟧.moment self.new.area) (⟦<MemMeta as Meta>⟧.left_since self.old.area) (⟦<MemMeta as Meta>⟧.left_since self.new.area) (⟦<MemMeta as Meta>⟧.may_leave self.new.area) }
    {
        self.lost = true;
        let _done = self.area.write(at, bytes);
    }

    /// All that was written is settled, of which nothing was lost.
    pub(crate) fn settle(&mut self, _settled: Settled)
        requires whole { self.old.lost ≡ false }
        ensures lost { self.new.lost ≡ false }
        ensures durable { Only (⟦<MemMeta as Meta>⟧.seen self.old.area) (⟦<MemMeta as Meta>⟧.may_leave self.new.area) }
        ensures quiet { IsQuiet ⟦<MemMeta as Meta>⟧.seen ⟦<MemMeta as Meta>⟧.may_leave ⟦<MemMeta as Meta>⟧.moment ⟦<MemMeta as Meta>⟧.left_since self.old.area self.new.area }
    {
        let _done = self.area.sync();
    }
}
