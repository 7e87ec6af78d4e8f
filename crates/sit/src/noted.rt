//! What a checkpoint pack spells of a segment, and whether it was noted.
ghost use Rattle.std.specs.Prelude.{◌≡◌, true, Some, None};
ghost use Rattle.rights_books.specs.PartRow.{name_of};
ghost use Rattle.sit.specs.Noted.{segment_row};

use crate::body::Body;
use crate::segment::SegmentState;
use device::Block;
use rights_books::{KeptAccount, PartAccount, Rows, Spelled};

impl<B: Block + Drop> Spelled for Body<B> {
    ghost spelled = { segment_row };
}

impl<B: Block + Drop> SegmentState<B> {
    /// It has this account of its row from now on.
    pub fn attach(&mut self, account: PartAccount)
        ensures { self.new ≡ record self.old { part = Some (name_of account) } }
    {
        self.row.attach(account);
    }

    /// Whether the packs' lock, in which the twin of its account lies, has its row as it is now: it is so where the segment has
    /// not changed since `note`. It takes no step.
    pub fn is_noted(&self, rows: &Rows, kept: &KeptAccount) -> bool
        requires rows { kept.now.book ≡ rows.now }
        requires twin { self.now.part ≡ Some (name_of kept.now) }
        ensures noted { result ≡ true → kept.now.row ≡ segment_row self.now.segment }
    {
        self.row.is_noted(rows, kept)
    }

    /// Notes its row as it is now, here and in the packs' lock.
    pub fn note(&mut self, rows: &Rows, kept: &mut KeptAccount)
        requires rows { kept.old.book ≡ rows.now }
        requires twin { self.old.part ≡ Some (name_of kept.old) }
        ensures same { self.new ≡ self.old }
        ensures kept { kept.new ≡ record kept.old { row = segment_row self.old.segment } }
    {
        self.row.note(rows, kept, &self.body);
    }
}
