//! What holds an account of the books beside what it is of, as the guard of a lock does.
ghost use Rattle.std.specs.Prelude.{◌≡◌, ◌∷◌, List, Some};
ghost use Rattle.geometry.specs.Weights.{weigh};
ghost use Rattle.rights_books.specs.declared.claim.Copied.TheVariants.{FileCopy, ShardCopy};
ghost use Rattle.rights_books.specs.Accounts.{FileView};
ghost use Rattle.rights_books.specs.Weights.{segment_copy, file_copy, shard_copy, past};
ghost use Rattle.rights_books.specs.PartRow.{name_of};
ghost use Rattle.nat.specs.Noted.{shard_row};
ghost use Rattle.sit.specs.Learned.{HasLearned};
ghost use Rattle.sit.specs.Noted.{segment_row};

use crate::{HoldsFile, HoldsSegment, HoldsShard};
use device::Block;
use nat::Shard;
use rights_books::{Audit, Books, KeptAccount, Rows};
use sit::SegmentState;

/// What holds a segment with its account.
pub trait AuditedSegment<B: Block + Drop>: HoldsSegment<B> {
    /// An audit learns its valid blocks. It goes by ascending numbers.
    fn learn(&mut self, books: &Books, audit: &mut Audit)
        requires book { (Self.shown self.old).book ≡ books.now.book }
        requires audit { audit.old.book ≡ books.now.book }
        requires ascending { weigh (segment_copy (past (Self.shown self.old).segment.number)) audit.old.copies ≡ 0 }
        ensures same { Self.shown self.new ≡ Self.shown self.old }
        ensures audit { HasLearned (Self.shown self.old).segment audit.old audit.new };

    /// Its row is noted as it is now, with it and in the twin of its account.
    fn note(&mut self, rows: &Rows, kept: &mut KeptAccount)
        requires rows { kept.old.book ≡ rows.now }
        requires twin { (Self.shown self.old).part ≡ Some (name_of kept.old) }
        ensures same { Self.shown self.new ≡ Self.shown self.old }
        ensures kept { kept.new ≡ record kept.old { row = segment_row (Self.shown self.old).segment } };
}

impl<B: Block + Drop> AuditedSegment<B> for SegmentState<B> {
    fn learn(&mut self, books: &Books, audit: &mut Audit) {
        SegmentState::learn(self, books, audit);
    }

    fn note(&mut self, rows: &Rows, kept: &mut KeptAccount) {
        SegmentState::note(self, rows, kept);
    }
}

/// What holds a shard of the node numbers with its account.
pub trait AuditedShard<B: Block + Drop>: HoldsShard<B> {
    /// An audit learns its taken numbers. It goes by ascending numbers of shards.
    fn learn(&mut self, books: &Books, audit: &mut Audit)
        requires book { (Self.shown self.old).book ≡ books.now.book }
        requires audit { audit.old.book ≡ books.now.book }
        requires ascending { weigh (shard_copy (past (Self.shown self.old).shard)) audit.old.copies ≡ 0 }
        ensures same { Self.shown self.new ≡ Self.shown self.old }
        ensures audit { audit.new ≡ record audit.old { copies = ShardCopy (Self.shown self.old).shard (Self.shown self.old).taken ∷ audit.old.copies } };

    /// Its row is noted as it is now, with it and in the twin of its account.
    fn note(&mut self, rows: &Rows, kept: &mut KeptAccount)
        requires rows { kept.old.book ≡ rows.now }
        requires twin { (Self.shown self.old).part ≡ Some (name_of kept.old) }
        ensures same { Self.shown self.new ≡ Self.shown self.old }
        ensures kept { kept.new ≡ record kept.old { row = shard_row (Self.shown self.old).taken } };
}

impl<B: Block + Drop> AuditedShard<B> for Shard<B> {
    fn learn(&mut self, books: &Books, audit: &mut Audit) {
        Shard::learn(self, books, audit);
    }

    fn note(&mut self, rows: &Rows, kept: &mut KeptAccount) {
        Shard::note(self, rows, kept);
    }
}

/// What holds a file's account, whether the file lives or not.
pub trait AuditedFile: HoldsFile {
    ghost account: { Self → FileView };

    /// An audit learns what is lodged in it. It goes by ascending inode numbers.
    fn learn(&mut self, books: &Books, audit: &mut Audit)
        requires book { (account self.old).book ≡ books.now.book }
        requires audit { audit.old.book ≡ books.now.book }
        requires ascending { weigh (file_copy (past (account self.old).inode)) audit.old.copies ≡ 0 }
        ensures same { Self.shown self.new ≡ Self.shown self.old }
        ensures account { account self.new ≡ account self.old }
        ensures audit { audit.new ≡ record audit.old { copies = FileCopy (account self.old).inode (account self.old).tickets (account self.old).tokens ∷ audit.old.copies } };

    ghost lodged: { (f : Self) → ((Self.shown f).tickets ≡ (account f).tickets) × ((Self.shown f).tokens ≡ (account f).tokens) };
}
