//! All permits in one hand show that nothing is in flight.
ghost use Rattle.std.specs.Prelude.{◌≡◌, ℕ, ◌+◌, ◌<◌, [], ◌∷◌, length};
ghost use Rattle.geometry.specs.declared.owner.Mark.{Mark};
ghost use Rattle.geometry.specs.Weights.{weigh};
ghost use Rattle.rights_books.specs.declared.claim.TakenNumber.{TakenNumber};
ghost use Rattle.rights_books.specs.declared.claim.Copied.{Copied};
ghost use Rattle.rights_books.specs.declared.claim.Copied.TheVariants.{SegmentCopy, FileCopy, ShardCopy};
ghost use Rattle.rights_books.specs.Accounts.{AreSegments, AreFiles, AreShards};
ghost use Rattle.rights_books.specs.Weights.{segment_copy, file_copy, shard_copy, past, of_entry};
ghost use Rattle.rights_books.specs.Rules.{IsComplete, Balanced};

use crate::account::{Audit, CallAccount, FileAccount, Permits, SegmentAccount, ShardAccount};
use crate::books::Books;
use std::marker::Brand;

impl Books {
    /// A permit with nothing in hand, as a bundle of one.
    pub fn pool(&self, hand: CallAccount) -> Permits
        requires book { hand.book ≡ self.now.book }
        requires tickets { hand.tickets ≡ [] }
        requires tokens { hand.tokens ≡ [] }
        ensures { result ≡ record { book = self.now.book; count = 1 } }
    {
        let CallAccount { holder } = hand;
        Permits { holder, count: 1 }
    }

    /// One more permit with nothing in hand goes into the bundle.
    pub fn add(&self, permits: Permits, hand: CallAccount) -> Permits
        requires books { (permits.book ≡ self.now.book) × (hand.book ≡ self.now.book) }
        requires room { permits.count < 64 }
        requires tickets { hand.tickets ≡ [] }
        requires tokens { hand.tokens ≡ [] }
        ensures { result ≡ record { book = self.now.book; count = permits.count + 1 } }
    {
        let Permits {
            holder: others,
            count,
        } = permits;
        let CallAccount { mut holder } = hand;
        self.book.join(&mut holder, others);
        Permits {
            holder,
            count: count + 1,
        }
    }

    /// A permit with nothing in hand goes out of the bundle.
    pub fn take_permit(&self, permits: Permits) -> (Permits, CallAccount)
        requires book { permits.book ≡ self.now.book }
        requires some { 0 < permits.count }
        ensures book { result.0.book ≡ self.now.book }
        ensures permits { result.0.count + 1 ≡ permits.count }
        ensures hand { result.1 ≡ record { book = self.now.book; tickets = []; tokens = [] } }
    {
        let Permits { mut holder, count } = permits;
        let rest = self.book.part(&mut holder, 1);
        (
            Permits {
                holder: rest,
                count: count - 1,
            },
            CallAccount { holder },
        )
    }

    /// Begins an audit, with all 64 permits. No call has any while it lasts, so nothing that it learns of an account's
    /// marks, tickets and tokens gets stale.
    pub fn audit(&self, permits: Permits) -> Audit
        requires book { permits.book ≡ self.now.book }
        requires all { permits.count ≡ 64 }
        ensures { result ≡ record { book = self.now.book; copies = [] } }
    {
        let Permits {
            mut holder,
            count: _,
        } = permits;
        self.book.step::<Brand>(&mut holder);
        Audit { holder }
    }

    /// Ends an audit, and gives all 64 permits back.
    pub fn end_audit(&self, audit: Audit) -> Permits
        requires { audit.book ≡ self.now.book }
        ensures { result ≡ record { book = self.now.book; count = 64 } }
    {
        let Audit { holder: mut census } = audit;
        self.book.step::<Brand>(&mut census);
        Permits {
            holder: census,
            count: 64,
        }
    }

    /// The audit learns what a segment has. It goes by ascending numbers.
    pub fn learn_segment(&self, audit: &mut Audit, segment: &mut SegmentAccount)
        requires books { (audit.old.book ≡ self.now.book) × (segment.old.book ≡ self.now.book) }
        requires ascending { weigh (segment_copy (past segment.old.segment)) audit.old.copies ≡ 0 }
        ensures audit { audit.new ≡ record audit.old {
          copies = SegmentCopy segment.old.segment segment.old.marks ∷ audit.old.copies;
        } }
        ensures segment { segment.new ≡ segment.old }
    {
        self.exchange::<(), Brand>(&mut audit.holder, &mut segment.holder, &());
    }

    /// The audit learns what a file has. It goes by ascending numbers. What the file's pass shows may change while the audit
    /// lasts, so it is not learned: `compare` tells it.
    pub fn learn_file(&self, audit: &mut Audit, file: &mut FileAccount)
        requires books { (audit.old.book ≡ self.now.book) × (file.old.book ≡ self.now.book) }
        requires ascending { weigh (file_copy (past file.old.inode)) audit.old.copies ≡ 0 }
        ensures audit { audit.new ≡ record audit.old {
          copies = FileCopy file.old.inode file.old.tickets file.old.tokens ∷ audit.old.copies;
        } }
        ensures file { file.new ≡ file.old }
    {
        self.exchange::<(), Brand>(&mut audit.holder, &mut file.holder, &());
    }

    /// The audit learns what a shard has. It goes by ascending numbers.
    pub fn learn_shard(&self, audit: &mut Audit, shard: &mut ShardAccount)
        requires books { (audit.old.book ≡ self.now.book) × (shard.old.book ≡ self.now.book) }
        requires ascending { weigh (shard_copy (past shard.old.shard)) audit.old.copies ≡ 0 }
        ensures audit { audit.new ≡ record audit.old {
          copies = ShardCopy shard.old.shard shard.old.taken ∷ audit.old.copies;
        } }
        ensures shard { shard.new ≡ shard.old }
    {
        self.exchange::<(), Brand>(&mut audit.holder, &mut shard.holder, &());
    }

    /// Tells, once each segment, file and shard was learned, that the marks are the tickets that are lodged, and the taken
    /// numbers those whose tokens are lodged. Nothing changes.
    pub fn settle(&self, audit: &mut Audit)
        requires book { audit.old.book ≡ self.now.book }
        requires complete { IsComplete self.now.key audit.old.copies }
        ensures balanced { Balanced audit.old.copies }
        ensures audit { audit.new ≡ audit.old }
    {
        self.book.step::<Brand>(&mut audit.holder);
    }

    /// The audit learns what all segments have. It has learned of no segment before.
    pub fn learn_segments(&self, audit: &mut Audit, segments: &mut Vec<SegmentAccount>)
        requires book { audit.old.book ≡ self.now.book }
        requires segments { AreSegments self.now.book segments.old.items }
        requires none { weigh (segment_copy (λ n. 1)) audit.old.copies ≡ 0 }
        ensures book { audit.new.book ≡ audit.old.book }
        ensures copies { (h : Copied → ℕ) → weigh h audit.new.copies
            ≡ weigh (λ v. h (SegmentCopy v.segment v.marks)) segments.old.items + weigh h audit.old.copies }
        ensures same { segments.new.items ≡ segments.old.items }
    {
        for i in 0..segments.len() {
            self.learn_segment(audit, &mut segments[i]);
        }
    }

    /// The audit learns what all files have. It has learned of no file before.
    pub fn learn_files(&self, audit: &mut Audit, files: &mut Vec<FileAccount>)
        requires book { audit.old.book ≡ self.now.book }
        requires files { AreFiles self.now.book files.old.items }
        requires none { weigh (file_copy (λ n. 1)) audit.old.copies ≡ 0 }
        ensures book { audit.new.book ≡ audit.old.book }
        ensures copies { (h : Copied → ℕ) → weigh h audit.new.copies
            ≡ weigh (λ v. h (FileCopy v.inode v.tickets v.tokens)) files.old.items + weigh h audit.old.copies }
        ensures same { files.new.items ≡ files.old.items }
    {
        for i in 0..files.len() {
            self.learn_file(audit, &mut files[i]);
        }
    }

    /// The audit learns what all shards have. It has learned of no shard before.
    pub fn learn_shards(&self, audit: &mut Audit, shards: &mut Vec<ShardAccount>)
        requires book { audit.old.book ≡ self.now.book }
        requires shards { AreShards self.now.book shards.old.items }
        requires none { weigh (shard_copy (λ n. 1)) audit.old.copies ≡ 0 }
        ensures book { audit.new.book ≡ audit.old.book }
        ensures copies { (h : Copied → ℕ) → weigh h audit.new.copies
            ≡ weigh (λ v. h (ShardCopy v.shard v.taken)) shards.old.items + weigh h audit.old.copies }
        ensures same { shards.new.items ≡ shards.old.items }
    {
        for i in 0..shards.len() {
            self.learn_shard(audit, &mut shards[i]);
        }
    }

    /// Tells, to who has all permits, with nothing in hand, and all accounts, that nothing is in flight: the marked blocks
    /// are those whose tickets are lodged in files and shards, and the taken numbers are those whose tokens are lodged in
    /// files, each once. Nothing changes.
    pub fn balance(
        &self,
        permits: Permits,
        segments: &mut Vec<SegmentAccount>,
        files: &mut Vec<FileAccount>,
        shards: &mut Vec<ShardAccount>,
    ) -> Permits
        requires permits { permits ≡ record { book = self.now.book; count = 64 } }
        requires segments { AreSegments self.now.book segments.old.items }
        requires every_segment { length segments.old.items ≡ self.now.key.segments }
        requires files { AreFiles self.now.book files.old.items }
        requires every_file { length files.old.items ≡ self.now.key.files }
        requires shards { AreShards self.now.book shards.old.items }
        requires every_shard { length shards.old.items ≡ 16 }
        ensures tickets { (h : Mark → ℕ) → weigh (λ v. weigh h v.marks) segments.old.items
            ≡ weigh (λ v. weigh h v.tickets) files.old.items + weigh (λ v. weigh (of_entry h) v.taken) shards.old.items }
        ensures tokens { (h : TakenNumber → ℕ) → weigh (λ v. weigh h v.taken) shards.old.items
            ≡ weigh (λ v. weigh h v.tokens) files.old.items }
        ensures same_segments { segments.new.items ≡ segments.old.items }
        ensures same_files { files.new.items ≡ files.old.items }
        ensures same_shards { shards.new.items ≡ shards.old.items }
        ensures permits { result ≡ record { book = self.now.book; count = 64 } }
    {
        let mut audit = self.audit(permits);
        self.learn_segments(&mut audit, segments);
        self.learn_files(&mut audit, files);
        self.learn_shards(&mut audit, shards);
        self.settle(&mut audit);
        self.end_audit(audit)
    }
}
