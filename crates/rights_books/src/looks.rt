//! Looks, which change nothing: what the law of the books says of passes and of tickets.
ghost use Rattle.std.specs.Prelude.{◌≡◌, ◌≢◌, ◌-◌, ◌/◌, ◌<◌, ◌%◌, [], ◌∷◌, Some};
ghost use Rattle.rights_books.specs.ClaimRules.{Follows};
ghost use Rattle.geometry.specs.Mark.{same_mark};
ghost use Rattle.rights_books.specs.Lists.{times};
ghost use Rattle.rights_books.specs.Rules.{Lawful};
ghost use Rattle.rights_books.specs.Lodged.{AreMarked, AreWithin};
ghost use Rattle.rights_books.specs.Sameness.{same_entry};

use crate::Holder;
use crate::account::{
    CallAccount, FileAccount, NumberClaim, PassAccount, SegmentAccount, ShardAccount,
};
use crate::books::{Absorbed, Books, Exchange};
use crate::claim::Claim;
use geometry::Mark;
use std::marker::Brand;

impl Books {
    /// Tells that the pass shows what its file has. Nothing runs and nothing changes, so a pass may be lent to many at once.
    pub fn compare(&self, file: &FileAccount, pass: &PassAccount)
        requires books { (file.now.book ≡ self.now.book) × (pass.now.book ≡ self.now.book) }
        requires inode { file.now.inode ≡ pass.now.inode }
        ensures same { file.now.content ≡ Some pass.now.content }
    {
        self.book.tell::<Brand>(&file.holder, &pass.holder);
    }

    /// Tells that two passes are of two files. Nothing changes.
    pub fn differ(&self, one: &mut PassAccount, other: &mut PassAccount)
        requires books { (one.old.book ≡ self.now.book) × (other.old.book ≡ self.now.book) }
        ensures inode { one.old.inode ≢ other.old.inode }
        ensures kept { (one.new ≡ one.old) × (other.new ≡ other.old) }
    {
        self.exchange::<(), Brand>(&mut one.holder, &mut other.holder, &());
    }

    /// Tells where the block is whose ticket is in hand: in one of the segments. Nothing changes.
    pub fn locate(&self, hand: &mut CallAccount, mark: Mark)
        requires book { hand.old.book ≡ self.now.book }
        requires held { 0 < times same_mark mark hand.old.tickets }
        ensures some { 0 < mark.address }
        ensures within { (mark.address - 1) / self.now.key.blocks < self.now.key.segments }
        ensures same { hand.new ≡ hand.old }
    {
        self.look::<Brand>(&mut hand.holder, &mark);
    }

    // One step of one account. What it is about is for the proof alone.
    fn look<X: Exchange>(&self, one: &mut Holder<Claim>, _about: &Mark)
        requires book { one.old.book ≡ self.now.book }
        requires rule { Follows (Lawful self.now.key) one.old.claims (X.one ∷ []) X.told }
        ensures book { one.new.book ≡ one.old.book }
        ensures claims { one.new.claims ≡ X.one ∷ [] }
        ensures told { X.told }
    {
        self.book.step::<Absorbed<X>>(one);
    }

    /// Tells that the tickets that are lodged in a file, of blocks of the segment, are of marked blocks. Nothing changes.
    pub fn show_marked(&self, segment: &mut SegmentAccount, file: &mut FileAccount)
        requires books { (segment.old.book ≡ self.now.book) × (file.old.book ≡ self.now.book) }
        ensures marked { AreMarked self.now.key.blocks segment.old.segment file.old.tickets segment.old.marks }
        ensures kept { (segment.new ≡ segment.old) × (file.new ≡ file.old) }
    {
        self.exchange::<(), Brand>(&mut segment.holder, &mut file.holder, &());
    }

    /// Tells that the tickets that are lodged in a file are of blocks of the segments. Nothing changes.
    pub fn show_within(&self, file: &mut FileAccount)
        requires book { file.old.book ≡ self.now.book }
        ensures within { AreWithin self.now.key file.old.tickets }
        ensures kept { file.new ≡ file.old }
    {
        self.book.step::<Brand>(&mut file.holder);
    }

    /// Tells that a number whose token is in hand is taken in its shard, with the token's entry. Nothing changes.
    pub fn find(&self, shard: &mut ShardAccount, hand: &mut CallAccount, token: &NumberClaim)
        requires books { (shard.old.book ≡ self.now.book) × (hand.old.book ≡ self.now.book) }
        requires home { token.now.number % 16 ≡ shard.old.shard }
        requires held { 0 < times same_entry token.now hand.old.tokens }
        ensures taken { 0 < times same_entry token.now shard.old.taken }
        ensures kept { (shard.new ≡ shard.old) × (hand.new ≡ hand.old) }
    {
        self.exchange::<NumberClaim, Brand>(&mut shard.holder, &mut hand.holder, token);
    }
}
