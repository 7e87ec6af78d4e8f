//! The books of an empty volume, and its accounts.
ghost use Rattle.std.specs.Prelude.{◌≡◌, [], ◌∷◌, ◌++◌, length, take, drop, None, IfOk};
ghost use Rattle.rights_books.specs.declared.claim.Claim.TheVariants as claim;
ghost use Rattle.rights_books.specs.Rules.{opening, each_from};
ghost use Rattle.rights_books.specs.Accounts.{first_of, number_of, hands_claims, AreEmptySegments, AreEmptyFiles, AreEmptyShards};

use crate::Book;
use crate::account::{Dealer, FileAccount, Permits, SegmentAccount, ShardAccount};
use crate::books::Books;
use crate::claim::Layout;
use std::alloc::{AllocError, Global};

/// The books of an empty volume, and all its accounts.
#[derive(Drop)]
pub struct DealtBooks {
    /// The books.
    pub books: Books,
    /// All 64 permits.
    pub permits: Permits,
    /// The account of each segment, from 0 on.
    pub segments: Vec<SegmentAccount>,
    /// The account of each file, whose inodes are 1 and on.
    pub files: Vec<FileAccount>,
    /// The account of each of the 16 shards.
    pub shards: Vec<ShardAccount>,
}

impl Books {
    /// New books, and the claims of an empty volume. It fails only where memory is out, and then nothing is left.
    pub fn open(alloc: Global, layout: &Layout) -> Result<(Books, Dealer), AllocError>
        ensures layout { IfOk result (λ r. r.0.key ≡ layout.now) }
        ensures dealer { IfOk result (λ r. r.1 ≡ record { book = r.0.book; claims = opening layout.now }) }
    {
        let (book, holder) = Book::open(alloc, layout)?;
        Ok((Books { book }, Dealer { holder }))
    }

    /// The permits, which come first.
    pub fn deal_permits(&self, dealer: Dealer) -> (Permits, Dealer)
        requires book { dealer.book ≡ self.now.book }
        requires first { take 64 dealer.claims ≡ hands_claims 64 }
        ensures permits { result.0 ≡ record { book = self.now.book; count = 64 } }
        ensures dealer { result.1 ≡ record { book = self.now.book; claims = drop 64 dealer.claims } }
    {
        let Dealer { mut holder } = dealer;
        let rest = self.book.part(&mut holder, 64);
        (Permits { holder, count: 64 }, Dealer { holder: rest })
    }

    /// The account of the next segment.
    pub fn deal_segment(&self, dealer: Dealer) -> (SegmentAccount, Dealer)
        requires book { dealer.book ≡ self.now.book }
        requires first { dealer.claims ≡ claim.Segment (number_of (first_of dealer.claims)) [] ∷ drop 1 dealer.claims }
        ensures segment { result.0 ≡ record { book = self.now.book; segment = number_of (first_of dealer.claims); marks = [] } }
        ensures dealer { result.1 ≡ record { book = self.now.book; claims = drop 1 dealer.claims } }
    {
        let Dealer { mut holder } = dealer;
        let rest = self.book.part(&mut holder, 1);
        (SegmentAccount { holder }, Dealer { holder: rest })
    }

    /// The account of the next file.
    pub fn deal_file(&self, dealer: Dealer) -> (FileAccount, Dealer)
        requires book { dealer.book ≡ self.now.book }
        requires first { dealer.claims ≡ claim.File (number_of (first_of dealer.claims)) [] [] None ∷ drop 1 dealer.claims }
        ensures file { result.0 ≡ record {
          book = self.now.book;
          inode = number_of (first_of dealer.claims);
          tickets = [];
          tokens = [];
          content = None;
        } }
        ensures dealer { result.1 ≡ record { book = self.now.book; claims = drop 1 dealer.claims } }
    {
        let Dealer { mut holder } = dealer;
        let rest = self.book.part(&mut holder, 1);
        (FileAccount { holder }, Dealer { holder: rest })
    }

    /// The account of the next shard.
    pub fn deal_shard(&self, dealer: Dealer) -> (ShardAccount, Dealer)
        requires book { dealer.book ≡ self.now.book }
        requires first { dealer.claims ≡ claim.Shard (number_of (first_of dealer.claims)) [] ∷ drop 1 dealer.claims }
        ensures shard { result.0 ≡ record { book = self.now.book; shard = number_of (first_of dealer.claims); taken = [] } }
        ensures dealer { result.1 ≡ record { book = self.now.book; claims = drop 1 dealer.claims } }
    {
        let Dealer { mut holder } = dealer;
        let rest = self.book.part(&mut holder, 1);
        (ShardAccount { holder }, Dealer { holder: rest })
    }

    /// The accounts of the next `count` segments. It fails only where memory is out, and then the dealer's claims are lost.
    pub fn deal_segments(
        &self,
        alloc: Global,
        dealer: Dealer,
        count: u32,
    ) -> Result<(Vec<SegmentAccount>, Dealer), AllocError>
        requires book { dealer.book ≡ self.now.book }
        requires first { dealer.claims ≡ each_from 0 count (λ n. claim.Segment n []) ++ drop count dealer.claims }
        ensures count { IfOk result (λ r. length r.0.items ≡ count) }
        ensures segments { IfOk result (λ r. AreEmptySegments self.now.book r.0.items) }
        ensures dealer { IfOk result (λ r. r.1 ≡ record { book = self.now.book; claims = drop count dealer.claims }) }
    {
        let mut segments = Vec::with_capacity(alloc, count as usize)?;
        let mut dealer = dealer;
        for _ in 0..count {
            let (segment, rest) = self.deal_segment(dealer);
            dealer = rest;
            segments.push(segment)?;
        }
        Ok((segments, dealer))
    }

    /// The accounts of the next `count` files. It fails only where memory is out, and then the dealer's claims are lost.
    pub fn deal_files(
        &self,
        alloc: Global,
        dealer: Dealer,
        count: u32,
    ) -> Result<(Vec<FileAccount>, Dealer), AllocError>
        requires book { dealer.book ≡ self.now.book }
        requires first { dealer.claims ≡ each_from 1 count (λ n. claim.File n [] [] None) ++ drop count dealer.claims }
        ensures count { IfOk result (λ r. length r.0.items ≡ count) }
        ensures files { IfOk result (λ r. AreEmptyFiles self.now.book r.0.items) }
        ensures dealer { IfOk result (λ r. r.1 ≡ record { book = self.now.book; claims = drop count dealer.claims }) }
    {
        let mut files = Vec::with_capacity(alloc, count as usize)?;
        let mut dealer = dealer;
        for _ in 0..count {
            let (file, rest) = self.deal_file(dealer);
            dealer = rest;
            files.push(file)?;
        }
        Ok((files, dealer))
    }

    /// The accounts of the next `count` shards. It fails only where memory is out, and then the dealer's claims are lost.
    pub fn deal_shards(
        &self,
        alloc: Global,
        dealer: Dealer,
        count: u32,
    ) -> Result<(Vec<ShardAccount>, Dealer), AllocError>
        requires book { dealer.book ≡ self.now.book }
        requires first { dealer.claims ≡ each_from 0 count (λ n. claim.Shard n []) ++ drop count dealer.claims }
        ensures count { IfOk result (λ r. length r.0.items ≡ count) }
        ensures shards { IfOk result (λ r. AreEmptyShards self.now.book r.0.items) }
        ensures dealer { IfOk result (λ r. r.1 ≡ record { book = self.now.book; claims = drop count dealer.claims }) }
    {
        let mut shards = Vec::with_capacity(alloc, count as usize)?;
        let mut dealer = dealer;
        for _ in 0..count {
            let (shard, rest) = self.deal_shard(dealer);
            dealer = rest;
            shards.push(shard)?;
        }
        Ok((shards, dealer))
    }

    /// The books of an empty volume, and all its accounts. It fails only where memory is out, and then nothing is left.
    pub fn format(alloc: Global, layout: &Layout) -> Result<DealtBooks, AllocError>
        ensures layout { IfOk result (λ o. o.books.key ≡ layout.now) }
        ensures permits { IfOk result (λ o. o.permits ≡ record { book = o.books.book; count = 64 }) }
        ensures every_segment { IfOk result (λ o. length o.segments.items ≡ layout.now.segments) }
        ensures segments { IfOk result (λ o. AreEmptySegments o.books.book o.segments.items) }
        ensures every_file { IfOk result (λ o. length o.files.items ≡ layout.now.files) }
        ensures files { IfOk result (λ o. AreEmptyFiles o.books.book o.files.items) }
        ensures every_shard { IfOk result (λ o. length o.shards.items ≡ 16) }
        ensures shards { IfOk result (λ o. AreEmptyShards o.books.book o.shards.items) }
    {
        let (books, dealer) = Books::open(alloc, layout)?;
        let (permits, dealer) = books.deal_permits(dealer);
        let (segments, dealer) = books.deal_segments(alloc, dealer, layout.segments)?;
        let (files, dealer) = books.deal_files(alloc, dealer, layout.files)?;
        let (shards, _) = books.deal_shards(alloc, dealer, 16)?;
        Ok(DealtBooks {
            books,
            permits,
            segments,
            files,
            shards,
        })
    }
}
