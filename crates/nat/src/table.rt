//! The node address table of a volume.
ghost use Rattle.std.specs.Prelude.{◌≡◌, ℕ, ◌<◌, ◌≤◌, ◌%◌, ◌∷◌, [], MatchOption, IfOk, IfErr, OnErr, vec_len};
ghost use Rattle.geometry.specs.declared.error.Error.TheVariants.{NoMemory, NoFile, NoNode};
ghost use Rattle.geometry.specs.declared.owner.Owner.TheVariants as owner;
ghost use Rattle.geometry.specs.Mark.{same_mark};
ghost use Rattle.geometry.specs.Weights.{SameItems};
ghost use Rattle.rights_books.specs.Accounts.{AreEmptyShards};
ghost use Rattle.rights_books.specs.Lists.{times, without};
ghost use Rattle.rights_books.specs.Sameness.{same_entry};
ghost use Rattle.rights_books.specs.Rules.{bare_entry, moved_to, with_lodged};
ghost use Rattle.nat.specs.Taken.{AreNodes, IsFree, IsTaken, AllTaken, IsLowestFree, IsLocated, placed_of};

use crate::shard::{SHARDS, Shard};
use device::Block;
use geometry::Error;
use rights_books::{Books, CallAccount, ShardAccount};
use std::alloc::Global;
use std::marker::Model;
use std::snapshot::Snapshot;
use tickets::{NidToken, Ticket};

/// The node address table of a volume: its 16 shards, `{ book; files; nodes; taken }` to contracts. The numbers 1 to `files`
/// are those of inodes, all others up to `nodes` are for the nodes below them.
#[derive(Drop)]
pub struct NodeTable<B: Block + Drop> {
    files: u32,
    nodes: u32,
    shards: Vec<Shard<B>>,
    // Which books the shards are of, for the proofs alone.
    books: Snapshot<Books>,
}

impl<B: Block + Drop> Model for NodeTable<B> {
    ghost use Rattle.nat.specs.Table.{TableNodes, IsTable, all_taken};

    ghost Value = { TableNodes };

    ghost view = { λ t. record { book = t.books.value.book; files = t.files; nodes = t.nodes; taken = all_taken t.shards.items } };

    ghost invariant = { λ t. IsTable t.books.value.book t.files t.nodes t.shards.items };
}

impl<B: Block + Drop> NodeTable<B> {
    /// A table of these numbers with nothing taken, over the accounts of its shards. All memory that it will need is made
    /// here. The only error is NoMemory, and then nothing is kept.
    pub fn new(
        alloc: Global,
        books: &Books,
        accounts: Vec<ShardAccount>,
        files: u32,
        nodes: u32,
    ) -> Result<NodeTable<B>, Error>
        requires count { vec_len accounts ≡ 16 }
        requires empty { AreEmptyShards books.now.book accounts.items }
        requires inodes { files ≤ nodes }
        ensures table { IfOk result (λ table. table ≡ record { book = books.now.book; files = files; nodes = nodes; taken = [] }) }
        ensures err { IfErr result (λ error. error ≡ NoMemory) }
    {
        let mut shards = Vec::with_capacity(alloc, SHARDS as usize)?;
        let mut number = 0;
        for account in accounts {
            shards.push_reserved(Shard::new(alloc, account, number, nodes)?);
            number += 1;
        }
        Ok(NodeTable {
            files,
            nodes,
            shards,
            books: Snapshot::of(books),
        })
    }

    /// Tells what holds of every table: no number has two entries, and each that has one is one of 1 to `nodes`.
    pub fn law(&self)
        ensures { AreNodes self.now.nodes self.now.taken }
    {
        let _ = &self.shards;
    }

    /// Takes a number for a node of this inode's file, which has no block yet, and gives its token into the hand. None
    /// exactly where the number is taken, and then nothing changes.
    pub fn take(
        &mut self,
        books: &Books,
        hand: &mut CallAccount,
        number: u32,
        inode: u32,
    ) -> Option<NidToken>
        requires books { (self.old.book ≡ books.now.book) × (hand.old.book ≡ books.now.book) }
        requires range { (1 ≤ number) × (number ≤ self.old.nodes) }
        ensures token { MatchOption result (Unit {0}) (λ token. token ≡ bare_entry number inode) }
        ensures before { MatchOption result (IsTaken number self.old.taken) (λ _. IsFree number self.old.taken) }
        ensures table { MatchOption result (self.new ≡ self.old) (λ token. SameItems (token ∷ self.old.taken) self.new.taken) }
        ensures hand { MatchOption result (hand.new ≡ hand.old) (λ token. hand.new ≡ record hand.old { tokens = token ∷ hand.old.tokens }) }
        ensures kept { (self.new.book ≡ self.old.book) × (self.new.files ≡ self.old.files) × (self.new.nodes ≡ self.old.nodes) }
    {
        self.shards[(number % SHARDS) as usize].take(books, hand, number, inode)
    }

    /// Takes the lowest free number of an inode, for itself, and gives its token into the hand.
    ///
    /// The only error is NoFile, exactly where each number from 1 to `files` is taken; then nothing changes.
    pub fn new_inode(&mut self, books: &Books, hand: &mut CallAccount) -> Result<NidToken, Error>
        requires books { (self.old.book ≡ books.now.book) × (hand.old.book ≡ books.now.book) }
        ensures token { IfOk result (λ token. token ≡ bare_entry token.number token.number) }
        ensures lowest { IfOk result (λ token. IsLowestFree 0 self.old.files self.old.taken token.number) }
        ensures table { IfOk result (λ token. SameItems (token ∷ self.old.taken) self.new.taken) }
        ensures hand { IfOk result (λ token. hand.new ≡ record hand.old { tokens = token ∷ hand.old.tokens }) }
        ensures kept { (self.new.book ≡ self.old.book) × (self.new.files ≡ self.old.files) × (self.new.nodes ≡ self.old.nodes) }
        ensures error { IfErr result (λ error. error ≡ NoFile) }
        ensures err_taken { OnErr result (AllTaken 0 self.old.files self.old.taken) }
        ensures err { OnErr result ((self.new ≡ self.old) × (hand.new ≡ hand.old)) }
    {
        match self.lowest_free(0, self.files) {
            Some(number) => match self.take(books, hand, number, number) {
                Some(token) => Ok(token),
                None => unreachable!(),
            },
            None => Err(Error::NoFile),
        }
    }

    /// Takes the lowest free number past those of inodes, for a node of this inode's file, and gives its token into the
    /// hand.
    ///
    /// The only error is NoNode, exactly where each number from `files` + 1 to `nodes` is taken; then nothing changes.
    pub fn new_nid(
        &mut self,
        books: &Books,
        hand: &mut CallAccount,
        inode: u32,
    ) -> Result<NidToken, Error>
        requires books { (self.old.book ≡ books.now.book) × (hand.old.book ≡ books.now.book) }
        ensures token { IfOk result (λ token. token ≡ bare_entry token.number inode) }
        ensures lowest { IfOk result (λ token. IsLowestFree self.old.files self.old.nodes self.old.taken token.number) }
        ensures table { IfOk result (λ token. SameItems (token ∷ self.old.taken) self.new.taken) }
        ensures hand { IfOk result (λ token. hand.new ≡ record hand.old { tokens = token ∷ hand.old.tokens }) }
        ensures kept { (self.new.book ≡ self.old.book) × (self.new.files ≡ self.old.files) × (self.new.nodes ≡ self.old.nodes) }
        ensures error { IfErr result (λ error. error ≡ NoNode) }
        ensures err_taken { OnErr result (AllTaken self.old.files self.old.nodes self.old.taken) }
        ensures err { OnErr result ((self.new ≡ self.old) × (hand.new ≡ hand.old)) }
    {
        match self.lowest_free(self.files, self.nodes) {
            Some(number) => match self.take(books, hand, number, inode) {
                Some(token) => Ok(token),
                None => unreachable!(),
            },
            None => Err(Error::NoNode),
        }
    }

    // The lowest free number past one, up to another.
    fn lowest_free(&self, past: u32, last: u32) -> Option<u32>
        ensures { MatchOption result (AllTaken past last self.now.taken) (IsLowestFree past last self.now.taken) }
    {
        for before in past..last {
            let number = before + 1;
            if self.locate(number).is_none() {
                return Some(number);
            }
        }
        None
    }

    /// The inode number and the address of a taken number, the address 0 where its node has no block yet. None exactly
    /// where the number is free, as each outside 1 to `nodes` is.
    pub fn locate(&self, number: u32) -> Option<(u32, u32)>
        ensures { IsLocated number self.now.taken result }
    {
        self.shards[(number % SHARDS) as usize].locate(number)
    }

    /// A node gets the block of a ticket that is in hand, and its entry the block's address. The block before it, where it
    /// had one, comes out with its ticket. The token goes on to be in hand, with the new address and bytes.
    pub fn swap_ticket(
        &mut self,
        books: &Books,
        hand: &mut CallAccount,
        token: &mut NidToken,
        ticket: Ticket<B>,
    ) -> Option<Ticket<B>>
        requires books { (self.old.book ≡ books.now.book) × (hand.old.book ≡ books.now.book) }
        requires token { 0 < times same_entry token.old hand.old.tokens }
        requires ticket { 0 < times same_mark ticket.mark hand.old.tickets }
        requires owner { ticket.mark.owner ≡ owner.Node token.old.number }
        ensures token { token.new ≡ moved_to ticket.mark.address ticket.content token.old }
        ensures before { result ≡ placed_of token.old }
        ensures table { SameItems (token.new ∷ self.old.taken) (token.old ∷ self.new.taken) }
        ensures hand { hand.new ≡ record hand.old {
          tickets = with_lodged token.old (without same_mark ticket.mark hand.old.tickets);
          tokens = token.new ∷ without same_entry token.old hand.old.tokens;
        } }
        ensures kept { (self.new.book ≡ self.old.book) × (self.new.files ≡ self.old.files) × (self.new.nodes ≡ self.old.nodes) }
    {
        self.shards[(token.number() % SHARDS) as usize].swap(books, hand, token, ticket)
    }

    /// Spends a token that is in hand: its number is free again. The node's block, where it had one, comes out with its
    /// ticket.
    pub fn give(
        &mut self,
        books: &Books,
        hand: &mut CallAccount,
        token: NidToken,
    ) -> Option<Ticket<B>>
        requires books { (self.old.book ≡ books.now.book) × (hand.old.book ≡ books.now.book) }
        requires held { 0 < times same_entry token hand.old.tokens }
        ensures ticket { result ≡ placed_of token }
        ensures table { SameItems (token ∷ self.new.taken) self.old.taken }
        ensures hand { hand.new ≡ record hand.old {
          tickets = with_lodged token hand.old.tickets;
          tokens = without same_entry token hand.old.tokens;
        } }
        ensures kept { (self.new.book ≡ self.old.book) × (self.new.files ≡ self.old.files) × (self.new.nodes ≡ self.old.nodes) }
    {
        self.shards[(token.number() % SHARDS) as usize].give(books, hand, token)
    }
}
