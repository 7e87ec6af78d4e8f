//! One shard of the node address table.
ghost use Rattle.std.specs.Prelude.{◌≡◌, ℕ, ◌<◌, ◌≤◌, ◌%◌, ◌∷◌, [], None, length, MatchOption, OnOk, IfOk, IfErr};
ghost use Rattle.geometry.specs.declared.error.Error.TheVariants.{NoMemory};
ghost use Rattle.geometry.specs.declared.owner.Owner.TheVariants as owner;
ghost use Rattle.geometry.specs.Mark.{same_mark};
ghost use Rattle.rights_books.specs.Lists.{times, without};
ghost use Rattle.rights_books.specs.Sameness.{same_entry};
ghost use Rattle.rights_books.specs.Rules.{bare_entry, moved_to, with_lodged};
ghost use Rattle.geometry.specs.Weights.{weigh};
ghost use Rattle.rights_books.specs.Weights.{shard_copy, past};
ghost use Rattle.rights_books.specs.declared.claim.Copied.TheVariants.{ShardCopy};
ghost use Rattle.nat.specs.Taken.{IsFree, IsTaken, IsLocated, placed_of};
ghost use Rattle.nat.specs.Shard.{HasOwnNodes};

use crate::slot::Slot;
use device::{Block, DeviceError};
use geometry::Error;
use rights_books::{Audit, Books, CallAccount, PartRow, ShardAccount};
use std::alloc::Global;
use std::marker::Model;
use tickets::{NidToken, Ticket, give_block};

/// How many shards there are. A number is of the shard that it leaves by this.
pub const SHARDS: u32 = 16;

/// One of the 16 shards: a slot for each of its node numbers, and its account in the books, `{ book; shard; nodes; taken }`
/// to contracts, and the `part` that its row is of. What the account has taken is what the slots hold, each number once. The
/// row that is noted of it is its own.
#[derive(Drop)]
pub struct Shard<B: Block + Drop> {
    number: u32,
    nodes: u32,
    slots: Vec<Option<Slot<B>>>,
    pub(crate) account: ShardAccount,
    pub(crate) row: PartRow,
}

impl<B: Block + Drop> Model for Shard<B> {
    ghost use Rattle.std.specs.Prelude.{◌≡◌, IfSome};
    ghost use Rattle.nat.specs.Shard.{ShardNodes, IsShard};
    ghost use Rattle.nat.specs.Noted.{shard_row};

    ghost Value = { ShardNodes };

    ghost view = { λ s. record { book = s.account.book; shard = s.number; nodes = s.nodes; taken = s.account.taken; part = s.row.part } };

    ghost invariant = { λ s. IsShard s.nodes s.number s.slots.items s.account × IfSome s.row.noted (λ row. row ≡ shard_row s.account.taken) };
}

impl<B: Block + Drop> Shard<B> {
    /// The shard of this number, with nothing taken, over its account. All memory that it will need is made here. The only
    /// error is NoMemory, and then nothing is kept.
    pub fn new(
        alloc: Global,
        account: ShardAccount,
        number: u32,
        nodes: u32,
    ) -> Result<Shard<B>, Error>
        requires number { number < 16 }
        requires empty { account ≡ record { book = account.book; shard = number; taken = [] } }
        ensures shard { IfOk result (λ shard. shard ≡ record { book = account.book; shard = number; nodes = nodes; taken = []; part = None }) }
        ensures own { IfOk result HasOwnNodes }
        ensures err { IfErr result (λ error. error ≡ NoMemory) }
    {
        let count = (nodes as usize + SHARDS as usize - number as usize) / SHARDS as usize;
        let mut slots = Vec::with_capacity(alloc, count)?;
        for _place in 0..count {
            slots.push_reserved(None);
        }
        Ok(Shard {
            number,
            nodes,
            slots,
            account,
            row: PartRow::new(),
        })
    }

    /// Takes a number for a node of this inode's file, which has no block yet, and gives its token into the hand. None
    /// exactly where the number is taken, and then nothing changes.
    pub fn take(
        &mut self,
        books: &Books,
        hand: &mut CallAccount,
        number: u32,
        inode: u32,
    ) -> Option<NidToken>
        requires books { (self.old.book ≡ books.now.book) × (hand.old.book ≡ books.now.book) }
        requires home { number % 16 ≡ self.old.shard }
        requires range { (1 ≤ number) × (number ≤ self.old.nodes) }
        ensures token { MatchOption result (Unit {0}) (λ token. token ≡ bare_entry number inode) }
        ensures before { MatchOption result (IsTaken number self.old.taken) (λ _. IsFree number self.old.taken) }
        ensures shard { MatchOption result (self.new ≡ self.old) (λ token. self.new ≡ record self.old { taken = token ∷ self.old.taken }) }
        ensures hand { MatchOption result (hand.new ≡ hand.old) (λ token. hand.new ≡ record hand.old { tokens = token ∷ hand.old.tokens }) }
        ensures own { HasOwnNodes self.new }
    {
        let slot = &mut self.slots[(number / SHARDS) as usize];
        if slot.is_some() {
            return None;
        }
        self.row.change();
        let token = books.take(&mut self.account, hand, number, inode);
        *slot = Some(Slot::new(inode));
        Some(token)
    }

    /// The inode number and the address of a taken number, the address 0 where its node has no block yet. None exactly
    /// where the number is free.
    pub fn locate(&self, number: u32) -> Option<(u32, u32)>
        requires home { number % 16 ≡ self.now.shard }
        ensures { IsLocated number self.now.taken result }
    {
        let place = (number / SHARDS) as usize;
        if place >= self.slots.len() {
            return None;
        }
        match &self.slots[place] {
            Some(slot) => Some((slot.inode(), slot.address())),
            None => None,
        }
    }

    /// A node gets the block of a ticket that is in hand. The block before it, where it had one, comes out with its ticket.
    /// The token goes on to be in hand, with the new address and bytes.
    pub fn swap(
        &mut self,
        books: &Books,
        hand: &mut CallAccount,
        token: &mut NidToken,
        ticket: Ticket<B>,
    ) -> Option<Ticket<B>>
        requires books { (self.old.book ≡ books.now.book) × (hand.old.book ≡ books.now.book) }
        requires home { token.old.number % 16 ≡ self.old.shard }
        requires token { 0 < times same_entry token.old hand.old.tokens }
        requires ticket { 0 < times same_mark ticket.mark hand.old.tickets }
        requires owner { ticket.mark.owner ≡ owner.Node token.old.number }
        ensures taken { 0 < times same_entry token.old self.old.taken }
        ensures token { token.new ≡ moved_to ticket.mark.address ticket.content token.old }
        ensures before { result ≡ placed_of token.old }
        ensures shard { self.new ≡ record self.old { taken = token.new ∷ without same_entry token.old self.old.taken } }
        ensures hand { hand.new ≡ record hand.old {
          tickets = with_lodged token.old (without same_mark ticket.mark hand.old.tickets);
          tokens = token.new ∷ without same_entry token.old hand.old.tokens;
        } }
        ensures own { HasOwnNodes self.new }
    {
        let place = (token.number() / SHARDS) as usize;
        self.row.change();
        let (block, before) = give_block(books, &mut self.account, hand, token, ticket);
        match &mut self.slots[place] {
            Some(slot) => slot.swap(block, before),
            None => unreachable!(),
        }
    }

    /// Reads the block of a node whose token is in hand into `out`, which has as many bytes. After a failure of the device
    /// `out` has any bytes, and the block its own.
    pub fn read(
        &mut self,
        books: &Books,
        hand: &mut CallAccount,
        token: &NidToken,
        out: &mut [u8],
    ) -> Result<(), DeviceError>
        requires books { (self.old.book ≡ books.now.book) × (hand.old.book ≡ books.now.book) }
        requires home { token.now.number % 16 ≡ self.old.shard }
        requires held { 0 < times same_entry token.now hand.old.tokens }
        requires out { length out.old ≡ length token.now.bytes }
        ensures shard { self.new ≡ self.old }
        ensures hand { hand.new ≡ hand.old }
        ensures bytes { OnOk result (out.new ≡ token.now.bytes) }
        ensures own { HasOwnNodes self.new }
    {
        let place = (token.number() / SHARDS) as usize;
        books.find(&mut self.account, hand, token);
        match &mut self.slots[place] {
            Some(slot) => slot.read(out),
            None => unreachable!(),
        }
    }

    /// Spends a token that is in hand: its number is free again. The node's block, where it had one, comes out with its
    /// ticket.
    pub fn give(
        &mut self,
        books: &Books,
        hand: &mut CallAccount,
        token: NidToken,
    ) -> Option<Ticket<B>>
        requires books { (self.old.book ≡ books.now.book) × (hand.old.book ≡ books.now.book) }
        requires home { token.number % 16 ≡ self.old.shard }
        requires held { 0 < times same_entry token hand.old.tokens }
        ensures taken { 0 < times same_entry token self.old.taken }
        ensures ticket { result ≡ placed_of token }
        ensures shard { self.new ≡ record self.old { taken = without same_entry token self.old.taken } }
        ensures hand { hand.new ≡ record hand.old {
          tickets = with_lodged token hand.old.tickets;
          tokens = without same_entry token hand.old.tokens;
        } }
        ensures own { HasOwnNodes self.new }
    {
        let place = (token.number() / SHARDS) as usize;
        self.row.change();
        let claimed = books.give(&mut self.account, hand, token);
        match self.slots[place].take() {
            Some(slot) => slot.into_ticket(claimed),
            None => unreachable!(),
        }
    }

    /// An audit of the books learns its taken numbers. It goes by ascending numbers of shards.
    pub fn learn(&mut self, books: &Books, audit: &mut Audit)
        requires books { (self.old.book ≡ books.now.book) × (audit.old.book ≡ books.now.book) }
        requires ascending { weigh (shard_copy (past self.old.shard)) audit.old.copies ≡ 0 }
        ensures same { self.new ≡ self.old }
        ensures audit { audit.new ≡ record audit.old { copies = ShardCopy self.old.shard self.old.taken ∷ audit.old.copies } }
    {
        books.learn_shard(audit, &mut self.account);
    }
}
