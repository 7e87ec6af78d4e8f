//! The node numbers, in 16 shards with a lock each.
ghost use Rattle.std.specs.Prelude.{◌≡◌, ◌<◌, ◌≤◌, ◌∷◌, length, MatchOption, OnOk, OnErr, IfOk, IfErr, IfSome};
ghost use Rattle.geometry.specs.declared.error.Error.TheVariants.{NoFile, NoNode};
ghost use Rattle.geometry.specs.declared.owner.Owner.TheVariants as owner;
ghost use Rattle.geometry.specs.Mark.{same_mark};
ghost use Rattle.rights_books.specs.Lists.{times};
ghost use Rattle.rights_books.specs.Sameness.{same_entry};
ghost use Rattle.rights_books.specs.Rules.{bare_entry, moved_to};
ghost use Rattle.nat.specs.Taken.{placed_of};
ghost use Rattle.area.specs.Hand.{having_given, having_swapped};

use crate::main_area::MainArea;
use device::{Block, DeviceError};
use geometry::Error;
use nat::SHARDS;
use rights_books::CallAccount;
use rights_permits::VolumeName;
use std::sync::Wait;
use std::sync::atomic::Ordering;
use tickets::{NidToken, Ticket};

impl<V: VolumeName, B: Block + Drop> MainArea<V, B> {
    /// Takes a free inode number, for itself, and gives its token into the hand. Each lower one was seen taken at a moment of
    /// the call.
    ///
    /// The only error is NoFile, where each number from 1 to `files` was seen taken; then nothing has changed.
    pub fn new_inode<R: Wait>(&self, rt: &R, hand: &mut CallAccount) -> Result<NidToken, Error>
        requires book { hand.old.book ≡ V.Books.books.book }
        ensures token { IfOk result (λ token. token ≡ bare_entry token.number token.number) }
        ensures low { IfOk result (λ token. 1 ≤ token.number) }
        ensures high { IfOk result (λ token. token.number ≤ V.Numbers.geometry.files) }
        ensures hand { IfOk result (λ token. hand.new ≡ record hand.old { tokens = token ∷ hand.old.tokens }) }
        ensures error { IfErr result (λ error. error ≡ NoFile) }
        ensures err { OnErr result (hand.new ≡ hand.old) }
    {
        for before in 0..self.geometry().files {
            let number = before + 1;
            if let Some(token) = self.take(rt, hand, number, number) {
                return Ok(token);
            }
        }
        Err(Error::NoFile)
    }

    /// Takes a free number past those of inodes, for a node of this inode's file, and gives its token into the hand: the
    /// lowest, where no other thread takes or gives back a number meanwhile. The search goes on where the last one ended.
    ///
    /// The only error is NoNode, where each number from `files` + 1 to `nodes` was seen taken at a moment of the call; then
    /// nothing has changed.
    pub fn new_nid<R: Wait>(
        &self,
        rt: &R,
        hand: &mut CallAccount,
        inode: u32,
    ) -> Result<NidToken, Error>
        requires book { hand.old.book ≡ V.Books.books.book }
        ensures token { IfOk result (λ token. token ≡ bare_entry token.number inode) }
        ensures low { IfOk result (λ token. V.Numbers.geometry.files < token.number) }
        ensures high { IfOk result (λ token. token.number ≤ V.Numbers.geometry.nodes) }
        ensures hand { IfOk result (λ token. hand.new ≡ record hand.old { tokens = token ∷ hand.old.tokens }) }
        ensures error { IfErr result (λ error. error ≡ NoNode) }
        ensures err { OnErr result (hand.new ≡ hand.old) }
    {
        let files = self.geometry().files;
        let seen = self.nodes_seen.load(Ordering::Relaxed);
        let first = if seen < files { files } else { seen };
        if let Some(token) = self.take_past(rt, hand, first, inode) {
            self.see_taken(seen, &token);
            return Ok(token);
        }
        match self.take_past(rt, hand, files, inode) {
            Some(token) => {
                self.see_taken(seen, &token);
                Ok(token)
            }
            None => Err(Error::NoNode),
        }
    }

    // The token of the first free number past this one, to `nodes`.
    fn take_past<R: Wait>(
        &self,
        rt: &R,
        hand: &mut CallAccount,
        first: u32,
        inode: u32,
    ) -> Option<NidToken>
        requires book { hand.old.book ≡ V.Books.books.book }
        ensures token { IfSome result (λ token. token ≡ bare_entry token.number inode) }
        ensures low { IfSome result (λ token. first < token.number) }
        ensures high { IfSome result (λ token. token.number ≤ V.Numbers.geometry.nodes) }
        ensures hand { MatchOption result (hand.new ≡ hand.old) (λ token. hand.new ≡ record hand.old { tokens = token ∷ hand.old.tokens }) }
    {
        for before in first..self.geometry().nodes {
            if let Some(token) = self.take(rt, hand, before + 1, inode) {
                return Some(token);
            }
        }
        None
    }

    // The next search begins past this token's number, unless a lower one was given back since the search before it.
    fn see_taken(&self, seen: u32, token: &NidToken) {
        let number = token.number();
        let _ = self
            .nodes_seen
            .compare_exchange(seen, number, Ordering::Relaxed, Ordering::Relaxed);
    }

    /// Spends a token that is in hand: its number is free again. The node's block, where it had one, comes out with its
    /// ticket.
    pub fn give<R: Wait>(
        &self,
        rt: &R,
        hand: &mut CallAccount,
        token: NidToken,
    ) -> Option<Ticket<B>>
        requires book { hand.old.book ≡ V.Books.books.book }
        requires held { 0 < times same_entry token hand.old.tokens }
        ensures ticket { result ≡ placed_of token }
        ensures hand { hand.new ≡ having_given token hand.old }
    {
        let number = token.number();
        let mut cell = self.lock_shard(rt, number % SHARDS);
        let ticket = cell.give(self.books(), hand, token);
        if self.geometry().files < number {
            let _ = self.nodes_seen.fetch_min(number - 1, Ordering::Relaxed);
        }
        ticket
    }

    /// A node gets the block of a ticket that is in hand, and its entry the block's address. The block before it, where it
    /// had one, comes out with its ticket. The token goes on to be in hand, with the new address and bytes.
    pub fn swap_ticket<R: Wait>(
        &self,
        rt: &R,
        hand: &mut CallAccount,
        token: &mut NidToken,
        ticket: Ticket<B>,
    ) -> Option<Ticket<B>>
        requires book { hand.old.book ≡ V.Books.books.book }
        requires token { 0 < times same_entry token.old hand.old.tokens }
        requires ticket { 0 < times same_mark ticket.mark hand.old.tickets }
        requires owner { ticket.mark.owner ≡ owner.Node token.old.number }
        ensures token { token.new ≡ moved_to ticket.mark.address ticket.content token.old }
        ensures before { result ≡ placed_of token.old }
        ensures hand { hand.new ≡ having_swapped token.old token.new ticket.mark hand.old }
    {
        let mut cell = self.lock_shard(rt, token.number() % SHARDS);
        cell.swap(self.books(), hand, token, ticket)
    }

    /// Reads the block of a node whose token is in hand into `out`, which has as many bytes. After a failure of the device
    /// `out` has any bytes.
    pub fn read_node<R: Wait>(
        &self,
        rt: &R,
        hand: &mut CallAccount,
        token: &NidToken,
        out: &mut [u8],
    ) -> Result<(), DeviceError>
        requires book { hand.old.book ≡ V.Books.books.book }
        requires token { 0 < times same_entry token.now hand.old.tokens }
        requires out { length out.old ≡ length token.now.bytes }
        ensures bytes { OnOk result (out.new ≡ token.now.bytes) }
        ensures hand { hand.new ≡ hand.old }
    {
        let mut cell = self.lock_shard(rt, token.number() % SHARDS);
        cell.read(self.books(), hand, token, out)
    }

    /// The inode number and the address of a number that is taken at a moment of the call, the address 0 where its node has
    /// no block yet.
    pub fn locate<R: Wait>(&self, rt: &R, number: u32) -> Option<(u32, u32)>
        ensures low { IfSome result (λ place. 1 ≤ number) }
        ensures high { IfSome result (λ place. number ≤ V.Numbers.geometry.nodes) }
    {
        let cell = self.lock_shard(rt, number % SHARDS);
        cell.locate(number)
    }

    // The token of one number, where it is free.
    fn take<R: Wait>(
        &self,
        rt: &R,
        hand: &mut CallAccount,
        number: u32,
        inode: u32,
    ) -> Option<NidToken>
        requires book { hand.old.book ≡ V.Books.books.book }
        requires range { (1 ≤ number) × (number ≤ V.Numbers.geometry.nodes) }
        ensures token { IfSome result (λ token. token ≡ bare_entry number inode) }
        ensures hand { MatchOption result (hand.new ≡ hand.old) (λ token. hand.new ≡ record hand.old { tokens = token ∷ hand.old.tokens }) }
    {
        let mut cell = self.lock_shard(rt, number % SHARDS);
        cell.take(self.books(), hand, number, inode)
    }
}
