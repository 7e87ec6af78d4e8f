//! Node numbers and their tokens: a number is taken and given back, its node gets a block, and its token goes into a file
//! and out of it.
ghost use Rattle.std.specs.Prelude.{◌≡◌, ◌%◌, ◌<◌, ℕ, List, [], ◌∷◌};
ghost use Rattle.geometry.specs.Mark.{same_mark};
ghost use Rattle.geometry.specs.declared.owner.Owner.TheVariants as owner;
ghost use Rattle.rights_books.specs.Lists.{times, without};
ghost use Rattle.rights_books.specs.Sameness.{same_entry};
ghost use Rattle.rights_books.specs.Rules.{bare_entry, moved_to, with_lodged, lodged_of};

use crate::Remembered;
use crate::account::{CallAccount, FileAccount, MarkClaim, NumberClaim, ShardAccount};
use crate::books::Books;
use geometry::{Mark, Owner};
use std::marker::Brand;
use std::snapshot::Snapshot;

/// The bytes of a node's new block, for the proof alone. A type of the caller's names them, or a call at `Brand` picks them.
pub trait NewBytes {
    ghost bytes: { List ℕ };
}

impl NewBytes for Brand {
    ghost bytes = { [] };
}

impl Books {
    /// Takes a number of the shard for a node that has no block yet, and gives its token into the hand (Linux
    /// `filesystems/f2fs`, node address table). Whether the number was free, the shard's own slots tell.
    pub fn take(
        &self,
        shard: &mut ShardAccount,
        hand: &mut CallAccount,
        number: u32,
        inode: u32,
    ) -> NumberClaim
        requires books { (shard.old.book ≡ self.now.book) × (hand.old.book ≡ self.now.book) }
        requires home { number % 16 ≡ shard.old.shard }
        ensures token { result ≡ bare_entry number inode }
        ensures shard { shard.new ≡ record shard.old { taken = result ∷ shard.old.taken } }
        ensures hand { hand.new ≡ record hand.old { tokens = result ∷ hand.old.tokens } }
    {
        let about = (number, inode);
        self.exchange::<(u32, u32), Brand>(&mut shard.holder, &mut hand.holder, &about);
        NumberClaim {
            number,
            inode,
            address: 0,
            hand: Remembered::of(&hand.holder),
        }
    }

    /// Spends a token that is in hand. Its number was taken, and is no more. The ticket of its node, where it has a block,
    /// comes into the hand.
    pub fn give(
        &self,
        shard: &mut ShardAccount,
        hand: &mut CallAccount,
        token: NumberClaim,
    ) -> Option<MarkClaim>
        requires books { (shard.old.book ≡ self.now.book) × (hand.old.book ≡ self.now.book) }
        requires home { token.number % 16 ≡ shard.old.shard }
        requires held { 0 < times same_entry token hand.old.tokens }
        ensures taken { 0 < times same_entry token shard.old.taken }
        ensures ticket { result ≡ lodged_of token }
        ensures shard { shard.new ≡ record shard.old { taken = without same_entry token shard.old.taken } }
        ensures hand { hand.new ≡ record hand.old {
          tickets = with_lodged token hand.old.tickets;
          tokens = without same_entry token hand.old.tokens;
        } }
    {
        self.exchange::<NumberClaim, Brand>(&mut shard.holder, &mut hand.holder, &token);
        let spent = ticket_of(&token);
        let NumberClaim {
            number: _,
            inode: _,
            address: _,
            hand: _,
        } = token;
        spent
    }

    /// A node gets the block of a ticket that is in hand: the ticket is lodged beside the node's number, and the one of its
    /// old block, where it had one, comes into the hand. The token goes on to be in hand, with the new address and bytes.
    pub fn swap<N: NewBytes>(
        &self,
        shard: &mut ShardAccount,
        hand: &mut CallAccount,
        token: &mut NumberClaim,
        ticket: MarkClaim,
    ) -> Option<MarkClaim>
        requires books { (shard.old.book ≡ self.now.book) × (hand.old.book ≡ self.now.book) }
        requires home { token.old.number % 16 ≡ shard.old.shard }
        requires token { 0 < times same_entry token.old hand.old.tokens }
        requires ticket { 0 < times same_mark ticket hand.old.tickets }
        requires owner { ticket.owner ≡ owner.Node token.old.number }
        ensures taken { 0 < times same_entry token.old shard.old.taken }
        ensures ticket { result ≡ lodged_of token.old }
        ensures address { 0 < ticket.address }
        ensures token { token.new ≡ moved_to ticket.address N.bytes token.old }
        ensures shard { shard.new ≡ record shard.old { taken = token.new ∷ without same_entry token.old shard.old.taken } }
        ensures hand { hand.new ≡ record hand.old {
          tickets = with_lodged token.old (without same_mark ticket hand.old.tickets);
          tokens = token.new ∷ without same_entry token.old hand.old.tokens;
        } }
    {
        let MarkClaim { mark } = ticket;
        let old = ticket_of(token);
        let about = (Snapshot::of(token), mark.address);
        self.exchange::<(Snapshot<NumberClaim>, u32), Brand>(
            &mut shard.holder,
            &mut hand.holder,
            &about,
        );
        token.address = mark.address;
        token.hand = Remembered::of(&hand.holder);
        old
    }

    /// Lodges a token that is in hand in a file.
    pub fn lodge_token(&self, file: &mut FileAccount, hand: &mut CallAccount, token: &NumberClaim)
        requires books { (file.old.book ≡ self.now.book) × (hand.old.book ≡ self.now.book) }
        requires held { 0 < times same_entry token.now hand.old.tokens }
        ensures file { file.new ≡ record file.old { tokens = token.now ∷ file.old.tokens } }
        ensures hand { hand.new ≡ record hand.old { tokens = without same_entry token.now hand.old.tokens } }
    {
        self.exchange::<NumberClaim, Brand>(&mut file.holder, &mut hand.holder, token);
    }

    /// Takes a token that is lodged in a file into the hand.
    pub fn unlodge_token(&self, file: &mut FileAccount, hand: &mut CallAccount, token: &NumberClaim)
        requires books { (file.old.book ≡ self.now.book) × (hand.old.book ≡ self.now.book) }
        requires lodged { 0 < times same_entry token.now file.old.tokens }
        ensures file { file.new ≡ record file.old { tokens = without same_entry token.now file.old.tokens } }
        ensures hand { hand.new ≡ record hand.old { tokens = token.now ∷ hand.old.tokens } }
    {
        let unlodged = token;
        self.exchange::<NumberClaim, Brand>(&mut file.holder, &mut hand.holder, unlodged);
    }
}

// The ticket of a token's node, where it has a block.
fn ticket_of(token: &NumberClaim) -> Option<MarkClaim>
    ensures { result ≡ lodged_of token.now }
{
    if token.address == 0 {
        None
    } else {
        Some(MarkClaim {
            mark: Mark {
                address: token.address,
                owner: Owner::Node(token.number),
            },
        })
    }
}
