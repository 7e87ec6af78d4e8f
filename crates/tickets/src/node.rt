//! A node's number, and how its node gets a block.
ghost use Rattle.std.specs.Prelude.{◌≡◌, ◌%◌, ◌<◌, ◌∷◌};
ghost use Rattle.geometry.specs.Mark.{same_mark};
ghost use Rattle.geometry.specs.declared.owner.Owner.TheVariants as owner;
ghost use Rattle.rights_books.specs.Lists.{times, without};
ghost use Rattle.rights_books.specs.Sameness.{same_entry};
ghost use Rattle.rights_books.specs.Rules.{moved_to, with_lodged, lodged_of};

use crate::ticket::Ticket;
use device::Block;
use rights_books::{Books, CallAccount, MarkClaim as Claimed, NewBytes, ShardAccount};
use std::marker::Brand;

/// The one right to a taken node number, `{ number; inode; address; bytes }` to contracts: it shows the number's entry in
/// the node address table, and the bytes of the node's block (Linux `filesystems/f2fs`, node address table). It can't be
/// dropped or copied.
pub use rights_books::NumberClaim as NidToken;

/// A node gets the block of a ticket that is in hand: its entry and its token then have the block's address and bytes. The
/// ticket of the block before it, where it had one, comes into the hand. The new block itself is handed back, to stand in
/// the shard.
pub fn give_block<B: Block>(
    books: &Books,
    shard: &mut ShardAccount,
    hand: &mut CallAccount,
    token: &mut NidToken,
    ticket: Ticket<B>,
) -> (B, Option<Claimed>)
    requires books { (shard.old.book ≡ books.now.book) × (hand.old.book ≡ books.now.book) }
    requires home { token.old.number % 16 ≡ shard.old.shard }
    requires token { 0 < times same_entry token.old hand.old.tokens }
    requires ticket { 0 < times same_mark ticket.mark hand.old.tickets }
    requires owner { ticket.mark.owner ≡ owner.Node token.old.number }
    ensures taken { 0 < times same_entry token.old shard.old.taken }
    ensures token { token.new ≡ moved_to ticket.mark.address ticket.content token.old }
    ensures before { result.1 ≡ lodged_of token.old }
    ensures address { B.address_of result.0 ≡ token.new.address }
    ensures content { B.content_of result.0 ≡ token.new.bytes }
    ensures shard { shard.new ≡ record shard.old { taken = token.new ∷ without same_entry token.old shard.old.taken } }
    ensures hand { hand.new ≡ record hand.old {
      tickets = with_lodged token.old (without same_mark ticket.mark hand.old.tickets);
      tokens = token.new ∷ without same_entry token.old hand.old.tokens;
    } }
{
    let (claimed, block) = ticket.into_parts();
    let before = swap_as::<B, Brand>(books, shard, hand, token, claimed, &block);
    (block, before)
}

// The swap of the books, told which block the bytes are of.
fn swap_as<B: Block, N: NewBytes>(
    books: &Books,
    shard: &mut ShardAccount,
    hand: &mut CallAccount,
    token: &mut NidToken,
    claimed: Claimed,
    _block: &B,
) -> Option<Claimed>
    requires books { (shard.old.book ≡ books.now.book) × (hand.old.book ≡ books.now.book) }
    requires home { token.old.number % 16 ≡ shard.old.shard }
    requires token { 0 < times same_entry token.old hand.old.tokens }
    requires ticket { 0 < times same_mark claimed hand.old.tickets }
    requires owner { claimed.owner ≡ owner.Node token.old.number }
    ensures taken { 0 < times same_entry token.old shard.old.taken }
    ensures before { result ≡ lodged_of token.old }
    ensures token { token.new ≡ moved_to claimed.address N.bytes token.old }
    ensures shard { shard.new ≡ record shard.old { taken = token.new ∷ without same_entry token.old shard.old.taken } }
    ensures hand { hand.new ≡ record hand.old {
      tickets = with_lodged token.old (without same_mark claimed hand.old.tickets);
      tokens = token.new ∷ without same_entry token.old hand.old.tokens;
    } }
{
    books.swap::<N>(shard, hand, token, claimed)
}
