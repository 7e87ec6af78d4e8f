//! The nodes of an image.
ghost use Rattle.std.specs.Prelude.{◌≡◌, ℕ, ◌+◌, ◌%◌, ◌<◌, ◌≤◌, ◌∷◌, [], List, None, length, replicate, slice_index_or};
ghost use Rattle.rights_books.specs.Lists.{times, without};
ghost use Rattle.rights_books.specs.Weights.{mark_of};
ghost use Rattle.rights_books.specs.declared.claim.TakenNumber.{TakenNumber};
ghost use Rattle.geometry.specs.Mark.{same_mark};
ghost use Rattle.geometry.specs.declared.owner.Mark.{Mark};
ghost use Rattle.geometry.specs.declared.owner.Owner.TheVariants as owner;
ghost use Rattle.image.specs.Rules.{IsLawful};
ghost use Rattle.image.specs.View.{image_view};
ghost use Rattle.mount_blocks.specs.TreeGoods.{ArePlaced, in_place};
ghost use Rattle.nat.specs.Shard.{HasOwnNodes, ShardNodes};
ghost use Rattle.nat.specs.Table.{all_taken};
ghost use Rattle.nat.specs.Taken.{IsFree};
ghost use Rattle.geometry.specs.Weights.{weigh};
ghost use Rattle.tickets.specs.Placed.{Placed};
ghost use Rattle.mount_blocks.specs.Table.{AreTicketsPast};
ghost use Rattle.mount_blocks.specs.Goods.{AreGoods, AreShards};

use crate::{put_at, take_at};
use device::Block;
use geometry::Geometry;
use image::Image;
use nat::Shard;
use rights_books::{Books, CallAccount};
use tickets::{NidToken, Ticket};

// A number that is free is taken for a node of this inode's file, and gets the block of the ticket.
fn load_node<B: Block + Drop>(
    books: &Books,
    hand: &mut CallAccount,
    shard: &mut Shard<B>,
    number: u32,
    inode: u32,
    ticket: Ticket<B>,
) -> NidToken
    requires books { (shard.old.book ≡ books.now.book) × (hand.old.book ≡ books.now.book) }
    requires home { number % 16 ≡ shard.old.shard }
    requires range { (1 ≤ number) × (number ≤ shard.old.nodes) }
    requires free { IsFree number shard.old.taken }
    requires held { 0 < times same_mark ticket.mark hand.old.tickets }
    requires owner { ticket.mark.owner ≡ owner.Node number }
    ensures token { result ≡ record { number = number; inode = inode; address = ticket.mark.address; bytes = ticket.content } }
    ensures shard { shard.new ≡ record shard.old { taken = result ∷ shard.old.taken } }
    ensures own { HasOwnNodes shard.new }
    ensures hand { hand.new ≡ record hand.old { tickets = without same_mark ticket.mark hand.old.tickets; tokens = result ∷ hand.old.tokens } }
{
    match shard.take(books, hand, number, inode) {
        Some(mut token) => match shard.swap(books, hand, &mut token, ticket) {
            None => token,
            Some(_) => unreachable!(),
        },
        None => unreachable!(),
    }
}

/// The nodes of a lawful image take their numbers in the shards, where none is taken, with the blocks of their tickets, which
/// go out of the table. Their tokens come into the hand and stand in a table of their own, each at its number. It takes no
/// memory.
pub fn load_nodes<B: Block + Drop>(
    geometry: &Geometry,
    image: &Image,
    books: &Books,
    hand: &mut CallAccount,
    shards: &mut Vec<Shard<B>>,
    tickets: &mut Vec<Option<Ticket<B>>>,
    tokens: &mut Vec<Option<NidToken>>,
)
    requires lawful { IsLawful geometry.now (image_view image.now) }
    requires hand { hand.old.book ≡ books.now.book }
    requires shards { AreShards books.now.book geometry.now.nodes shards.old.items }
    requires free { (k : ℕ) (other : ShardNodes) → k < length shards.old.items → (slice_index_or shards.old.items k other).taken ≡ [] }
    requires tickets { (bytes : ℕ → List ℕ) × AreTicketsPast geometry.now (image_view image.now) bytes 0 tickets.old.items }
    requires held { (h : Mark → ℕ) → weigh (in_place (λ (t : Placed). h t.mark)) tickets.old.items ≤ weigh h hand.old.tickets }
    requires tokens { tokens.old.items ≡ replicate (geometry.now.nodes + 1) None }
    ensures shards { AreShards books.now.book geometry.now.nodes shards.new.items }
    ensures taken { (h : TakenNumber → ℕ) → weigh h (all_taken shards.new.items) ≡ weigh (in_place h) tokens.new.items }
    ensures goods { (bytes : ℕ → List ℕ) → AreTicketsPast geometry.now (image_view image.now) bytes 0 tickets.old.items
        → AreGoods geometry.now (image_view image.now) bytes tickets.new.items tokens.new.items }
    ensures placed { ArePlaced (λ (t : Placed). t.mark) (record { tickets = tickets.new.items; tokens = tokens.new.items }) }
    ensures marks { (h : Mark → ℕ) → weigh (in_place (λ (t : Placed). h t.mark)) tickets.new.items + weigh (in_place (λ e. h (mark_of e))) tokens.new.items
        ≡ weigh (in_place (λ (t : Placed). h t.mark)) tickets.old.items }
    ensures hand { (h : Mark → ℕ) → weigh h hand.new.tickets + weigh (in_place (λ (t : Placed). h t.mark)) tickets.old.items
        ≡ weigh h hand.old.tickets + weigh (in_place (λ (t : Placed). h t.mark)) tickets.new.items }
    ensures hand_tokens { (h : TakenNumber → ℕ) → weigh h hand.new.tokens ≡ weigh h hand.old.tokens + weigh (in_place h) tokens.new.items }
    ensures book { hand.new.book ≡ hand.old.book }
{
    for before in 0..geometry.nodes {
        let number = before + 1;
        let entry = image.entry(number);
        if entry.address != 0 {
            let ticket = take_at(tickets, entry.address);
            let shard = &mut shards[(number % 16) as usize];
            let token = load_node(books, hand, shard, number, entry.inode, ticket);
            put_at(tokens, number, token);
        }
    }
}
