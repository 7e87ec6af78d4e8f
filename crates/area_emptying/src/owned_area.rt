//! A main area that no thread shares any more, and how what is in hand comes back into it.
ghost use Rattle.std.specs.Prelude.{◌≡◌, ◌<◌, ◌≤◌, ◌%◌, ℕ, List, [], vec_len, vec_capacity, length};
ghost use Rattle.rights_books.specs.Lists.{times, without};
ghost use Rattle.rights_books.specs.Sameness.{same_entry};
ghost use Rattle.geometry.specs.Mark.{same_mark};
ghost use Rattle.geometry.specs.Area.{block_count};
ghost use Rattle.geometry.specs.Shape.{block_bytes};
ghost use Rattle.rights_permits.specs.Names.{layout_of};
ghost use Rattle.nat.specs.Taken.{placed_of};
ghost use Rattle.area.specs.Hand.{having_given};
ghost use Rattle.area_emptying.specs.Rows.{AreSegments, AreShards};
ghost use Rattle.area_emptying.specs.Home.{AreAtHome};

use crate::owned::{own_segments, own_shards};
use crate::spare::CloseRows;
use area::MainArea;
use device::Block;
use geometry::{Geometry, Mark};
use nat::{SHARDS, Shard};
use rights_books::{Books, CallAccount};
use rights_permits::{Turnstile, VolumeName};
use sit::SegmentState;
use std::sync::Wait;
use tickets::{NidToken, Ticket};
use words::Words;

/// A main area that no thread shares any more: its segments and shards in the order of their numbers, and room for all its
/// blocks. So what is said of its blocks stays true from one call to the next.
pub struct OwnedArea<V: VolumeName, B: Block + Drop> {
    pub(crate) geometry: Geometry,
    pub(crate) turnstile: Turnstile<V::Books, V::Turns>,
    pub(crate) words: Words,
    pub(crate) segments: Vec<SegmentState<B>>,
    pub(crate) shards: Vec<Shard<B>>,
    pub(crate) blocks: Vec<B>,
    ghost numbers: { geometry ≡ V.Numbers.geometry },
    ghost laid: { V.Books.books.key ≡ layout_of V.Numbers.geometry },
    ghost worded: { words ≡ record { table = V.Words.words; segments = V.Numbers.geometry.segments } },
    ghost segments_are: { AreSegments V.Numbers.geometry V.Books.books.book V.Words.words segments.items },
    ghost every_segment: { vec_len segments ≡ V.Numbers.geometry.segments },
    ghost shards_are: { AreShards V.Books.books.book V.Numbers.geometry.nodes shards.items },
    ghost every_shard: { vec_len shards ≡ 16 },
    ghost no_blocks: { vec_len blocks ≡ 0 },
    ghost blocks_fit: { block_count V.Numbers.geometry ≤ vec_capacity blocks },
}

impl<V: VolumeName, B: Block + Drop> OwnedArea<V, B> {
    /// Takes a main area out of its locks. It takes no memory.
    pub fn own<R: Wait>(rt: &R, area: MainArea<V, B>, spare: CloseRows<V, B>) -> OwnedArea<V, B> {
        let CloseRows {
            blocks,
            segments,
            shards,
            volume: _,
        } = spare;
        let geometry = area.geometry();
        let _layout = area.books();
        let (turnstile, words, segment_cells, shard_cells) = area.into_parts();
        OwnedArea {
            geometry,
            turnstile,
            words,
            segments: own_segments(rt, segment_cells, segments),
            shards: own_shards(rt, shard_cells, shards),
            blocks,
        }
    }

    /// The books, which have an account for each segment, file and shard of the volume.
    pub fn books(&self) -> &Books
        ensures { result.now ≡ V.Books.books }
    {
        self.turnstile.books()
    }

    /// Takes back a ticket that is in hand: its block is valid no more, and is at home with its bytes. It cannot be refused.
    pub fn release(&mut self, hand: &mut CallAccount, ticket: Ticket<B>)
        requires book { hand.old.book ≡ V.Books.books.book }
        requires held { 0 < times same_mark ticket.mark hand.old.tickets }
        requires bytes { length ticket.content ≡ block_bytes V.Numbers.geometry.shape }
        ensures hand { hand.new ≡ record hand.old { tickets = without same_mark ticket.mark hand.old.tickets } }
        ensures some { 0 < ticket.mark.address }
        ensures home { (bytes : ℕ → List ℕ) → AreAtHome bytes self.new.segments.items
            → AreAtHome bytes self.old.segments.items × (bytes ticket.mark.address ≡ ticket.content) }
    {
        let address = ticket.address();
        let mark = Mark {
            address,
            owner: ticket.owner(),
        };
        let books = self.turnstile.books();
        books.locate(hand, mark);
        let segment = &mut self.segments[self.geometry.segment_of(address) as usize];
        segment.release(books, &self.words, hand, ticket);
    }

    /// Spends a token that is in hand: its number is free again. The node's block, where it had one, comes out with its
    /// ticket.
    pub fn give(&mut self, hand: &mut CallAccount, token: NidToken) -> Option<Ticket<B>>
        requires book { hand.old.book ≡ V.Books.books.book }
        requires held { 0 < times same_entry token hand.old.tokens }
        ensures ticket { result ≡ placed_of token }
        ensures hand { hand.new ≡ having_given token hand.old }
        ensures segments { self.new.segments.items ≡ self.old.segments.items }
    {
        let shard = &mut self.shards[(token.number() % SHARDS) as usize];
        shard.give(self.turnstile.books(), hand, token)
    }
}
