//! The blocks of a main area, once nothing is valid in it.
ghost use Rattle.std.specs.Prelude.{◌≡◌, ◌≤◌, [], vec_len, vec_capacity};
ghost use Rattle.device.specs.Parts.{IsBlockRun};
ghost use Rattle.geometry.specs.Area.{block_count};
ghost use Rattle.geometry.specs.Shape.{block_bytes};
ghost use Rattle.rights_permits.specs.Names.{layout_of};
ghost use Rattle.image_codec.specs.Blocks.{bytes_at};
ghost use Rattle.area_emptying.specs.Rows.{AreSegments, AreShards, HaveNothing, AreEmpty, AreEmptyFalling};
ghost use Rattle.area_emptying.specs.Home.{AreAtHome};

use crate::owned_area::OwnedArea;
use checkpoint_image::{learn_segments, learn_shards};
use device::Block;
use geometry::Geometry;
use nat::Shard;
use rights_books::{Audit, Books, FileAccount};
use rights_permits::{AllPermits, VolumeName};
use sit::SegmentState;

impl<V: VolumeName, B: Block + Drop> OwnedArea<V, B> {
    /// All blocks in the order of their addresses, with the bytes that they have at home, where no file has lodged anything: an
    /// audit of the books, which all permits are in, shows that no block is valid then. It takes no memory.
    pub fn empty(self, all: AllPermits<V::Books, V::Turns>, mut files: Vec<FileAccount>) -> Vec<B>
        requires tickets { all.hand.tickets ≡ [] }
        requires tokens { all.hand.tokens ≡ [] }
        requires files { HaveNothing V.Books.books.book files.items }
        requires every_file { vec_len files ≡ V.Numbers.geometry.files }
        ensures run { IsBlockRun B.address_of B.content_of (block_bytes V.Numbers.geometry.shape) 1 result.items }
        ensures count { vec_len result ≡ block_count V.Numbers.geometry }
        ensures home { AreAtHome (bytes_at B.content_of result.items) self.segments.items }
    {
        let OwnedArea {
            geometry,
            turnstile,
            words: _,
            mut segments,
            mut shards,
            blocks,
        } = self;
        let mut auditing = turnstile.audit(all);
        let books = turnstile.books();
        show_empty::<V, B>(
            books,
            &mut auditing.audit,
            &mut segments,
            &mut shards,
            &mut files,
        );
        let all = turnstile.end_audit(auditing);
        turnstile.end(all);
        segments.reverse();
        empty_segments(&geometry, segments, blocks)
    }
}

// An audit learns all accounts, of which those of the files have nothing lodged, and settles: no block is valid.
fn show_empty<V: VolumeName, B: Block + Drop>(
    books: &Books,
    audit: &mut Audit,
    segments: &mut Vec<SegmentState<B>>,
    shards: &mut Vec<Shard<B>>,
    files: &mut Vec<FileAccount>,
)
    requires books { books.now ≡ V.Books.books }
    requires layout { V.Books.books.key ≡ layout_of V.Numbers.geometry }
    requires audit { audit.old ≡ record { book = V.Books.books.book; copies = [] } }
    requires segments { AreSegments V.Numbers.geometry V.Books.books.book V.Words.words segments.old.items }
    requires every_segment { vec_len segments.old ≡ V.Numbers.geometry.segments }
    requires shards { AreShards V.Books.books.book V.Numbers.geometry.nodes shards.old.items }
    requires every_shard { vec_len shards.old ≡ 16 }
    requires files { HaveNothing V.Books.books.book files.old.items }
    requires every_file { vec_len files.old ≡ V.Numbers.geometry.files }
    ensures empty { AreEmpty V.Numbers.geometry.shape segments.new.items }
    ensures same { segments.new.items ≡ segments.old.items }
    ensures book { audit.new.book ≡ audit.old.book }
{
    learn_segments(books, audit, segments);
    learn_shards(books, audit, shards);
    books.learn_files(audit, files);
    books.settle(audit);
}

// The blocks of segments in falling order, put behind one another. There is room for them.
fn empty_segments<B: Block + Drop>(
    geometry: &Geometry,
    mut segments: Vec<SegmentState<B>>,
    mut blocks: Vec<B>,
) -> Vec<B>
    requires segments { AreEmptyFalling geometry.now.shape geometry.now.segments segments.items }
    requires count { vec_len segments ≡ geometry.now.segments }
    requires none { vec_len blocks ≡ 0 }
    requires room { block_count geometry.now ≤ vec_capacity blocks }
    ensures run { IsBlockRun B.address_of B.content_of (block_bytes geometry.now.shape) 1 result.items }
    ensures count { vec_len result ≡ block_count geometry.now }
    ensures home { AreAtHome (bytes_at B.content_of result.items) segments.items }
{
    'segments: while let Some(segment) = segments.pop() {
        segment.empty_into(&mut blocks);
    }
    blocks
}
