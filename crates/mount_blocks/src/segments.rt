//! The segments of a volume.
ghost use Rattle.std.specs.Prelude.{◌≡◌, ℕ, ◌+◌, ◌<◌, ◌≤◌, ◌++◌, ◌∷◌, [], List, None, length, replicate, vec_capacity};
ghost use Rattle.device.specs.Parts.{IsBlockRun};
ghost use Rattle.geometry.specs.declared.owner.Mark.{Mark};
ghost use Rattle.geometry.specs.Area.{block_count};
ghost use Rattle.geometry.specs.Shape.{block_bytes, segment_blocks};
ghost use Rattle.image.specs.Rules.{IsLawful};
ghost use Rattle.image.specs.View.{image_view};
ghost use Rattle.image.specs.Walk.{names};
ghost use Rattle.mount_blocks.specs.TreeGoods.{in_place};
ghost use Rattle.geometry.specs.Weights.{weigh};
ghost use Rattle.mount_blocks.specs.Rights.{AreRights};
ghost use Rattle.mount_blocks.specs.Table.{AreTicketsPast, HaveBytes};
ghost use Rattle.mount_blocks.specs.States.{AreSegmentsFrom};

use crate::blocks::load_blocks;
use crate::segment_rights::{SegmentRight, SegmentRights};
use crate::settling::LoadedSegments;
use device::Block;
use geometry::Geometry;
use image::Image;
use rights_books::{Books, CallAccount};
use tickets::Ticket;
use words::Words;

/// What is made for the segments of a volume before their blocks come: the rights to them, and room for what they become.
#[derive(Drop)]
pub struct SegmentMemory<B: Block + Drop> {
    pub rights: SegmentRights<B>,
    pub room: LoadedSegments<B>,
}

/// The blocks of a device come into the segments of a lawful image, the last ones first. The tickets of those that it marks
/// come into the hand and stand in the table, each at its address. It takes no memory.
pub fn load_segments<B: Block + Drop>(
    geometry: &Geometry,
    image: &Image,
    books: &Books,
    words: &Words,
    hand: &mut CallAccount,
    memory: SegmentMemory<B>,
    blocks: &mut Vec<B>,
    tickets: &mut Vec<Option<Ticket<B>>>,
) -> LoadedSegments<B>
    requires lawful { IsLawful geometry.now (image_view image.now) }
    requires layout { books.now.key.blocks ≡ segment_blocks geometry.now.shape }
    requires hand { hand.old.book ≡ books.now.book }
    requires rights { AreRights geometry.now.shape books.now.book words.now.table memory.rights.rooms.items memory.rights.accounts.items memory.rights.standings.items memory.rights.slips.items }
    requires count { length memory.rights.rooms.items ≡ geometry.now.segments }
    requires none { (memory.room.states.items ≡ []) × (memory.room.free.items ≡ []) × (memory.room.logs.items ≡ replicate 6 None) }
    requires states { geometry.now.segments ≤ vec_capacity memory.room.states }
    requires free { geometry.now.segments ≤ vec_capacity memory.room.free }
    requires run { IsBlockRun B.address_of B.content_of (block_bytes geometry.now.shape) 1 blocks.old.items }
    requires blocks { length blocks.old.items ≡ block_count geometry.now }
    requires tickets { tickets.old.items ≡ replicate (block_count geometry.now + 1) None }
    ensures segments { AreSegmentsFrom geometry.now (image_view image.now) books.now.book words.now.table 0 result.states.items result.free.items result.logs.items }
    ensures tickets { (bytes : ℕ → List ℕ) → HaveBytes B.content_of bytes blocks.old.items
        → AreTicketsPast geometry.now (image_view image.now) bytes 0 tickets.new.items }
    ensures named { (h : Mark → ℕ) → weigh (in_place (λ t. h t.mark)) tickets.new.items ≡ weigh h (names geometry.now (image_view image.now)) }
    ensures hand { (h : Mark → ℕ) → weigh h hand.new.tickets ≡ weigh h hand.old.tickets + weigh h (names geometry.now (image_view image.now)) }
    ensures tokens { hand.new.tokens ≡ hand.old.tokens }
    ensures book { hand.new.book ≡ hand.old.book }
    ensures blocks { length blocks.new.items ≡ 0 }
    ensures capacity { vec_capacity blocks.new ≡ vec_capacity blocks.old }
{
    let SegmentMemory {
        mut rights,
        room: mut segments,
    } = memory;
    'rights: while let Some(right) = rights.take_last(geometry, books, words) {
        let number = rights.rooms.len() as u32;
        let SegmentRight {
            room,
            account,
            state,
        } = right;
        let mut loading = room.load(account);
        load_blocks(geometry, image, books, hand, &mut loading, blocks, tickets);
        segments.settle(geometry, image, books, words, loading, number, state);
    }
    segments
}
