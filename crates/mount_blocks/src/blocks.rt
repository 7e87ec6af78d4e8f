//! The blocks of one segment.
ghost use Rattle.std.specs.Prelude.{◌≡◌, ℕ, ◌+◌, ◌<◌, ◌≤◌, List, None, length, slice_index_or, vec_len, vec_capacity};
ghost use Rattle.device.specs.Parts.{IsBlockRun};
ghost use Rattle.geometry.specs.declared.owner.Mark.{Mark};
ghost use Rattle.geometry.specs.Address.{address_of};
ghost use Rattle.geometry.specs.Area.{block_count};
ghost use Rattle.geometry.specs.Shape.{block_bytes, segment_blocks};
ghost use Rattle.image.specs.Rules.{IsLawful};
ghost use Rattle.image.specs.View.{image_view};
ghost use Rattle.mount_blocks.specs.TreeGoods.{in_place};
ghost use Rattle.sit.specs.Loading.{AreItsBooks};
ghost use Rattle.geometry.specs.Weights.{weigh};
ghost use Rattle.mount_blocks.specs.Table.{AreTicketsPast, HaveBytes};
ghost use Rattle.mount_blocks.specs.States.{HasOwners};

use crate::owners::owner_at;
use crate::table::put_at;
use device::Block;
use geometry::Geometry;
use image::Image;
use rights_books::{Books, CallAccount};
use sit::Loading;
use tickets::Ticket;

/// All blocks of a segment come into it, the last ones of a run that begins at address 1. The ticket of each that the image
/// marks goes to its address in the table, where none stands. It takes no memory.
pub(crate) fn load_blocks<B: Block + Drop>(
    geometry: &Geometry,
    image: &Image,
    books: &Books,
    hand: &mut CallAccount,
    loading: &mut Loading<B>,
    blocks: &mut Vec<B>,
    tickets: &mut Vec<Option<Ticket<B>>>,
)
    requires lawful { IsLawful geometry.now (image_view image.now) }
    requires books { AreItsBooks books.now loading.old }
    requires hand { hand.old.book ≡ loading.old.book }
    requires shape { loading.old.shape ≡ geometry.now.shape }
    requires number { loading.old.number < geometry.now.segments }
    requires sized { length loading.old.summaries ≡ segment_blocks geometry.now.shape }
    requires left { loading.old.left ≡ segment_blocks geometry.now.shape }
    requires run { IsBlockRun B.address_of B.content_of (block_bytes geometry.now.shape) 1 blocks.old.items }
    requires last { address_of geometry.now.shape loading.old.number (segment_blocks geometry.now.shape) ≡ 1 + length blocks.old.items }
    requires places { length tickets.old.items ≡ block_count geometry.now + 1 }
    requires none { (address : ℕ) → address ≤ length blocks.old.items → slice_index_or tickets.old.items address None ≡ None }
    ensures owners { HasOwners geometry.now (image_view image.now) loading.new.number 0 loading.new.summaries }
    ensures left { loading.new.left ≡ 0 }
    ensures whose { (loading.new.shape ≡ loading.old.shape) × (loading.new.number ≡ loading.old.number) × (loading.new.book ≡ loading.old.book) }
    ensures run { IsBlockRun B.address_of B.content_of (block_bytes geometry.now.shape) 1 blocks.new.items }
    ensures rest { address_of geometry.now.shape loading.new.number 0 ≡ 1 + length blocks.new.items }
    ensures capacity { vec_capacity blocks.new ≡ vec_capacity blocks.old }
    ensures places { length tickets.new.items ≡ block_count geometry.now + 1 }
    ensures none { (address : ℕ) → address ≤ length blocks.new.items → slice_index_or tickets.new.items address None ≡ None }
    ensures bytes { (bytes : ℕ → List ℕ) → HaveBytes B.content_of bytes blocks.old.items → HaveBytes B.content_of bytes blocks.new.items }
    ensures tickets { (bytes : ℕ → List ℕ) → HaveBytes B.content_of bytes blocks.old.items
        → AreTicketsPast geometry.now (image_view image.now) bytes (length blocks.old.items) tickets.old.items
        → AreTicketsPast geometry.now (image_view image.now) bytes (length blocks.new.items) tickets.new.items }
    ensures hand { (h : Mark → ℕ) → weigh h hand.new.tickets + weigh (in_place (λ t. h t.mark)) tickets.old.items
        ≡ weigh h hand.old.tickets + weigh (in_place (λ t. h t.mark)) tickets.new.items }
    ensures tokens { hand.new.tokens ≡ hand.old.tokens }
    ensures book { hand.new.book ≡ hand.old.book }
{
    for done in 0..geometry.shape.segment_blocks() {
        match blocks.pop() {
            Some(block) => {
                let address = block.address();
                let owner = owner_at(geometry, image, address);
                match loading.put(books, hand, block, owner) {
                    Some(ticket) => put_at(tickets, address, ticket),
                    None => {}
                }
            }
            None => unreachable!(),
        }
    }
}
