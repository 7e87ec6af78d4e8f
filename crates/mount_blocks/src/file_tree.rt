//! A file's state out of a stock.
ghost use Rattle.std.specs.Prelude.{◌≡◌, ℕ, ◌+◌, ◌<◌, ◌≤◌, ◌∷◌, [], false};
ghost use Rattle.geometry.specs.declared.owner.Mark.{Mark};
ghost use Rattle.rights_books.specs.declared.claim.TakenNumber.{TakenNumber};
ghost use Rattle.tickets.specs.Placed.{Placed};
ghost use Rattle.image.specs.View.{image_view};
ghost use Rattle.nodes.specs.File.{weight_of};
ghost use Rattle.mount_blocks.specs.TreeGoods.{ArePlaced, goods_weight, marks_weight};
ghost use Rattle.geometry.specs.Weights.{weigh};
ghost use Rattle.image.specs.Walk.{child};
ghost use Rattle.mount_blocks.specs.Loaded.{weigh_from, IsRoomFor, AreLoaded, of_rights};
ghost use Rattle.mount_blocks.specs.FileLoaded.{FitsFile, IsFileRoom, IsLoadedFile, file_names};

use crate::file_room::FileRoom;
use crate::{Load, NodeRoom, Stock, load_entries};
use device::Block;
use geometry::Shape;
use image::Image;
use nodes::{Entries, FileState};
use tickets::Ticket;

/// The file of an inode comes out of the stock, with all nodes and tickets that the image names below it. None of its nodes
/// is marked. It takes no memory.
pub fn load_file<B: Block>(
    image: &Image,
    shape: Shape,
    inode: u32,
    room: FileRoom<B>,
    stock: &mut Stock<Ticket<B>>,
) -> FileState<B>
    requires fits { FitsFile (image_view image.now) shape inode }
    requires room { IsFileRoom (image_view image.now) inode room }
    requires placed { ArePlaced (λ (t : Placed). t.mark) stock.old.all }
    requires there { (h : Mark → ℕ) → file_names (image_view image.now) h inode ≤ marks_weight (λ (t : Placed). t.mark) h stock.old }
    ensures loaded { IsLoadedFile (image_view image.now) shape stock.old.all inode result }
    ensures all { stock.new.all ≡ stock.old.all }
    ensures taken { (h : Mark → ℕ) → marks_weight (λ (t : Placed). t.mark) h stock.new + file_names (image_view image.now) h inode ≡ marks_weight (λ (t : Placed). t.mark) h stock.old }
    ensures trades { (ticket : Placed → ℕ) (token : TakenNumber → ℕ) → goods_weight ticket token stock.new + weight_of result (of_rights ticket token) ≡ goods_weight ticket token stock.old }
{
    stock.law();
    let token = stock.take_token(inode);
    match image.node(inode) {
        Some(node) => {
            let entries = shape.node_entries() as usize;
            let FileRoom {
                tickets,
                direct,
                indirect,
                double,
            } = room;
            let tickets = load_entries(image, entries, inode, &node.addresses, tickets, stock);
            let direct = load_pair(image, entries, inode, 0, direct, stock);
            let indirect = load_pair(image, entries, inode, 2, indirect, stock);
            let double = load_last(image, entries, inode, double, stock);
            FileState {
                shape,
                kind: node.kind,
                length: node.length,
                resized: false,
                token,
                tickets,
                direct,
                indirect,
                double,
            }
        }
        None => unreachable!(),
    }
}

// What two entries of an inode name that stand side by side.
fn load_pair<C: Load>(
    image: &Image,
    entries: usize,
    inode: u32,
    first: usize,
    room: NodeRoom<C, C::Room>,
    stock: &mut Stock<C::Leaf>,
) -> Entries<C>
    requires fits { (owner : ℕ) × C.fits (image_view image.now) entries owner (child (image_view image.now) inode first) × C.fits (image_view image.now) entries owner (child (image_view image.now) inode (first + 1)) × C.fits (image_view image.now) entries owner 0 }
    requires room { IsRoomFor (C.roomy (image_view image.now)) (child (image_view image.now) inode first ∷ child (image_view image.now) inode (first + 1) ∷ []) room }
    requires placed { ArePlaced C.mark_of stock.old.all }
    requires there { (h : Mark → ℕ) → weigh_from (C.names (image_view image.now) h inode) 0 (child (image_view image.now) inode first ∷ child (image_view image.now) inode (first + 1) ∷ []) ≤ marks_weight C.mark_of h stock.old }
    requires first { first < 4 }
    ensures loaded { AreLoaded (C.loaded (image_view image.now) stock.old.all inode) (child (image_view image.now) inode first ∷ child (image_view image.now) inode (first + 1) ∷ []) result.slots.items }
    ensures clean { result.dirty ≡ false }
    ensures all { stock.new.all ≡ stock.old.all }
    ensures taken { (h : Mark → ℕ) → marks_weight C.mark_of h stock.new + weigh_from (C.names (image_view image.now) h inode) 0 (child (image_view image.now) inode first ∷ child (image_view image.now) inode (first + 1) ∷ []) ≡ marks_weight C.mark_of h stock.old }
    ensures trades { (ticket : C.Leaf → ℕ) (token : TakenNumber → ℕ) → goods_weight ticket token stock.new + weigh (C.weight (of_rights ticket token)) result.slots.items ≡ goods_weight ticket token stock.old }
{
    let numbers = [image.child(inode, first), image.child(inode, first + 1)];
    load_entries::<C>(image, entries, inode, &numbers, room, stock)
}

// What the last entry of an inode names.
fn load_last<C: Load>(
    image: &Image,
    entries: usize,
    inode: u32,
    room: NodeRoom<C, C::Room>,
    stock: &mut Stock<C::Leaf>,
) -> Entries<C>
    requires fits { (owner : ℕ) × C.fits (image_view image.now) entries owner (child (image_view image.now) inode 4) × C.fits (image_view image.now) entries owner 0 }
    requires room { IsRoomFor (C.roomy (image_view image.now)) (child (image_view image.now) inode 4 ∷ []) room }
    requires placed { ArePlaced C.mark_of stock.old.all }
    requires there { (h : Mark → ℕ) → weigh_from (C.names (image_view image.now) h inode) 0 (child (image_view image.now) inode 4 ∷ []) ≤ marks_weight C.mark_of h stock.old }
    ensures loaded { AreLoaded (C.loaded (image_view image.now) stock.old.all inode) (child (image_view image.now) inode 4 ∷ []) result.slots.items }
    ensures clean { result.dirty ≡ false }
    ensures all { stock.new.all ≡ stock.old.all }
    ensures taken { (h : Mark → ℕ) → marks_weight C.mark_of h stock.new + weigh_from (C.names (image_view image.now) h inode) 0 (child (image_view image.now) inode 4 ∷ []) ≡ marks_weight C.mark_of h stock.old }
    ensures trades { (ticket : C.Leaf → ℕ) (token : TakenNumber → ℕ) → goods_weight ticket token stock.new + weigh (C.weight (of_rights ticket token)) result.slots.items ≡ goods_weight ticket token stock.old }
{
    let numbers = [image.child(inode, 4)];
    load_entries::<C>(image, entries, inode, &numbers, room, stock)
}
