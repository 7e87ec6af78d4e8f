//! The memory of a file's index tree, before its tokens and tickets are there.
ghost use Rattle.std.specs.Prelude.{◌≡◌, ℕ, ◌+◌, ◌<◌, ◌∷◌, [], IfOk};
ghost use Rattle.image.specs.Image.{node_of};
ghost use Rattle.image.specs.Walk.{child};
ghost use Rattle.image.specs.View.{image_view};
ghost use Rattle.mount_blocks.specs.Loaded.{IsRoomFor};
ghost use Rattle.mount_blocks.specs.FileLoaded.{FitsFile, IsFileRoom, fits_direct, fits_indirect, fits_double, roomy_direct, roomy_indirect, roomy_double};

use crate::{Load, NodeRoom, free_node_room, make_rooms};
use device::Block;
use geometry::Shape;
use image::Image;
use nodes::Branch;
use std::alloc::{AllocError, Global};
use tickets::Ticket;

/// The memory of the blocks that a node names.
pub type TicketRoom<B> = NodeRoom<Ticket<B>, ()>;

/// The memory of direct nodes that a node names.
pub type DirectRoom<B> = NodeRoom<Branch<Ticket<B>>, Option<TicketRoom<B>>>;

/// The memory of indirect nodes that a node names.
pub type IndirectRoom<B> = NodeRoom<Branch<Branch<Ticket<B>>>, Option<DirectRoom<B>>>;

/// The memory of a double indirect node.
pub type DoubleRoom<B> = NodeRoom<Branch<Branch<Branch<Ticket<B>>>>, Option<IndirectRoom<B>>>;

/// The memory of a file's index tree.
pub struct FileRoom<B: Block> {
    pub tickets: TicketRoom<B>,
    pub direct: DirectRoom<B>,
    pub indirect: IndirectRoom<B>,
    pub double: DoubleRoom<B>,
}

// The memory of what two entries of an inode name that stand side by side.
fn make_pair<C: Load>(
    alloc: Global,
    image: &Image,
    entries: usize,
    inode: u32,
    first: usize,
) -> Result<NodeRoom<C, C::Room>, AllocError>
    requires fits { (owner : ℕ) × C.fits (image_view image.now) entries owner (child (image_view image.now) inode first) × C.fits (image_view image.now) entries owner (child (image_view image.now) inode (first + 1)) × C.fits (image_view image.now) entries owner 0 }
    requires first { first < 4 }
    ensures room { IfOk result (λ room. IsRoomFor (C.roomy (image_view image.now)) (child (image_view image.now) inode first ∷ child (image_view image.now) inode (first + 1) ∷ []) room) }
{
    let numbers = [image.child(inode, first), image.child(inode, first + 1)];
    make_rooms::<C>(alloc, image, entries, &numbers)
}

// The memory of what the last entry of an inode names.
fn make_last<C: Load>(
    alloc: Global,
    image: &Image,
    entries: usize,
    inode: u32,
) -> Result<NodeRoom<C, C::Room>, AllocError>
    requires fits { (owner : ℕ) × C.fits (image_view image.now) entries owner (child (image_view image.now) inode 4) × C.fits (image_view image.now) entries owner 0 }
    ensures room { IfOk result (λ room. IsRoomFor (C.roomy (image_view image.now)) (child (image_view image.now) inode 4 ∷ []) room) }
{
    let numbers = [image.child(inode, 4)];
    make_rooms::<C>(alloc, image, entries, &numbers)
}

/// Makes the memory of all that the image names below an inode. Where memory is missing nothing is kept.
pub fn make_file_room<B: Block>(
    alloc: Global,
    image: &Image,
    shape: Shape,
    inode: u32,
) -> Result<FileRoom<B>, AllocError>
    requires fits { FitsFile (image_view image.now) shape inode }
    ensures room { IfOk result (λ room. IsFileRoom (image_view image.now) inode room) }
{
    let entries = shape.node_entries() as usize;
    let FrontRoom { tickets, direct } = make_front(alloc, image, entries, inode)?;
    match make_back(alloc, image, entries, inode) {
        Ok(BackRoom { indirect, double }) => Ok(FileRoom {
            tickets,
            direct,
            indirect,
            double,
        }),
        Err(error) => {
            free_node_room::<Ticket<B>>(tickets);
            free_node_room::<Branch<Ticket<B>>>(direct);
            Err(error)
        }
    }
}

// The memory of the data blocks of an inode, and of its direct nodes.
struct FrontRoom<B: Block> {
    tickets: TicketRoom<B>,
    direct: DirectRoom<B>,
}

// The memory of the indirect nodes of an inode, and of the double indirect one.
struct BackRoom<B: Block> {
    indirect: IndirectRoom<B>,
    double: DoubleRoom<B>,
}

fn make_front<B: Block>(
    alloc: Global,
    image: &Image,
    entries: usize,
    inode: u32,
) -> Result<FrontRoom<B>, AllocError>
    requires class { (node_of (image_view image.now) inode).class < 3 }
    requires fits { (k : ℕ) → k < 2 → fits_direct (image_view image.now) entries inode (child (image_view image.now) inode k) }
    ensures tickets { IfOk result (λ room. IsRoomFor (λ _ _. Unit {0}) (node_of (image_view image.now) inode).addresses room.tickets) }
    ensures direct { IfOk result (λ room. IsRoomFor (λ n r. roomy_direct (image_view image.now) n r) (child (image_view image.now) inode 0 ∷ child (image_view image.now) inode 1 ∷ []) room.direct) }
{
    let tickets = make_tickets::<B>(alloc, image, entries, inode)?;
    match make_pair::<Branch<Ticket<B>>>(alloc, image, entries, inode, 0) {
        Ok(direct) => Ok(FrontRoom { tickets, direct }),
        Err(error) => {
            free_node_room::<Ticket<B>>(tickets);
            Err(error)
        }
    }
}

fn make_back<B: Block>(
    alloc: Global,
    image: &Image,
    entries: usize,
    inode: u32,
) -> Result<BackRoom<B>, AllocError>
    requires indirect { (k : ℕ) → k < 2 → fits_indirect (image_view image.now) entries inode (child (image_view image.now) inode (2 + k)) }
    requires double { fits_double (image_view image.now) entries inode (child (image_view image.now) inode 4) }
    ensures indirect { IfOk result (λ room. IsRoomFor (λ n r. roomy_indirect (image_view image.now) n r) (child (image_view image.now) inode 2 ∷ child (image_view image.now) inode 3 ∷ []) room.indirect) }
    ensures double { IfOk result (λ room. IsRoomFor (λ n r. roomy_double (image_view image.now) n r) (child (image_view image.now) inode 4 ∷ []) room.double) }
{
    let indirect = make_pair::<Branch<Branch<Ticket<B>>>>(alloc, image, entries, inode, 2)?;
    match make_last::<Branch<Branch<Branch<Ticket<B>>>>>(alloc, image, entries, inode) {
        Ok(double) => Ok(BackRoom { indirect, double }),
        Err(error) => {
            free_node_room::<Branch<Branch<Ticket<B>>>>(indirect);
            Err(error)
        }
    }
}

// The memory of the data blocks that an inode names.
fn make_tickets<B: Block>(
    alloc: Global,
    image: &Image,
    entries: usize,
    inode: u32,
) -> Result<TicketRoom<B>, AllocError>
    requires { (node_of (image_view image.now) inode).class < 3 }
    ensures room { IfOk result (λ room. IsRoomFor (λ _ _. Unit {0}) (node_of (image_view image.now) inode).addresses room) }
{
    match image.node(inode) {
        Some(node) => make_rooms::<Ticket<B>>(alloc, image, entries, &node.addresses),
        None => unreachable!(),
    }
}
