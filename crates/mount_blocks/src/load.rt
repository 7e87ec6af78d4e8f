//! What an entry of an image's node names comes into a slot.
ghost use Rattle.std.specs.Prelude.{◌≡◌, ℕ, ◌+◌, ◌<◌, ◌≤◌, List, Option, None, IfOk};
ghost use Rattle.geometry.specs.declared.owner.Mark.{Mark};
ghost use Rattle.rights_books.specs.declared.claim.TakenNumber.{TakenNumber};
ghost use Rattle.image.specs.Image.{Image as Imaged};
ghost use Rattle.image.specs.View.{image_view, node_view};
ghost use Rattle.mount_blocks.specs.TreeGoods.{Shelves, ArePlaced, goods_weight, marks_weight};
ghost use Rattle.mount_blocks.specs.Loaded.{name_weight, names_below, numbers_in, FitsBelow, RoomyBelow, IsTicketOf, LoadedBelow, of_rights};

use crate::entries::{free_node_room, load_entries, make_rooms};
use crate::room::NodeRoom;
use crate::stock::Stock;
use device::Block;
use image::{Image, Node};
use nodes::{Branch, Subtree};
use std::alloc::{AllocError, Global};
use tickets::Ticket;

/// A tree that an image names (Linux `filesystems/f2fs`, index structure).
///
/// To contracts `fits` says that the image has what an entry names, `names` what the blocks weigh that are named there,
/// `roomy` that there is memory for all of it, and `loaded` that a slot has it, with the tickets and tokens of a stock.
pub trait Load: Subtree {
    /// The memory of what an entry names.
    type Room;

    ghost mark_of: { Self.Leaf → Mark };

    ghost fits: { Imaged → ℕ → ℕ → ℕ → Type 0 };

    ghost names: { Imaged → (Mark → ℕ) → ℕ → ℕ → ℕ → ℕ };

    ghost roomy: { Imaged → ℕ → Self.Room → Type 0 };

    ghost loaded: { Imaged → Shelves Self.Leaf → ℕ → ℕ → ℕ → Option Self → Type 0 };

    // An entry of 0 names nothing, and nothing is loaded for it.
    ghost names_none: { (image : Imaged) (h : Mark → ℕ) (parent slot : ℕ) → names image h parent slot 0 ≡ 0 };

    ghost loaded_none: { (image : Imaged) (all : Shelves Self.Leaf) (parent slot : ℕ) → loaded image all parent slot 0 None };

    /// Makes the memory of what an entry of this number names. Where memory is missing nothing is kept.
    fn make_room(
        alloc: Global,
        image: &Image,
        entries: usize,
        number: u32,
    ) -> Result<Self::Room, AllocError>
        requires fits { (inode : ℕ) × fits (image_view image.now) entries inode number }
        ensures room { IfOk result (λ room. roomy (image_view image.now) number room) };

    /// Frees such memory.
    fn free_room(room: Self::Room)
        requires room { (image : Imaged) × (number : ℕ) × roomy image number room };

    /// What an entry of this number names, the `slot`th of the node `parent`, comes out of the stock. It takes no memory.
    fn load(
        image: &Image,
        entries: usize,
        parent: u32,
        slot: usize,
        number: u32,
        room: Self::Room,
        stock: &mut Stock<Self::Leaf>,
    ) -> Option<Self>
        requires fits { (inode : ℕ) × fits (image_view image.now) entries inode number }
        requires room { roomy (image_view image.now) number room }
        requires placed { ArePlaced mark_of stock.old.all }
        requires there { (h : Mark → ℕ) → names (image_view image.now) h parent slot number ≤ marks_weight mark_of h stock.old }
        ensures loaded { loaded (image_view image.now) stock.old.all parent slot number result }
        ensures all { stock.new.all ≡ stock.old.all }
        ensures taken { (h : Mark → ℕ) → marks_weight mark_of h stock.new + names (image_view image.now) h parent slot number ≡ marks_weight mark_of h stock.old }
        ensures trades { (ticket : Self.Leaf → ℕ) (token : TakenNumber → ℕ) → goods_weight ticket token stock.new + Self.weight (of_rights ticket token) result ≡ goods_weight ticket token stock.old };
}

impl<B: Block> Load for Ticket<B> {
    ghost use Rattle.std.specs.Prelude.{refl};

    type Room = ();

    ghost mark_of = { λ t. t.mark };

    ghost fits = { λ _ _ _ _. Unit {0} };

    ghost names = { λ _ h parent slot number. name_weight h parent slot number };

    ghost roomy = { λ _ _ _. Unit {0} };

    ghost loaded = { λ _ all parent slot number value. IsTicketOf (λ t. t.mark) all.tickets parent slot number value };

    ghost names_none = { λ _ _ _ _. refl };

    ghost loaded_none = { λ _ _ _ _. refl };

    fn make_room(
        _alloc: Global,
        _image: &Image,
        _entries: usize,
        _number: u32,
    ) -> Result<(), AllocError> {
        Ok(())
    }

    fn free_room(_room: ()) {}

    fn load(
        _image: &Image,
        _entries: usize,
        _parent: u32,
        _slot: usize,
        number: u32,
        _room: (),
        stock: &mut Stock<Ticket<B>>,
    ) -> Option<Ticket<B>> {
        if number == 0 {
            return None;
        }
        stock.law();
        Some(stock.take_ticket(number))
    }
}

// The entries of a node other than an inode.
fn numbers_of<C: Subtree>(node: &Node) -> &[u32]
    ensures { result.now ≡ numbers_in C.is_leaf (node_view node.now) }
{
    if C::is_leaf() {
        node.addresses.as_slice()
    } else {
        node.children.as_slice()
    }
}

impl<C: Load> Load for Branch<C> {
    ghost use Rattle.std.specs.Prelude.{refl};

    type Room = Option<NodeRoom<C, C::Room>>;

    ghost mark_of = { C.mark_of };

    ghost fits = { λ image entries inode number. FitsBelow C.is_leaf (C.fits image entries inode) image entries inode number };

    ghost names = { λ image h _ _ number. names_below C.is_leaf (C.names image h) image h number };

    ghost roomy = { λ image number room. RoomyBelow C.is_leaf (C.roomy image) image number room };

    ghost loaded = { λ image all _ _ number value. LoadedBelow C.is_leaf (C.loaded image all) image all.tokens number value };

    ghost names_none = { λ _ _ _ _. refl };

    ghost loaded_none = { λ _ _ _ _. refl };

    fn make_room(
        alloc: Global,
        image: &Image,
        entries: usize,
        number: u32,
    ) -> Result<Option<NodeRoom<C, C::Room>>, AllocError> {
        if number == 0 {
            return Ok(None);
        }
        match image.node(number) {
            Some(node) => {
                let room = make_rooms::<C>(alloc, image, entries, numbers_of::<C>(node))?;
                Ok(Some(room))
            }
            None => unreachable!(),
        }
    }

    fn free_room(room: Option<NodeRoom<C, C::Room>>) {
        match room {
            Some(room) => free_node_room::<C>(room),
            None => {}
        }
    }

    fn load(
        image: &Image,
        entries: usize,
        _parent: u32,
        _slot: usize,
        number: u32,
        room: Option<NodeRoom<C, C::Room>>,
        stock: &mut Stock<C::Leaf>,
    ) -> Option<Branch<C>> {
        let room = match room {
            Some(room) => room,
            None => return None,
        };
        stock.law();
        let token = stock.take_token(number);
        match image.node(number) {
            Some(node) => {
                let numbers = numbers_of::<C>(node);
                let entries = load_entries::<C>(image, entries, number, numbers, room, stock);
                Some(Branch { token, entries })
            }
            None => unreachable!(),
        }
    }
}
