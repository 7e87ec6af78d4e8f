//! What the entries of a node name, one after another.
ghost use Rattle.std.specs.Prelude.{◌≡◌, ℕ, ◌+◌, ◌-◌, ◌<◌, ◌≤◌, List, length, slice_index, slice_index_or, false, IfOk};
ghost use Rattle.geometry.specs.Weights.{weigh};
ghost use Rattle.geometry.specs.declared.owner.Mark.{Mark};
ghost use Rattle.rights_books.specs.declared.claim.TakenNumber.{TakenNumber};
ghost use Rattle.image.specs.Image.{Image as Imaged};
ghost use Rattle.image.specs.View.{image_view};
ghost use Rattle.mount_blocks.specs.TreeGoods.{ArePlaced, goods_weight, marks_weight};
ghost use Rattle.mount_blocks.specs.Loaded.{weigh_from, IsRoomFor, AreLoaded, of_rights};

use crate::load::Load;
use crate::room::NodeRoom;
use crate::stock::Stock;
use image::Image;
use image_checker::used_of;
use nodes::{Entries, Slots};
use std::alloc::{AllocError, Global};

/// Makes the memory of entries with these numbers, and of all that they name. Where memory is missing nothing is kept.
pub fn make_rooms<C: Load>(
    alloc: Global,
    image: &Image,
    entries: usize,
    numbers: &[u32],
) -> Result<NodeRoom<C, C::Room>, AllocError>
    requires fits { (inode : ℕ) × ((k : ℕ) → C.fits (image_view image.now) entries inode (slice_index numbers.now k)) }
    ensures room { IfOk result (λ room. IsRoomFor (C.roomy (image_view image.now)) numbers.now room) }
{
    let slots = Slots::new(alloc, numbers.len())?;
    let used = used_of(numbers);
    match rooms_below::<C>(alloc, image, entries, &numbers[..used]) {
        Ok(below) => Ok(NodeRoom { slots, below }),
        Err(error) => {
            slots.destroy();
            Err(error)
        }
    }
}

// The memory of what each of these numbers names, the last one's first.
fn rooms_below<C: Load>(
    alloc: Global,
    image: &Image,
    entries: usize,
    numbers: &[u32],
) -> Result<Vec<C::Room>, AllocError>
    requires fits { (inode : ℕ) × ((k : ℕ) → C.fits (image_view image.now) entries inode (slice_index numbers.now k)) }
    ensures count { IfOk result (λ below. length below.items ≡ length numbers.now) }
    ensures each { IfOk result (λ below. (k : ℕ) (other : C.Room) → k < length below.items → C.roomy (image_view image.now) (slice_index numbers.now (length numbers.now - 1 - k)) (slice_index_or below.items k other)) }
{
    let mut below = Vec::with_capacity(alloc, numbers.len())?;
    for place in 0..numbers.len() {
        let number = numbers[numbers.len() - 1 - place];
        match C::make_room(alloc, image, entries, number) {
            Ok(room) => below.push_reserved(room),
            Err(error) => {
                free_rooms::<C>(below);
                return Err(error);
            }
        }
    }
    Ok(below)
}

// Frees the memory of what entries were to name.
fn free_rooms<C: Load>(mut below: Vec<C::Room>)
    requires rooms { (k : ℕ) (other : C.Room) → k < length below.items → (image : Imaged) × (number : ℕ) × C.roomy image number (slice_index_or below.items k other) }
{
    while let Some(room) = below.pop() {
        C::free_room(room);
    }
    below.destroy_empty();
}

/// Frees the memory of entries, and of all that they were to name.
pub fn free_node_room<C: Load>(room: NodeRoom<C, C::Room>)
    requires room { (image : Imaged) × (numbers : List ℕ) × IsRoomFor (C.roomy image) numbers room }
{
    let NodeRoom { slots, below } = room;
    slots.destroy();
    free_rooms::<C>(below);
}

/// The entries of the node `parent`, which have these numbers, and all that they name come out of the stock. They are not
/// marked. It takes no memory.
pub fn load_entries<C: Load>(
    image: &Image,
    entries: usize,
    parent: u32,
    numbers: &[u32],
    room: NodeRoom<C, C::Room>,
    stock: &mut Stock<C::Leaf>,
) -> Entries<C>
    requires fits { (inode : ℕ) × ((k : ℕ) → C.fits (image_view image.now) entries inode (slice_index numbers.now k)) }
    requires room { IsRoomFor (C.roomy (image_view image.now)) numbers.now room }
    requires placed { ArePlaced C.mark_of stock.old.all }
    requires there { (h : Mark → ℕ) → weigh_from (C.names (image_view image.now) h parent) 0 numbers.now ≤ marks_weight C.mark_of h stock.old }
    ensures loaded { AreLoaded (C.loaded (image_view image.now) stock.old.all parent) numbers.now result.slots.items }
    ensures clean { result.dirty ≡ false }
    ensures none_below { result.marked ≡ 0 }
    ensures all { stock.new.all ≡ stock.old.all }
    ensures taken { (h : Mark → ℕ) → marks_weight C.mark_of h stock.new + weigh_from (C.names (image_view image.now) h parent) 0 numbers.now ≡ marks_weight C.mark_of h stock.old }
    ensures trades { (ticket : C.Leaf → ℕ) (token : TakenNumber → ℕ) → goods_weight ticket token stock.new + weigh (C.weight (of_rights ticket token)) result.slots.items ≡ goods_weight ticket token stock.old }
{
    let NodeRoom {
        mut slots,
        mut below,
    } = room;
    for place in 0..below.len() {
        match below.pop() {
            Some(room) => {
                let number = numbers[place];
                slots.fill(
                    place,
                    C::load(image, entries, parent, place, number, room, stock),
                );
            }
            None => unreachable!(),
        }
    }
    below.destroy_empty();
    Entries {
        slots,
        dirty: false,
        marked: 0,
    }
}
