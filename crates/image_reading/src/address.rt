//! Where a block of a file stands.
ghost use Rattle.std.specs.Prelude.{◌≡◌, slice_index};
ghost use Rattle.image.specs.Files.{data_address};
ghost use Rattle.image.specs.Image.{node_of};
ghost use Rattle.image.specs.View.{image_view};

use geometry::index::path;
use geometry::{Geometry, Path};
use image::Image;

/// The length of a file in blocks; 0 where there is none of this number.
pub fn length_of(image: &Image, number: u32) -> u32
    ensures { result ≡ (node_of (image_view image.now) number).length }
{
    match image.node(number) {
        Some(inode) => inode.length,
        None => 0,
    }
}

/// The address of a block of a file, 0 where none was written.
pub fn address_at(geometry: &Geometry, image: &Image, number: u32, index: u32) -> u32
    ensures { result ≡ data_address geometry.now.shape (image_view image.now) number index }
{
    match path(geometry.shape, u64::from(index)) {
        Some(Path::Inode(slot)) => address_in(image, number, slot),
        Some(Path::Direct(pointer, slot)) => {
            let direct = image.child(number, pointer as usize);
            address_in(image, direct, slot)
        }
        Some(Path::Indirect(pointer, entry, slot)) => {
            let indirect = image.child(number, pointer as usize);
            let direct = image.child(indirect, entry as usize);
            address_in(image, direct, slot)
        }
        Some(Path::Double(entry, below, slot)) => {
            let double = image.child(number, 4);
            let indirect = image.child(double, entry as usize);
            let direct = image.child(indirect, below as usize);
            address_in(image, direct, slot)
        }
        None => 0,
    }
}

// The address in a slot of a node, 0 where there is no such node.
fn address_in(image: &Image, node: u32, slot: u32) -> u32
    ensures { result ≡ slice_index (node_of (image_view image.now) node).addresses slot }
{
    match image.node(node) {
        Some(node) => match node.addresses.get(slot as usize) {
            Some(address) => *address,
            None => 0,
        },
        None => 0,
    }
}
