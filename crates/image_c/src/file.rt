//! A file of an image, read by its number.
ghost use Rattle.std.specs.Prelude.{◌≡◌, length};

use geometry::Geometry;
use image::Image;
use image_reading::{address_at, length_of};

// Copies the blocks of a file to the front of `out`, as many as there are and as find room.
pub(crate) fn copy_file(
    geometry: &Geometry,
    image: &Image,
    bytes: &[u8],
    number: u32,
    out: &mut [u8],
) {
    let size = geometry.shape.block_bytes() as usize;
    let length = length_of(image, number);
    for (index, block) in (0..length).zip(out.chunks_exact_mut(size)) {
        let address = address_at(geometry, image, number, index);
        copy_block(geometry, bytes, address, block);
    }
}

// Copies the block at an address: zeros at address 0, where none was written.
fn copy_block(geometry: &Geometry, bytes: &[u8], address: u32, out: &mut [u8])
    ensures { length out.new ≡ length out.old }
{
    out.fill(0);
    if address == 0 {
        return;
    }
    let size = geometry.shape.block_bytes() as usize;
    let place = (address as usize - 1).saturating_mul(size);
    let first = place.saturating_add(geometry.meta_bytes() as usize);
    if let Some(held) = bytes.get(first..first.saturating_add(size))
        && out.len() == held.len()
    {
        out.copy_from_slice(held);
    }
}
