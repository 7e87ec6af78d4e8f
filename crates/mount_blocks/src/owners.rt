//! What an image says of a block and of a segment.
ghost use Rattle.std.specs.Prelude.{◌≡◌};
ghost use Rattle.image.specs.Image.{info_of};
ghost use Rattle.image.specs.View.{image_view};
ghost use Rattle.mount_blocks.specs.Marked.{marked_owner};
ghost use Rattle.mount_blocks.specs.States.{IsLogIn};

use geometry::{Geometry, Owner};
use image::{Image, LogHead};

/// Who names the block at an address, where it is valid.
pub(crate) fn owner_at(geometry: &Geometry, image: &Image, address: u32) -> Option<Owner>
    ensures { result ≡ marked_owner geometry.now (image_view image.now) address }
{
    if image.is_marked(geometry, address) {
        image.summary(address).owner()
    } else {
        None
    }
}

/// How many blocks of a segment are valid, and the largest time of an append; both are 0 where the image has no such segment.
pub(crate) fn numbers_of(image: &Image, segment: u32) -> (u32, u64)
    ensures count { result.0 ≡ (info_of (image_view image.now) segment).count }
    ensures mtime { result.1 ≡ (info_of (image_view image.now) segment).mtime }
{
    match image.sit.get(segment as usize) {
        Some(info) => (info.count, info.mtime),
        None => (0, 0),
    }
}

/// The log that stands in a segment, and its place there, where one does.
pub(crate) fn log_in(image: &Image, segment: u32) -> Option<(usize, LogHead)>
    ensures { IsLogIn (image_view image.now) segment result }
{
    for log in 0..image.logs.len() {
        if let Some(place) = image.logs[log] {
            if place.segment == segment {
                return Some((log, place));
            }
        }
    }
    None
}
