//! What is told of an image file.
ghost use Rattle.std.specs.Prelude.{◌≡◌};
ghost use Rattle.geometry.specs.Shape.{block_bytes, segment_blocks};
ghost use Rattle.image.specs.Free.{free_count};
ghost use Rattle.image.specs.View.{image_view};

use geometry::{Error, Geometry};
use image::Image;

/// What the last checkpoint of an image file has, and how large its volume is.
#[derive(Drop)]
#[repr(C)]
pub struct Facts {
    pub version: u32,
    pub valid_blocks: u32,
    pub free_segments: u32,
    pub block_bytes: u32,
    pub segment_blocks: u32,
    pub segments: u32,
    /// The fault of an image that is refused, 1 to 10; else 0.
    pub fault: u32,
}

// What is told of a lawful image.
pub(crate) fn facts_of(geometry: &Geometry, image: &Image) -> Facts
    ensures version { result.version ≡ image.now.version }
    ensures valid { result.valid_blocks ≡ image.now.total }
    ensures free { result.free_segments ≡ free_count geometry.now (image_view image.now) }
    ensures bytes { result.block_bytes ≡ block_bytes geometry.now.shape }
    ensures blocks { result.segment_blocks ≡ segment_blocks geometry.now.shape }
    ensures segments { result.segments ≡ geometry.now.segments }
    ensures fault { result.fault ≡ 0 }
{
    Facts {
        version: image.version,
        valid_blocks: image.total,
        free_segments: image.free(geometry),
        block_bytes: geometry.shape.block_bytes(),
        segment_blocks: geometry.shape.segment_blocks(),
        segments: geometry.segments,
        fault: 0,
    }
}

// The fault of an image that is not lawful, and 0 for any other refusal.
pub(crate) fn fault_of(error: Error) -> u32 {
    match error {
        Error::BadImage(fault) => u32::from(fault),
        _ => 0,
    }
}
