//! Which segments are free.
ghost use Rattle.std.specs.Prelude.{◌≡◌};
ghost use Rattle.std.specs.List.{list_any};
ghost use Rattle.image.specs.Free.{stands_in, is_free, free_count};
ghost use Rattle.image.specs.Image.{info_of};
ghost use Rattle.image.specs.View.{image_view};

use crate::Image;
use geometry::Geometry;

impl Image {
    // The count of a segment that the image lacks is 0.
    fn valid_blocks(&self, segment: u32) -> u32
        ensures { result ≡ (info_of (image_view self.now) segment).count }
    {
        match self.sit.get(segment as usize) {
            Some(info) => info.count,
            None => 0,
        }
    }

    fn is_named(&self, segment: u32) -> bool
        ensures { result ≡ list_any (stands_in segment) (image_view self.now).logs }
    {
        self.logs.iter().any(|log| match log {
            Some(place) => place.segment == segment,
            None => false,
        })
    }

    /// Whether a segment is free: it has no valid block, and no log appends to it.
    pub fn is_free(&self, segment: u32) -> bool
        ensures { result ≡ is_free (image_view self.now) segment }
    {
        self.valid_blocks(segment) == 0 && !self.is_named(segment)
    }

    /// How many segments a mount of the image finds free. No memory.
    pub fn free(&self, geometry: &Geometry) -> u32
        ensures { result ≡ free_count geometry.now (image_view self.now) }
    {
        let mut free = 0;
        for segment in 0..geometry.segments {
            if self.is_free(segment) {
                free += 1;
            }
        }
        free
    }
}
