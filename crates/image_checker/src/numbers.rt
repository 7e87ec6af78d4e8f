//! Whether counts, total, logs and lengths agree with the marks and the entries.
ghost use Rattle.std.specs.Prelude.{◌≡◌, ◌<◌, ◌^◌, ◌↔◌, IsTrue, All, length, count_by, sum_by};
ghost use Rattle.image.specs.Rules.{IsInRange, NumbersAgree};
ghost use Rattle.image.specs.View.{image_view};

use crate::lengths::lengths_hold;
use crate::logs::logs_are_ahead;
use geometry::Geometry;
use image::{Image, SegmentInfo};

/// Whether each segment's count is the number of its marks.
pub fn counts_agree(segments: &[SegmentInfo]) -> bool
    ensures { IsTrue result ↔ All (λ s. s.count ≡ count_by (λ bit. bit) s.bits.items) segments.now }
{
    segments.iter().all(|s| s.count as usize == s.bits.iter().filter(|bit| **bit).count())
}

/// The sum of the segments' counts.
pub fn sum_of_counts(segments: &[SegmentInfo]) -> u64
    requires { length segments.now < 2 ^ 32 }
    ensures { result ≡ sum_by (λ s. s.count) segments.now }
{
    let mut sum = 0;
    for s in segments {
        sum += u64::from(s.count);
    }
    sum
}

/// Whether counts, total, logs and lengths agree with the marks and the entries.
pub fn numbers_agree(geometry: &Geometry, image: &Image) -> bool
    requires sized { IsInRange geometry.now (image_view image.now) }
    ensures { IsTrue result ↔ NumbersAgree geometry.now (image_view image.now) }
{
    if !counts_agree(&image.sit) {
        return false;
    }
    if u64::from(image.total) != sum_of_counts(&image.sit) {
        return false;
    }
    if !logs_are_ahead(geometry, image) {
        return false;
    }
    lengths_hold(geometry, image)
}
