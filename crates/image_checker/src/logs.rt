//! Whether logs stand in segments of their own, and ahead of what is marked there.
ghost use Rattle.std.specs.Prelude.{◌≡◌, ◌<◌, ◌≤◌, ◌↔◌, ◌+◌, ◌*◌, ℕ, IsTrue, All, AllPairs, IfSome, length};
ghost use Rattle.geometry.specs.Address.{address_of};
ghost use Rattle.geometry.specs.Shape.{segment_blocks};
ghost use Rattle.image.specs.Image.{is_marked};
ghost use Rattle.image.specs.Rules.{AreApart};
ghost use Rattle.image.specs.View.{image_view};

use geometry::Geometry;
use image::{Image, LogHead};

/// Whether no two logs name one segment.
pub fn logs_are_apart(logs: &[Option<LogHead>]) -> bool
    ensures { IsTrue result ↔ AllPairs AreApart logs.now }
{
    for i in 0..logs.len() {
        for j in i + 1..logs.len() {
            if let (Some(first), Some(second)) = (logs[i], logs[j]) {
                if first.segment == second.segment {
                    return false;
                }
            }
        }
    }
    true
}

/// Whether nothing at or past a log's next block is marked in its segment.
pub fn log_is_ahead(geometry: &Geometry, image: &Image, place: LogHead) -> bool
    requires low { place.segment < geometry.now.segments }
    ensures { IsTrue result ↔ ((offset : ℕ) → place.next ≤ offset → offset < segment_blocks geometry.now.shape
        → ¬ IsTrue (is_marked geometry.now (image_view image.now) (address_of geometry.now.shape place.segment offset))) }
{
    for offset in place.next..geometry.shape.segment_blocks() {
        let address = geometry.address_of(place.segment, offset);
        if image.is_marked(geometry, address) {
            return false;
        }
    }
    true
}

/// Whether this holds of each log.
pub fn logs_are_ahead(geometry: &Geometry, image: &Image) -> bool
    requires low { All (λ log. IfSome log (λ place. place.segment < geometry.now.segments)) image.now.logs.items }
    ensures { IsTrue result ↔ All (λ log. IfSome log (λ place. (offset : ℕ) → place.next ≤ offset → offset < segment_blocks geometry.now.shape
        → ¬ IsTrue (is_marked geometry.now (image_view image.now) (address_of geometry.now.shape place.segment offset)))) image.now.logs.items }
{
    for log in &image.logs {
        if let Some(place) = log {
            if !log_is_ahead(geometry, image, *place) {
                return false;
            }
        }
    }
    true
}
