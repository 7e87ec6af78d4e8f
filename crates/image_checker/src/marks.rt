//! Whether names, marks and summaries agree.
ghost use Rattle.std.specs.Prelude.{◌≡◌, ◌<◌, ◌≤◌, ◌^◌, ◌↔◌, ◌⊎◌, ◌-◌, ℕ, true, false, IsTrue, All, length, slice_index_or};
ghost use Rattle.geometry.specs.Summary.{summary_of};
ghost use Rattle.image.specs.Image.{is_marked, summary_at, no_summary};
ghost use Rattle.image.specs.View.{image_view};

use geometry::{Geometry, Mark, Summary};
use image::Image;

/// Whether each named address is marked.
pub fn named_are_marked(geometry: &Geometry, image: &Image, names: &[Mark]) -> bool
    ensures { IsTrue result ↔ All (λ n. IsTrue (is_marked geometry.now (image_view image.now) n.address)) names.now }
{
    for k in 0..names.len() {
        if !image.is_marked(geometry, names[k].address) {
            return false;
        }
    }
    true
}

/// Whether each marked address is named, by the map of the named ones.
pub fn marked_are_named(geometry: &Geometry, image: &Image, map: &[bool]) -> bool
    requires room { length map.now < 2 ^ 32 }
    ensures { IsTrue result ↔ ((a : ℕ) → a < length map.now
        → IsTrue (is_marked geometry.now (image_view image.now) a) → slice_index_or map.now a false ≡ true) }
{
    for a in 0..map.len() {
        if image.is_marked(geometry, a as u32) && !map[a] {
            return false;
        }
    }
    true
}

/// Whether each named address has its owner's summary.
pub fn named_have_summaries(image: &Image, names: &[Mark]) -> bool
    ensures { IsTrue result ↔ All (λ n. summary_at (image_view image.now) n.address ≡ summary_of n.owner) names.now }
{
    for name in names {
        let summary = image.summary(name.address);
        let wanted = Summary::of(name.owner);
        if summary.nid != wanted.nid || summary.slot != wanted.slot {
            return false;
        }
    }
    true
}

/// Whether each address up to the last is marked or has no summary.
pub fn unmarked_have_none(geometry: &Geometry, image: &Image, last: u32) -> bool
    requires room { last < 2 ^ 32 - 1 }
    ensures { IsTrue result ↔ ((a : ℕ) → a ≤ last
        → IsTrue (is_marked geometry.now (image_view image.now) a) ⊎ (summary_at (image_view image.now) a ≡ no_summary)) }
{
    for a in 0..last + 1 {
        if !image.is_marked(geometry, a) {
            let summary = image.summary(a);
            if summary.nid != 0 || summary.slot != 0 {
                return false;
            }
        }
    }
    true
}
