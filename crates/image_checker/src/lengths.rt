//! Whether files are as long as their entries need.
ghost use Rattle.std.specs.Prelude.{◌≡◌, ◌≢◌, ◌<◌, ◌*◌, ◌^◌, ℕ, IsTrue, ◌↔◌, All, slice_index};
ghost use Rattle.geometry.specs.Path.{node_entries};
ghost use Rattle.image.specs.Files.{data_address};
ghost use Rattle.image.specs.Image.{node_of};
ghost use Rattle.image.specs.Rules.{IsInRange};
ghost use Rattle.image.specs.View.{image_view};
ghost use Rattle.image.specs.Walk.{inodes};
ghost use Rattle.image_checker.specs.Lengths.{EndsBelow, FileEndsBelow};

use crate::used::used_of;
use geometry::{Geometry, Shape};
use image::Image;

/// Whether each of the first so many addresses that is not 0 is at an index below a limit.
pub fn addresses_end_below(addresses: &[u32], count: u32, limit: u64) -> bool
    ensures { IsTrue result ↔ ((k : ℕ) → k < count → slice_index addresses.now k ≢ 0 → k < limit) }
{
    let some = addresses.len().min(count as usize);
    used_of(&addresses[..some]) as u64 <= limit
}

/// Whether a node's addresses that are not 0 are at indexes below a limit.
pub fn own_end_below(image: &Image, nid: u32, count: u32, limit: u64) -> bool
    ensures { IsTrue result ↔ ((k : ℕ) → k < count → slice_index (node_of (image_view image.now) nid).addresses k ≢ 0 → k < limit) }
{
    match image.node(nid) {
        Some(node) => addresses_end_below(&node.addresses, count, limit),
        None => true,
    }
}

/// How many blocks an indirect node reaches.
pub fn indirect_span(shape: Shape) -> u64
    ensures span { result ≡ node_entries shape * node_entries shape }
    ensures few { result < 2 ^ 32 }
{
    match shape {
        Shape::Tiny => 100,
        Shape::Kernel => 1_036_324,
    }
}

/// Whether each block that the node at a place reaches is at an index below a limit, counted from the first that it may
/// reach.
pub fn ends_below(geometry: &Geometry, image: &Image, level: u8, nid: u32, limit: u64) -> bool
    requires low { level < 3 }
    requires sized { IsInRange geometry.now (image_view image.now) }
    ensures { IsTrue result ↔ EndsBelow (image_view image.now) (node_entries geometry.now.shape) level nid limit }
{
    let entries = geometry.shape.node_entries();
    if level == 0 {
        return own_end_below(image, nid, entries, limit);
    }
    let below = if level == 1 {
        u64::from(entries)
    } else {
        indirect_span(geometry.shape)
    };
    match image.node(nid) {
        Some(node) => {
            let mut left = limit;
            for child in &node.children {
                if !ends_below(geometry, image, level - 1, *child, left) {
                    return false;
                }
                left = left.saturating_sub(below);
            }
            true
        }
        None => true,
    }
}

/// The length of a file, by its inode.
pub fn length_of(image: &Image, inode: u32) -> u32
    ensures { result ≡ (node_of (image_view image.now) inode).length }
{
    match image.node(inode) {
        Some(node) => node.length,
        None => 0,
    }
}

/// Whether each block of a file is at an index below a length.
pub fn file_ends_below(geometry: &Geometry, image: &Image, inode: u32, length: u64) -> bool
    requires sized { IsInRange geometry.now (image_view image.now) }
    ensures { IsTrue result ↔ FileEndsBelow geometry.now.shape (image_view image.now) inode length }
{
    let entries = u64::from(geometry.shape.node_entries());
    let span = indirect_span(geometry.shape);
    let direct = geometry.shape.inode_entries();
    if !own_end_below(image, inode, direct, length) {
        return false;
    }
    let left = length.saturating_sub(u64::from(direct));
    if !ends_below(geometry, image, 0, image.child(inode, 0), left) {
        return false;
    }
    let left = left.saturating_sub(entries);
    if !ends_below(geometry, image, 0, image.child(inode, 1), left) {
        return false;
    }
    let left = left.saturating_sub(entries);
    if !ends_below(geometry, image, 1, image.child(inode, 2), left) {
        return false;
    }
    let left = left.saturating_sub(span);
    if !ends_below(geometry, image, 1, image.child(inode, 3), left) {
        return false;
    }
    let left = left.saturating_sub(span);
    ends_below(geometry, image, 2, image.child(inode, 4), left)
}

/// Whether each inode's length is above the index of each data entry.
pub fn lengths_hold(geometry: &Geometry, image: &Image) -> bool
    requires sized { IsInRange geometry.now (image_view image.now) }
    ensures { IsTrue result ↔ All (λ inode. (index : ℕ) → data_address geometry.now.shape (image_view image.now) inode index ≢ 0
        → index < (node_of (image_view image.now) inode).length) (inodes geometry.now (image_view image.now)) }
{
    for k in 0..geometry.files {
        if image.entry(k + 1).address != 0 {
            let length = u64::from(length_of(image, k + 1));
            if !file_ends_below(geometry, image, k + 1, length) {
                return false;
            }
        }
    }
    true
}
