//! A walk of all index trees that visits each node once at a level.
ghost use Rattle.std.specs.Prelude.{◌≡◌, ◌≢◌, ◌<◌, ◌≤◌, ◌^◌, ◌-◌, ◌+◌, ℕ, [], true, IsTrue, filter, length, replicate, slice_index, All, ◌↔◌};
ghost use Rattle.std.specs.List.{flat_map};
ghost use Rattle.image.specs.Walk.{fits, names_below, misfits_below, misfits, walk, is_taken, up_to};
ghost use Rattle.image.specs.View.{image_view};
ghost use Rattle.image_checker.specs.Marks.{IsSound, Walked};

use image::Image;
use image::class::class_code;

/// Whether the node number belongs to the inode, and to a node of the class of this level.
pub fn fits(image: &Image, inode: u32, level: u8, nid: u32) -> bool
    ensures { result ≡ fits (image_view image.now) inode level nid }
{
    let entry = image.entry(nid);
    let class = match image.node(nid) {
        Some(node) => class_code(node.class),
        None => 3,
    };
    let wanted = if level == 0 { 1 } else { 2 };
    entry.address != 0 && entry.inode == inode && class == wanted
}

/// Whether the node at a place and all below it fit there. Marks what it meets.
pub fn mark_below(image: &Image, inode: u32, level: u8, nid: u32, marks: &mut [u8]) -> bool
    requires low { level < 3 }
    requires sized { length marks.old ≡ length image.now.nat.items + 1 }
    requires sound { IsSound (image_view image.now) marks.old }
    ensures walked { IsTrue result → Walked (image_view image.now) marks.old marks.new (misfits_below (image_view image.now) inode level nid) (names_below (image_view image.now) inode level nid) }
    ensures lost { ¬ IsTrue result → misfits_below (image_view image.now) inode level nid ≢ [] }
{
    if nid == 0 {
        return true;
    }
    if !fits(image, inode, level, nid) {
        return false;
    }
    if marks[nid as usize] == level + 1 {
        return true;
    }
    if level == 0 {
        marks[nid as usize] = level + 1;
        return true;
    }
    match image.node(nid) {
        Some(node) => {
            for child in &node.children {
                if !mark_below(image, inode, level - 1, *child, marks) {
                    return false;
                }
            }
            marks[nid as usize] = level + 1;
            true
        }
        None => false,
    }
}

/// Whether all below an inode fits. Marks what it meets, the inode too.
pub fn mark_walk(image: &Image, inode: u32, marks: &mut [u8]) -> bool
    requires taken { is_taken (image_view image.now) inode ≡ true }
    requires sized { length marks.old ≡ length image.now.nat.items + 1 }
    requires sound { IsSound (image_view image.now) marks.old }
    ensures walked { IsTrue result → Walked (image_view image.now) marks.old marks.new (misfits (image_view image.now) inode) (walk (image_view image.now) inode) }
    ensures lost { ¬ IsTrue result → misfits (image_view image.now) inode ≢ [] }
{
    marks[inode as usize] = 4;
    if !mark_below(image, inode, 0, image.child(inode, 0), marks) {
        return false;
    }
    if !mark_below(image, inode, 0, image.child(inode, 1), marks) {
        return false;
    }
    if !mark_below(image, inode, 1, image.child(inode, 2), marks) {
        return false;
    }
    if !mark_below(image, inode, 1, image.child(inode, 3), marks) {
        return false;
    }
    mark_below(image, inode, 2, image.child(inode, 4), marks)
}

/// Whether all below each inode fits. Marks what it meets.
pub fn mark_inodes(image: &Image, files: u32, marks: &mut [u8]) -> bool
    requires room { files < 2 ^ 32 - 1 }
    requires empty { marks.old ≡ replicate (length image.now.nat.items + 1) 0 }
    ensures walked { IsTrue result → Walked (image_view image.now) (replicate (length image.now.nat.items + 1) 0) marks.new
        (flat_map (misfits (image_view image.now)) (filter (is_taken (image_view image.now)) (up_to files)))
        (flat_map (walk (image_view image.now)) (filter (is_taken (image_view image.now)) (up_to files))) }
    ensures lost { ¬ IsTrue result → ¬ All (λ inode. misfits (image_view image.now) inode ≡ []) (filter (is_taken (image_view image.now)) (up_to files)) }
{
    for k in 0..files {
        if image.entry(k + 1).address != 0 {
            if !mark_walk(image, k + 1, marks) {
                return false;
            }
        }
    }
    true
}

/// Whether each number with an entry has a mark.
pub fn taken_are_marked(image: &Image, nodes: u32, marks: &[u8]) -> bool
    requires room { nodes < 2 ^ 32 - 1 }
    requires sized { nodes < length marks.now }
    ensures { IsTrue result ↔ ((nid : ℕ) → nid ≤ nodes → IsTrue (is_taken (image_view image.now) nid) → slice_index marks.now nid ≢ 0) }
{
    for nid in 0..nodes + 1 {
        if image.entry(nid).address != 0 && marks[nid as usize] == 0 {
            return false;
        }
    }
    true
}
