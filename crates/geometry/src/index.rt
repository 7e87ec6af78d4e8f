//! The place of each index of a file.
ghost use Rattle.std.specs.Prelude.{◌≡◌, ℕ};
ghost use Rattle.geometry.specs.Path.{path};

use crate::{Path, Shape};

/// The place of an index. None where it is at or past the largest length, in blocks.
pub fn path(shape: Shape, index: u64) -> Option<Path>
    ensures { result ≡ path shape index }
{
    if index >= u64::from(shape.largest_length()) {
        return None;
    }
    let entries = shape.node_entries();
    let square = entries * entries;
    let left = index as u32;
    if left < shape.inode_entries() {
        return Some(Path::Inode(left));
    }
    let left = left - shape.inode_entries();
    if left < 2 * entries {
        return Some(Path::Direct(left / entries, left % entries));
    }
    let left = left - 2 * entries;
    if left < 2 * square {
        return Some(Path::Indirect(2 + left / square, left / entries % entries, left % entries));
    }
    let left = left - 2 * square;
    Some(Path::Double(left / square, left / entries % entries, left % entries))
}
