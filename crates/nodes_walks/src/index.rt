//! The index of a block of a file, by the node and the entry that name it.
ghost use Rattle.std.specs.Prelude.{◌≡◌, ◌<◌, true, false, Some, None, IfSome};
ghost use Rattle.geometry.specs.declared.owner.Owner.TheVariants.{Data};
ghost use Rattle.geometry.specs.Path.{largest_length, path};
ghost use Rattle.nodes.specs.Change.{names, each_naming};
ghost use Rattle.nodes.specs.File.{address_of, IsFile, ticket_at, inode_of, below_weight, weight_of};
ghost use Rattle.nodes.specs.Owners.{owner_at};

use crate::{index_in, is_named_at};
use device::Block;
use nodes::FileState;

/// The index of the block whose address `from` the file's node of this number has at its entry `at`: that node names the
/// index, by that entry. None: no node has it there, so that the block was moved or given back meanwhile.
pub fn index_of<B: Block>(file: &FileState<B>, nid: u32, at: u32, from: u32) -> Option<u32>
    requires file { IsFile file.now }
    requires address { 0 < from }
    ensures inside { IfSome result (λ index. index < file.now.length) }
    ensures there { IfSome result (λ index. address_of (ticket_at file.now index) ≡ from) }
    ensures owner { IfSome result (λ index. owner_at file.now (path file.now.shape index) ≡ Some (Data nid at)) }
    ensures elsewhere { result ≡ None → weight_of file.now (each_naming nid at from) ≡ 0 }
{
    // A block stands below the length, so its index fits.
    let _length = file.length();
    if is_named_by_inode(file, nid, at, from) {
        return Some(at);
    }
    match index_below(file, nid, at as usize, from) {
        Some(index) => Some(index as u32),
        None => None,
    }
}

// Whether the inode has this number, and the address at this entry.
fn is_named_by_inode<B: Block>(file: &FileState<B>, nid: u32, at: u32, from: u32) -> bool
    requires file { IsFile file.now }
    requires address { 0 < from }
    ensures inside { result ≡ true → at < file.now.length }
    ensures there { result ≡ true → address_of (ticket_at file.now at) ≡ from }
    ensures owner { result ≡ true → owner_at file.now (path file.now.shape at) ≡ Some (Data nid at) }
    ensures elsewhere { result ≡ false → names nid at from (inode_of file.now) ≡ false }
{
    if file.token.number() != nid {
        return false;
    }
    is_named_at(&file.tickets, at as usize, from)
}

// The same below the inode.
fn index_below<B: Block>(file: &FileState<B>, nid: u32, at: usize, from: u32) -> Option<usize>
    requires file { IsFile file.now }
    requires address { 0 < from }
    ensures there { IfSome result (λ index. address_of (ticket_at file.now index) ≡ from) }
    ensures owner { IfSome result (λ index. owner_at file.now (path file.now.shape index) ≡ Some (Data nid at)) }
    ensures elsewhere { result ≡ None → below_weight file.now (each_naming nid at from) ≡ 0 }
{
    let slots = file.shape.inode_entries() as usize;
    let entries = file.shape.node_entries() as usize;
    if let Some(index) = index_in(&file.direct, 2, entries, nid, at, from) {
        return Some(slots + index);
    }
    if let Some(index) = index_in(&file.indirect, 2, entries, nid, at, from) {
        return Some(slots + 2 * entries + index);
    }
    match index_in(&file.double, 1, entries, nid, at, from) {
        Some(index) => Some(slots + 2 * entries + 2 * (entries * entries) + index),
        None => None,
    }
}
